/// Which function a plan runs.
#[derive(Clone, Copy, Debug, PartialEq, Eq)]
pub(crate) enum FunctionKind {
    Nat,
    Firewall,
    Balancer,
}
