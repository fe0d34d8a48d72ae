/// Where a test can hold a thread. It carries no claim, and its calls change nothing of the store.
pub trait Gate {
    /// Called by an instance before each of its accesses, with its incarnation and with how many it has made.
    fn between(&self, incarnation: u64, accesses: u64);

    /// Called by the store in each turn, between the take of the shard's bucket and its accesses.
    fn inside(&self, shard: u32);
}

/// The gate that holds nobody, and costs nothing.
#[derive(Clone, Copy, Debug)]
pub struct NoGate;

impl Gate for NoGate {
    fn between(&self, _incarnation: u64, _accesses: u64) {}

    fn inside(&self, _shard: u32) {}
}
