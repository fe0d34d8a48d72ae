use crate::refusal::Cause;

/// How many elements a list may have: at most so many, and where a rule is named, at least one.
#[derive(Clone, Copy, Debug, PartialEq, Eq)]
pub(crate) struct Count {
    pub empty: Option<Cause>,
    pub most: Option<usize>,
}
