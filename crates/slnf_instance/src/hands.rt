use crate::errands::Errand;
use slnf_access::{Ask, Key};
use slnf_base::Verdict;

/// Where an actor is. Its batch in hand begins with the item `from`, and has a flight for each item that hasn't
/// ended. The round's asks from `place` on are still to be made. So many accesses are `left` up to its stop, if it
/// has one. It has a verdict for each item of its errand: `Lost` where none is reached yet.
#[derive(Debug, Drop)]
pub struct Hand<F> {
    pub(crate) errand: Errand,
    pub(crate) left: Option<u64>,
    pub(crate) from: usize,
    pub(crate) flights: Vec<Option<F>>,
    pub(crate) firsts: Vec<Option<Key>>,
    pub(crate) asks: Vec<Ask>,
    pub(crate) place: usize,
    pub(crate) verdicts: Vec<Verdict>,
}
