//! Gates that hold a thread until another one has come to a place. A hold ends after a stated number of loads with a mark.
use slnf_store::Gate;
use std::sync::atomic::{AtomicBool, AtomicU64, Ordering};

/// A place that a thread comes to.
#[derive(Drop)]
pub struct Flag {
    seen: AtomicBool,
}

impl Flag {
    pub(crate) fn new() -> Flag {
        Flag {
            seen: AtomicBool::new(false),
        }
    }

    pub(crate) fn raise(&self) {
        self.seen.store(true, Ordering::SeqCst);
    }

    pub(crate) fn is_raised(&self) -> bool {
        self.seen.load(Ordering::SeqCst)
    }

    /// Waits until the flag is raised. Where it isn't after so many loads the mark is.
    pub(crate) fn hold(&self, most: u64, mark: &Flag) {
        for _ in 0..most {
            if self.is_raised() {
                return;
            }
        }
        mark.raise();
    }
}

/// Holds instance 1 after its first access until instance 0 has made three.
#[derive(Drop)]
pub struct AfterFirst {
    pub made_three: Flag,
    pub held: Flag,
    pub most: u64,
    pub mark: Flag,
}

impl Gate for AfterFirst {
    fn between(&self, incarnation: u64, accesses: u64) {
        if incarnation == 0 && accesses == 3 {
            self.made_three.raise();
        }
        if incarnation == 1 && accesses == 1 {
            self.held.raise();
            self.made_three.hold(self.most, &self.mark);
        }
    }

    fn inside(&self, _shard: u32) {}
}

/// Holds instance 1 before its first access until shard 0's turn is taken, and that turn until instance 1 has made an
/// access in shard 1.
#[derive(Drop)]
pub struct InTurn {
    pub taken: Flag,
    pub let_go: Flag,
    pub given_back: Flag,
    pub most: u64,
    pub mark: Flag,
}

impl Gate for InTurn {
    fn between(&self, incarnation: u64, accesses: u64) {
        if incarnation != 1 {
            return;
        }
        if accesses == 0 {
            self.taken.hold(self.most, &self.mark);
            self.let_go.raise();
        } else if self.let_go.is_raised() {
            self.given_back.raise();
        }
    }

    fn inside(&self, shard: u32) {
        if shard == 0 {
            self.taken.raise();
            self.given_back.hold(self.most, &self.mark);
        }
    }
}

/// Counts turns.
#[derive(Drop)]
pub struct Turns {
    pub count: AtomicU64,
}

impl Gate for Turns {
    fn between(&self, _incarnation: u64, _accesses: u64) {}

    fn inside(&self, _shard: u32) {
        self.count.fetch_add(1, Ordering::SeqCst);
    }
}
