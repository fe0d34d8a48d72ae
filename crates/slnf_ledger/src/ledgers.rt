//! The verdicts of lanes, packet by packet.
ghost use Rattle.std.specs.Prelude.{◌≡◌, ◌++◌, ◌<◌, ◌≤◌, ℕ, [], length, set, IfOk, OnOk};
ghost use Rattle.slnf_ledger.specs.Ledger.{verdicts_at, places_in, filled, filled_from};

use slnf_base::{NoMemory, Row, Verdict};
use slnf_flight::Lane;
use std::alloc::Global;
use std::marker::Model;

/// The verdicts of each lane's packets so far, from the first packet on.
#[derive(Debug, Drop)]
pub struct Ledger {
    lanes: Vec<Vec<Verdict>>,
}

impl Model for Ledger {
    ghost use Rattle.std.specs.Prelude.{List, map};
    ghost use Rattle.slnf_base.specs.declared.packets.Verdict.{Verdict};

    ghost Value = { List (List Verdict) };

    ghost view = { λ ledger. map (λ verdicts. verdicts.items) ledger.lanes.items };
}

impl Ledger {
    /// The ledger of so many lanes before any packet was taken.
    pub fn make(alloc: Global, count: usize) -> Result<Ledger, NoMemory>
        ensures count { IfOk result (λ ledger. length ledger ≡ count) }
        ensures none { IfOk result (λ ledger. (lane : ℕ) → verdicts_at ledger lane ≡ []) }
    {
        let mut lanes = Vec::new(alloc);
        while lanes.len() < count {
            lanes.push(Vec::new(alloc))?;
        }
        Ok(Ledger { lanes })
    }

    /// How many packets of a lane have verdicts.
    pub fn place(&self, lane: u32) -> usize
        ensures { result ≡ places_in self.now lane }
    {
        match self.lanes.get(lane as usize) {
            Some(verdicts) => verdicts.len(),
            None => 0,
        }
    }

    /// Adds these verdicts to the lane's.
    pub fn add(&mut self, lane: u32, verdicts: &[Verdict]) -> Result<(), NoMemory>
        requires { lane < length self.old }
        ensures { OnOk result (self.new ≡ set self.old lane (verdicts_at self.old lane ++ verdicts.now)) }
    {
        let there = &mut self.lanes[lane as usize];
        there.extend_from_slice(verdicts)?;
        Ok(())
    }

    /// The verdicts of all packets of these lanes. A packet that nobody took is left.
    pub fn fill(self, alloc: Global, lanes: &[Lane]) -> Result<Row<Row<Verdict>>, NoMemory>
        requires { length lanes.now ≤ length self }
        ensures { IfOk result (λ rows. rows ≡ filled_from self 0 lanes.now) }
    {
        let Ledger { lanes: ledger } = self;
        let mut rows = Vec::with_capacity(alloc, lanes.len())?;
        for number in 0..lanes.len() {
            let count = lanes[number].packets.len();
            rows.push(Row::from_vec(fill(alloc, ledger[number].as_slice(), count)?))?;
        }
        Ok(Row::from_vec(rows))
    }
}

/// A lane's verdicts, and for each packet behind them that it is left.
fn fill(alloc: Global, verdicts: &[Verdict], count: usize) -> Result<Vec<Verdict>, NoMemory>
    ensures { IfOk result (λ all. all.items ≡ filled verdicts.now count) }
{
    let mut all = Vec::from_slice(alloc, verdicts)?;
    while all.len() < count {
        all.push(Verdict::Left)?;
    }
    Ok(all)
}
