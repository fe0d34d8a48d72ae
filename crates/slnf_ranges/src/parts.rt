ghost use Rattle.std.specs.Prelude.{◌≡◌, List, IfOk};
ghost use Rattle.slnf_access.specs.declared.requests.Entry.{Entry};
ghost use Rattle.slnf_merge.specs.Merge.{all_of};

use slnf_access::Entry;
use slnf_base::{NoMemory, Row};
use std::alloc::Global;
use std::marker::Model;

/// A list of entries in parts, which stand one behind another. Contracts see the list.
#[derive(Debug, Drop)]
pub struct Parts {
    parts: Vec<Row<Entry>>,
}

impl Model for Parts {
    ghost Value = { List Entry };

    ghost view = { λ parts. all_of parts.parts.items };
}

impl Parts {
    /// The list of these parts.
    pub fn from_vec(parts: Vec<Row<Entry>>) -> Parts
        ensures { result ≡ all_of parts.items }
    {
        Parts { parts }
    }

    /// The parts, in order.
    pub fn as_slice(&self) -> &[Row<Entry>]
        ensures { all_of result.now ≡ self.now }
    {
        self.parts.as_slice()
    }

    /// The list in one piece. It takes the memory of the first part, moves the others behind it, and frees each.
    pub fn joined(self, alloc: Global) -> Result<Row<Entry>, NoMemory>
        ensures { IfOk result (λ row. row ≡ self) }
    {
        let Parts { parts } = self;
        let count = count(parts.as_slice());
        let mut rest = parts.into_iter();
        let mut all = match rest.next() {
            None => Vec::new(alloc),
            Some(first) => first.into_vec(),
        };
        all.reserve(count.saturating_sub(all.len()))?;
        for part in rest {
            let mut part = part.into_vec();
            all.append(&mut part)?;
        }
        Ok(Row::from_vec(all))
    }
}

/// How many entries the parts have. A count that no memory has room for stands still.
fn count(parts: &[Row<Entry>]) -> usize {
    let mut count: usize = 0;
    for part in parts {
        count = count.saturating_add(part.len());
    }
    count
}
