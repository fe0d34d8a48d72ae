ghost use Rattle.std.specs.Prelude.{◌≡◌, IfOk, OnOk, OnErr, None, []};
ghost use Rattle.slnf_box.specs.LbBox.{with_pin, backend_or};
ghost use Rattle.slnf_box.specs.Pairs.{pair_at, put_in, taken_from};

use slnf_base::{NoMemory, Pair, Proto};
use std::alloc::Global;
use std::collections::BTreeMap;
use std::marker::Model;

/// A key: a protocol's number and a pair.
#[derive(Clone, Copy, Debug, PartialEq, Eq, PartialOrd, Ord)]
pub struct End {
    pub proto: u8,
    pub addr: u32,
    pub port: u16,
}

ghost use Rattle.slnf_box.specs.Pairs.{end_of};

/// The key of a protocol's pair.
fn end_of(proto: Proto, pair: Pair) -> End
    ensures { result ≡ end_of proto pair }
{
    End {
        proto: proto.number(),
        addr: pair.addr,
        port: pair.port,
    }
}

/// A map from pairs to pairs, for each protocol.
#[derive(Drop)]
pub struct PairTable {
    pairs: BTreeMap<End, Pair>,
}

impl Model for PairTable {
    ghost use Rattle.std.specs.Prelude.{List};
    ghost use Rattle.slnf_base.specs.declared.addresses.Pair.{Pair};
    ghost use Rattle.slnf_box.specs.declared.pairs.End.{End};

    ghost Value = { List (End × Pair) };

    ghost view = { λ table. table.pairs.entries };
}

impl PairTable {
    /// The table with no pairs.
    pub fn make(alloc: Global) -> PairTable
        ensures { result ≡ [] }
    {
        PairTable {
            pairs: BTreeMap::new(alloc),
        }
    }

    /// What the table has at a protocol's pair.
    pub fn at(&self, proto: Proto, pair: Pair) -> Option<Pair>
        ensures { result ≡ pair_at self.now proto pair }
    {
        self.pairs.get(&end_of(proto, pair)).copied()
    }

    /// Sets what the table has at a protocol's pair. Only a pair that isn't there can want memory.
    pub fn put(&mut self, proto: Proto, pair: Pair, value: Pair) -> Result<(), NoMemory>
        ensures ok { OnOk result (pair_at self.new ≡ with_pin (pair_at self.old) proto pair value) }
        ensures entries { OnOk result (self.new ≡ put_in self.old proto pair value) }
        ensures absent { OnErr result (pair_at self.old proto pair ≡ None) }
        ensures err { OnErr result (self.new ≡ self.old) }
    {
        self.pairs.insert(end_of(proto, pair), value)?;
        Ok(())
    }

    /// Takes away what the table has at a protocol's pair.
    pub fn take(&mut self, proto: Proto, pair: Pair)
        ensures { self.new ≡ taken_from self.old proto pair }
    {
        self.pairs.remove(&end_of(proto, pair));
    }

    /// What the table has at a protocol's pair, or else this value, which it has there then. Only a pair that isn't there can
    /// want memory.
    pub fn at_or_put(&mut self, proto: Proto, pair: Pair, value: Pair) -> Result<Pair, NoMemory>
        ensures value { IfOk result (λ known. known ≡ backend_or (pair_at self.old proto pair) value) }
        ensures ok { OnOk result (pair_at self.new
            ≡ with_pin (pair_at self.old) proto pair (backend_or (pair_at self.old proto pair) value)) }
        ensures absent { OnErr result (pair_at self.old proto pair ≡ None) }
        ensures err { OnErr result (self.new ≡ self.old) }
    {
        match self.at(proto, pair) {
            Some(known) => Ok(known),
            None => {
                self.put(proto, pair, value)?;
                Ok(value)
            }
        }
    }
}
