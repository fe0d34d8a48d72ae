ghost use Rattle.std.specs.Prelude.{◌≡◌, OnOk, OnErr, None, []};
ghost use Rattle.slnf_run.specs.Tables.{with_value};
ghost use Rattle.slnf_box.specs.FwBox.{is_same_conn};
ghost use Rattle.slnf_box.specs.Conns.{conn_at};

use crate::choices::Tracked;
use slnf_base::{NoMemory, Pair};
use slnf_keys::ConnKey;
use std::alloc::Global;
use std::collections::BTreeMap;
use std::marker::Model;

/// A key: a protocol's number, and a connection's pairs on the inside and on the outside.
#[derive(Clone, Copy, Debug, PartialEq, Eq, PartialOrd, Ord)]
pub struct Link {
    pub proto: u8,
    pub inside: Pair,
    pub outside: Pair,
}

ghost use Rattle.slnf_box.specs.Conns.{link_of};

/// The key of a connection.
fn link_of(key: ConnKey) -> Link
    ensures { result ≡ link_of key }
{
    Link {
        proto: key.proto.number(),
        inside: key.inside,
        outside: key.outside,
    }
}

/// What is kept of each connection.
#[derive(Drop)]
pub struct ConnTable {
    conns: BTreeMap<Link, Tracked>,
}

impl Model for ConnTable {
    ghost use Rattle.std.specs.Prelude.{List};
    ghost use Rattle.slnf_box.specs.declared.choices.Tracked.{Tracked};
    ghost use Rattle.slnf_box.specs.declared.conns.Link.{Link};

    ghost Value = { List (Link × Tracked) };

    ghost view = { λ table. table.conns.entries };
}

impl ConnTable {
    /// The table with no connection.
    pub fn make(alloc: Global) -> ConnTable
        ensures { result ≡ [] }
    {
        ConnTable {
            conns: BTreeMap::new(alloc),
        }
    }

    /// What is kept of a connection.
    pub fn at(&self, key: ConnKey) -> Option<Tracked>
        ensures { result ≡ conn_at self.now key }
    {
        self.conns.get(&link_of(key)).copied()
    }

    /// Keeps this of a connection. Only a connection that isn't there can want memory.
    pub fn put(&mut self, key: ConnKey, tracked: Tracked) -> Result<(), NoMemory>
        ensures ok { OnOk result (conn_at self.new ≡ with_value is_same_conn (conn_at self.old) key tracked) }
        ensures absent { OnErr result (conn_at self.old key ≡ None) }
        ensures err { OnErr result (self.new ≡ self.old) }
    {
        self.conns.insert(link_of(key), tracked)?;
        Ok(())
    }
}
