ghost use Rattle.std.specs.Prelude.{◌≡◌, ◌+◌, ◌^◌, ◌<◌, ◌≤◌, [], ◌∷◌, ◌++◌, length, IfOk, OnOk, OnErr};

use crate::requests::{Entry, Held, Key, Reply, Request};
use slnf_base::NoMemory;
use std::alloc::Global;
use std::marker::Model;

/// Every stamp is below this.
const STAMPS_END: u64 = 1 << 62;

/// The plain store: the list of the accesses so far, which says what each key has.
#[derive(Debug, Drop)]
pub struct ListStore {
    entries: Vec<Entry>,
    shards: u32,
}

impl Model for ListStore {
    ghost use Rattle.std.specs.Prelude.{◌<◌};
    ghost use Rattle.slnf_access.specs.Store.{Stored};

    ghost Value = { Stored };

    ghost view = { λ store. record { entries = store.entries.items; shards = store.shards } };

    ghost invariant = { λ store. 0 < store.shards };
}

impl ListStore {
    ghost use Rattle.slnf_access.specs.Map.{CanReply};
    ghost use Rattle.slnf_access.specs.Store.{next_entry};

    /// The store before any access. It takes no memory.
    pub fn make(alloc: Global, shards: u32) -> ListStore
        requires some { 0 < shards }
        requires most { shards ≤ 64 }
        ensures { result ≡ record { entries = []; shards = shards } }
    {
        ListStore {
            entries: Vec::new(alloc),
            shards,
        }
    }

    /// Makes one access, and answers the store's reply. Its stamp is its place in the list, counted from 1, and
    /// below 2^62: no memory has room for so long a list. After `NoMemory` the store is as before.
    pub fn access(
        &mut self,
        incarnation: u64,
        item: u64,
        request: Request,
    ) -> Result<Reply, NoMemory>
        ensures entries { OnOk result (self.new
            ≡ record self.old { entries = self.old.entries ++ next_entry self.old incarnation item request ∷ [] }) }
        ensures reply { IfOk result (λ reply. reply ≡ (next_entry self.old incarnation item request).reply) }
        ensures can { IfOk result (CanReply request) }
        ensures counts { OnOk result (length self.new.entries < 2 ^ 62) }
        ensures unchanged { OnErr result (self.new ≡ self.old) }
    {
        let stamp = self.entries.len() as u64 + 1;
        if stamp >= STAMPS_END {
            return Err(NoMemory);
        }
        let key = request.key();
        let reply = request.reply(stamp, held_at(self.entries.as_slice(), key));
        let shard = (key.0 % u128::from(self.shards)) as u32;
        self.entries.push(Entry {
            stamp,
            shard,
            incarnation,
            item,
            request,
            reply,
        })?;
        Ok(reply)
    }

    /// The accesses so far, in order.
    pub fn entries(&self) -> &[Entry]
        ensures { result.now ≡ self.now.entries }
    {
        self.entries.as_slice()
    }
}

ghost use Rattle.slnf_access.specs.Map.{cell_of};

/// What the key has after these accesses to an empty store.
fn held_at(entries: &[Entry], key: Key) -> Option<Held>
    ensures { result ≡ cell_of key.0 None entries.now }
{
    let mut held = None;
    for entry in entries {
        if entry.request.key() == key {
            held = entry.request.leaves(entry.stamp, held);
        }
    }
    held
}
