ghost use Rattle.std.specs.Prelude.{◌≡◌, Some, None, [], OnOk};

use slnf_base::NoMemory;
use slnf_flight::AnyFlight;
use std::alloc::Global;
use std::collections::BTreeMap;
use std::marker::Model;

/// The number of an incarnation, and of one of its items.
#[derive(Clone, Copy, Debug, PartialEq, Eq, PartialOrd, Ord)]
pub(crate) struct ItemKey {
    pub(crate) incarnation: u64,
    pub(crate) item: u64,
}

/// A packet under way, and the number of its first entry.
#[derive(Debug, Drop)]
pub(crate) struct InHand {
    pub(crate) first: usize,
    pub(crate) flight: AnyFlight,
}

/// The packets in hand of all incarnations.
#[derive(Drop)]
pub(crate) struct Hands {
    hands: BTreeMap<ItemKey, InHand>,
}

impl Model for Hands {
    ghost use Rattle.std.specs.Prelude.{List};
    ghost use Rattle.slnf_replay.specs.declared.hands.ItemKey.{ItemKey};
    ghost use Rattle.slnf_replay.specs.declared.hands.InHand.{InHand};

    ghost Value = { List (ItemKey × InHand) };

    ghost view = { λ hands. hands.hands.entries };
}

ghost use Rattle.slnf_replay.specs.Hands.{hand_in, with_hand};

impl Hands {
    /// No packet in hand.
    pub(crate) fn make(alloc: Global) -> Hands
        ensures { result ≡ [] }
    {
        Hands {
            hands: BTreeMap::new(alloc),
        }
    }

    /// Takes the packet of an incarnation's item out, if it is in hand.
    pub(crate) fn take(&mut self, incarnation: u64, item: u64) -> Option<InHand>
        ensures value { result ≡ hand_in self.old incarnation item }
        ensures gone { hand_in self.new ≡ with_hand (hand_in self.old) incarnation item None }
    {
        self.hands.remove(&ItemKey { incarnation, item })
    }

    /// Puts the packet of an incarnation's item in.
    pub(crate) fn put(&mut self, incarnation: u64, item: u64, hand: InHand) -> Result<(), NoMemory>
        ensures { OnOk result (hand_in self.new ≡ with_hand (hand_in self.old) incarnation item (Some hand)) }
    {
        self.hands.insert(ItemKey { incarnation, item }, hand)?;
        Ok(())
    }
}
