ghost use Rattle.std.specs.Prelude.{◌≡◌, ◌≤◌, ◌<◌, length, map, IsPermutation};
ghost use Rattle.slnf_batch.specs.Order.{shard_of, Ascends, ItemsDiffer};

use slnf_access::{Ask, Key, Request};

/// What stands where no ask was put yet.
const NO_ASK: Ask = Ask {
    item: 0,
    request: Request::Read { key: Key(0) },
};

/// Puts the asks of a round in the order in which they are made: ascending by shard, and in one shard by item.
/// It takes no memory.
pub fn group(asks: &mut [Ask], shards: u32)
    requires few { length asks.old ≤ 32 }
    requires distinct { ItemsDiffer asks.old }
    requires some { 0 < shards }
    ensures same { IsPermutation asks.old asks.new }
    ensures ascends { Ascends shards asks.new }
{
    if asks.len() < 2 {
        return;
    }
    let mut room = [(0u32, NO_ASK); 32];
    let placed = &mut room[..asks.len()];
    place(asks, shards, placed);
    placed.sort_unstable_by_key(|(shard, ask)| (*shard, ask.item));
    put_back(placed, asks);
}

/// Fills `placed` with the asks, each beside its shard.
fn place(asks: &[Ask], shards: u32, placed: &mut [(u32, Ask)])
    requires some { 0 < shards }
    requires room { length placed.old ≡ length asks.now }
    ensures { placed.new ≡ map (λ ask. (shard_of shards ask, ask)) asks.now }
{
    for (number, ask) in asks.iter().enumerate() {
        placed[number] = (shard(ask, shards), *ask);
    }
}

/// Fills `asks` with those of `placed`.
fn put_back(placed: &[(u32, Ask)], asks: &mut [Ask])
    requires { length asks.old ≡ length placed.now }
    ensures { asks.new ≡ map (λ of_shard. of_shard.1) placed.now }
{
    for (number, (_, ask)) in placed.iter().enumerate() {
        asks[number] = *ask;
    }
}

/// The shard of the key that is asked for.
fn shard(ask: &Ask, shards: u32) -> u32
    requires { 0 < shards }
    ensures { result ≡ shard_of shards ask.now }
{
    (ask.request.key().0 % u128::from(shards)) as u32
}

#[cfg(test)]
mod tests {
    use super::*;

    fn read(item: u64, key: u128) -> Ask
        ensures { result.item ≡ item }
    {
        Ask {
            item,
            request: Request::Read { key: Key(key) },
        }
    }

    #[test]
    fn a_round_goes_by_shard_and_item(rt: HostRuntime) {
        let mut asks = [read(4, 6), read(2, 5), read(3, 8), read(1, 7)];
        group(&mut asks, 2);
        assert_eq!(rt;
            asks.as_slice(),
            [read(3, 8), read(4, 6), read(1, 7), read(2, 5)].as_slice()
        );
    }

    #[test]
    fn one_shard_goes_by_item(rt: HostRuntime) {
        let mut asks = [read(4, 6), read(2, 5), read(3, 8), read(1, 7)];
        group(&mut asks, 1);
        assert_eq!(rt;
            asks.as_slice(),
            [read(1, 7), read(2, 5), read(3, 8), read(4, 6)].as_slice()
        );
    }
}
