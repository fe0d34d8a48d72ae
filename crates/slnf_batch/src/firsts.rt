ghost use Rattle.std.specs.Prelude.{◌≡◌, ◌<◌, ◌↔◌, ℕ, [], IsTrue, length};
ghost use Rattle.slnf_run.specs.Jobs.{joins};
ghost use Rattle.slnf_batch.specs.Firsts.{StandsAmong, number_of, keys_after};

use slnf_access::Key;

/// Whether the next packet, which has this first key, joins a batch whose packets have these first keys and that has
/// room for one more: no key may stand twice. It takes no memory.
pub fn joins(firsts: &[Option<Key>], next: Option<Key>) -> bool
    ensures new { IsTrue result ↔ (¬ StandsAmong next firsts.now) }
    ensures joins { (limit : ℕ) → length firsts.now < limit
        → result ≡ joins limit (length firsts.now) (keys_after [] firsts.now) (number_of next) }
{
    !is_repeated(next, firsts)
}

/// Whether a first key stands among these.
pub(crate) fn is_repeated(first: Option<Key>, earlier: &[Option<Key>]) -> bool
    ensures { IsTrue result ↔ StandsAmong first earlier.now }
{
    first.is_some() && earlier.contains(&first)
}

#[cfg(test)]
mod tests {
    use super::*;

    const FIRST: Option<Key> = Some(Key(0x0411_0000_0000_0000_0000_c000_0201_0fa0));

    const SECOND: Option<Key> = Some(Key(0x0411_0000_0000_0000_0000_c000_0201_0fa1));

    #[test]
    fn a_batch_has_no_key_twice(rt: HostRuntime) {
        assert_eq!(rt; joins(&[], FIRST), true);
        assert_eq!(rt; joins(&[FIRST], SECOND), true);
        assert_eq!(rt; joins(&[FIRST, SECOND], FIRST), false);
        assert_eq!(rt; joins(&[FIRST, SECOND], SECOND), false);
        assert_eq!(rt; joins(&[FIRST, None, None], SECOND), true);
    }

    #[test]
    fn a_packet_without_access_joins_any_batch(rt: HostRuntime) {
        assert_eq!(rt; joins(&[], None), true);
        assert_eq!(rt; joins(&[None; 31], None), true);
        assert_eq!(rt; joins(&[FIRST; 31], None), true);
    }
}
