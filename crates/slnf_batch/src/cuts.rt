ghost use Rattle.std.specs.Prelude.{◌≡◌, ◌≤◌, ℕ, [], length, take};
ghost use Rattle.slnf_run.specs.Jobs.{joining};
ghost use Rattle.slnf_batch.specs.Cut.{KeysDiffer};
ghost use Rattle.slnf_batch.specs.Firsts.{number_of};

use crate::firsts::is_repeated;
use slnf_access::Key;

/// How many of the next packets, which have these first keys, a new batch takes that has room for all of them: the
/// length of the longest prefix in which no key stands twice. It takes no memory.
pub fn cut(firsts: &[Option<Key>]) -> usize
    requires few { length firsts.now ≤ 32 }
    ensures within { result ≤ length firsts.now }
    ensures differ { KeysDiffer (take result firsts.now) }
    ensures longest { (count : ℕ) → count ≤ length firsts.now → KeysDiffer (take count firsts.now) → count ≤ result }
    ensures batch { (limit : ℕ) → length firsts.now ≤ limit → result ≡ joining limit number_of 0 [] firsts.now }
{
    for (place, first) in firsts.iter().enumerate() {
        if is_repeated(*first, &firsts[..place]) {
            return place;
        }
    }
    firsts.len()
}

#[cfg(test)]
mod tests {
    use super::*;

    const FIRST: Option<Key> = Some(Key(0x0411_0000_0000_0000_0000_c000_0201_0fa0));

    const SECOND: Option<Key> = Some(Key(0x0411_0000_0000_0000_0000_c000_0201_0fa1));

    #[test]
    fn a_batch_has_no_key_twice(rt: HostRuntime) {
        assert_eq!(rt; cut(&[FIRST, SECOND, FIRST]), 2);
        assert_eq!(rt; cut(&[FIRST, FIRST, SECOND]), 1);
        assert_eq!(rt; cut(&[FIRST, None, SECOND, None]), 4);
        assert_eq!(rt; cut(&[None, FIRST, None, SECOND, SECOND]), 4);
        assert_eq!(rt; cut(&[]), 0);
    }

    /// A full batch of packets with keys of their own.
    fn different() -> [Option<Key>; 32] {
        let mut firsts = [None; 32];
        for (place, first) in firsts.iter_mut().enumerate() {
            *first = Some(Key(place as u128));
        }
        firsts
    }

    #[test]
    fn a_full_batch_is_cut_at_its_first_repeat(rt: HostRuntime) {
        let mut firsts = different();
        assert_eq!(rt; cut(&firsts), 32);
        firsts[31] = firsts[0];
        assert_eq!(rt; cut(&firsts), 31);
        firsts[17] = firsts[16];
        assert_eq!(rt; cut(&firsts), 17);
        assert_eq!(rt; cut(&[FIRST; 32]), 1);
        assert_eq!(rt; cut(&[None; 32]), 32);
    }
}
