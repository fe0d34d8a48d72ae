ghost use Rattle.std.specs.Prelude.{◌≡◌, ◌≤◌, length, IfSome};
ghost use Rattle.slnf_check.specs.Compare.{first_other_byte, first_other_line};

/// The place, counted from 0, of the first byte in which two texts differ, or that only one of them has.
pub fn first_other_byte(ones: &[u8], others: &[u8]) -> Option<usize>
    ensures place { result ≡ first_other_byte ones.now others.now }
    ensures within { IfSome result (λ place. place ≤ length ones.now) }
{
    // Most texts are the same, which is told in pieces of many bytes.
    if ones == others {
        return None;
    }
    first_difference(ones, others)
}

/// The same, byte by byte.
fn first_difference(ones: &[u8], others: &[u8]) -> Option<usize>
    ensures place { result ≡ first_other_byte ones.now others.now }
    ensures within { IfSome result (λ place. place ≤ length ones.now) }
{
    let most = ones.len().min(others.len());
    for place in 0..most {
        if ones[place] != others[place] {
            return Some(place);
        }
    }
    if ones.len() == others.len() {
        None
    } else {
        Some(most)
    }
}

/// The first line, counted from 1, in which two texts differ, or that only one of them has.
pub fn first_other_line(ones: &[u8], others: &[u8]) -> Option<usize>
    ensures line { result ≡ first_other_line ones.now others.now }
{
    let place = first_other_byte(ones, others)?;
    let feeds = ones[..place].iter().filter(|byte| **byte == b'\n').count();
    Some(1 + feeds)
}
