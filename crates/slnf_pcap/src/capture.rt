use slnf_base::{Link, Row};

/// A record of a capture: the place of its header in the file, and the number of captured bytes, which stand
/// behind the 16 bytes of the header.
#[derive(Clone, Copy, Debug, PartialEq, Eq)]
pub struct Captured {
    pub at: usize,
    pub len: usize,
}

/// What a capture's headers say: whether the highest byte of a number comes first, whether fractions of
/// seconds are nanoseconds and not microseconds, the link type, and the records in order.
#[derive(Debug, Drop)]
pub struct Capture {
    pub big: bool,
    pub nanos: bool,
    pub link: Link,
    pub packets: Row<Captured>,
}
