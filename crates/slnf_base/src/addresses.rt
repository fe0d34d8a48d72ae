ghost use Rattle.std.specs.Prelude.{◌≡◌, ◌≤◌, ◌-◌, ◌/◌, ◌%◌, ◌^◌, IsTrue};

/// An IPv4 address and a port. The first byte of the address is the highest of `addr`.
#[derive(Clone, Copy, Debug, PartialEq, Eq, PartialOrd, Ord)]
pub struct Pair {
    pub addr: u32,
    pub port: u16,
}

ghost use Rattle.slnf_base.specs.Ranges.{is_pair};

/// A pair's address and port have their ranges. It does nothing: a caller has the pair as a value.
pub fn know_pair(pair: Pair)
    ensures { IsTrue (is_pair pair) }
{}

/// The addresses whose first `bits` bits are those of `addr`: 0 to 32 bits, and zeros after them.
#[derive(Clone, Copy, Debug, PartialEq, Eq)]
pub struct Prefix {
    pub addr: u32,
    pub bits: u8,
    pub ghost within: { bits ≤ 32 },
    pub ghost zeros_after: { addr % 2 ^ (32 - bits) ≡ 0 },
}

impl Prefix {
    ghost use Rattle.slnf_base.specs.Prefix.{is_inside};

    /// Whether the address begins with the prefix.
    pub fn contains(&self, addr: u32) -> bool
        ensures { result ≡ is_inside self.now addr }
    {
        // In 64 bits a shift by 32 is one too.
        let shift = 32 - self.bits;
        u64::from(addr) >> shift == u64::from(self.addr) >> shift
    }
}

#[cfg(test)]
mod tests {
    use super::*;

    #[test]
    fn a_prefix_holds_its_addresses(rt: HostRuntime) {
        let ten = Prefix {
            addr: 0x0a00_0000,
            bits: 8,
        };
        let all = Prefix { addr: 0, bits: 0 };
        let one = Prefix {
            addr: 0xcb00_7101,
            bits: 32,
        };
        assert!(rt; ten.contains(0x0aff_ffff));
        assert!(rt; !ten.contains(0x0b00_0000));
        assert!(rt; all.contains(0xffff_ffff));
        assert!(rt; one.contains(0xcb00_7101));
        assert!(rt; !one.contains(0xcb00_7100));
    }
}
