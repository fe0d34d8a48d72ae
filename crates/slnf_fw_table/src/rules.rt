ghost use Rattle.std.specs.Prelude.{◌≡◌, ◌≤◌, ◌-◌, ◌%◌, ◌^◌, ◌/◌, ◌==◌, nat_le};

/// One rule: whether connections are permitted that open in this direction, with this protocol, between
/// addresses of the two prefixes, and to a port from `low` to `high`. `proto` is 6 for TCP, 17 for UDP and
/// 0 for both. Each prefix has 0 to 32 bits and zeros after them.
#[derive(Clone, Copy, Debug, PartialEq, Eq)]
pub struct Rule {
    pub permit: bool,
    pub outbound: bool,
    pub proto: u8,
    pub source: u32,
    pub source_bits: u8,
    pub dest: u32,
    pub dest_bits: u8,
    pub low: u16,
    pub high: u16,
    pub ghost source_within: { source_bits ≤ 32 },
    pub ghost source_zeros_after: { source % 2 ^ (32 - source_bits) ≡ 0 },
    pub ghost dest_within: { dest_bits ≤ 32 },
    pub ghost dest_zeros_after: { dest % 2 ^ (32 - dest_bits) ≡ 0 },
}

/// What the rules see of a packet that opens a connection. `proto` is 6 for TCP and 17 for UDP.
#[derive(Clone, Copy, Debug, PartialEq, Eq)]
pub struct Opening {
    pub outbound: bool,
    pub proto: u8,
    pub source: u32,
    pub dest: u32,
    pub dest_port: u16,
}

impl Rule {
    ghost use Rattle.slnf_fw_table.specs.Rules.{matches};

    /// Whether the rule speaks of the opening.
    pub(crate) fn matches(&self, opening: &Opening) -> bool
        ensures { result ≡ matches opening.now self.now }
    {
        self.outbound == opening.outbound
            && (self.proto == 0 || self.proto == opening.proto)
            && agrees(self.source_bits, self.source, opening.source)
            && agrees(self.dest_bits, self.dest, opening.dest)
            && self.low <= opening.dest_port
            && opening.dest_port <= self.high
    }
}

// Whether the first bits of both addresses agree.
fn agrees(bits: u8, a: u32, b: u32) -> bool
    requires { bits ≤ 32 }
    ensures { result ≡ (a / 2 ^ (32 - bits) == b / 2 ^ (32 - bits)) }
{
    // In 64 bits a shift by 32 is one too.
    let shift = 32 - bits;
    u64::from(a) >> shift == u64::from(b) >> shift
}
