ghost use Rattle.std.specs.Prelude.{◌≡◌};
ghost use Rattle.std.specs.List.{list_any};
ghost use Rattle.slnf_base.specs.Equal.{is_same_pair};
ghost use Rattle.slnf_box.specs.Services.{is_forward, is_return};

use slnf_base::{Packet, Pair, Service};

/// Whether the pair is one of these.
fn is_among(pair: Pair, pairs: &[Pair]) -> bool
    ensures { result ≡ list_any (λ other. is_same_pair pair other) pairs.now }
{
    pairs.iter().any(|other| pair == *other)
}

/// Whether the packet goes to the front.
pub fn is_forward(service: &Service, packet: &Packet) -> bool
    ensures { result ≡ is_forward service.now packet.now }
{
    packet.proto == service.proto && packet.dest == service.front
}

/// Whether the packet comes from a backend.
pub fn is_return(service: &Service, packet: &Packet) -> bool
    ensures { result ≡ is_return service.now packet.now }
{
    packet.proto == service.proto && is_among(packet.source, service.backends.as_slice())
}
