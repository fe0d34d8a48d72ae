ghost use Rattle.std.specs.Prelude.{◌≡◌, IfOk, OnOk, OnErr, IsTrue};
ghost use Rattle.slnf_box.specs.LbBox.{return_verdict, lb_box, is_new_client};

use crate::pairs::PairTable;
use crate::services::{is_forward, is_return};
use slnf_base::{Change, NoMemory, Packet, Pair, Reason, Service, Verdict};
use std::alloc::Global;

/// The ordinary balancer: it pins each client to a backend.
#[derive(Drop)]
pub struct LbBox {
    service: Service,
    pins: PairTable,
}

ghost use Rattle.slnf_box.specs.Balancer.{pins_of};

/// The verdict of a packet from a backend whose client has this pin.
fn returned(service: &Service, packet: &Packet, known: Option<Pair>) -> Verdict
    ensures { result ≡ return_verdict service.now packet.now known }
{
    match known {
        None => Verdict::Dropped(Reason::NotPinned),
        Some(backend) => {
            if backend == packet.source {
                Verdict::Emit(Change::Source(service.front))
            } else {
                Verdict::Dropped(Reason::NotPinned)
            }
        }
    }
}

impl LbBox {
    /// The box of a service, with no client.
    pub fn make(alloc: Global, service: Service) -> LbBox
        ensures service { result.service ≡ service }
        ensures empty { pins_of result ≡ (lb_box service).empty }
    {
        LbBox {
            service,
            pins: PairTable::make(alloc),
        }
    }

    /// What the box does with a packet, where this backend is chosen for a client without a pin. Only a new client can want
    /// memory.
    pub fn handle(&mut self, packet: &Packet, choice: Pair) -> Result<Verdict, NoMemory>
        ensures verdict { IfOk result (λ verdict. verdict ≡ (lb_box self.old.service).verdict (pins_of self.old)
            (record { packet = packet.now; choice = choice })) }
        ensures next { OnOk result (pins_of self.new ≡ (lb_box self.old.service).next (pins_of self.old)
            (record { packet = packet.now; choice = choice })) }
        ensures service { self.new.service ≡ self.old.service }
        ensures new_client { OnErr result (IsTrue (is_new_client self.old.service (pins_of self.old) packet.now)) }
        ensures err { OnErr result (self.new ≡ self.old) }
    {
        if is_forward(&self.service, packet) {
            let backend = self.pins.at_or_put(packet.proto, packet.source, choice)?;
            return Ok(Verdict::Emit(Change::Dest(backend)));
        }
        if is_return(&self.service, packet) {
            let known = self.pins.at(packet.proto, packet.dest);
            return Ok(returned(&self.service, packet, known));
        }
        Ok(Verdict::Dropped(Reason::Neither))
    }
}
