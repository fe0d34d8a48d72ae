//! The ordinary boxes of all functions behind one trait.
ghost use Rattle.std.specs.Prelude.{◌≡◌, IfOk, OnOk, Option};
ghost use Rattle.slnf_run.specs.Boxes.{Box};
ghost use Rattle.slnf_flight.specs.Flights.{Arrival};
ghost use Rattle.slnf_replay.specs.Boxes.{arrival_of};

use slnf_base::{NoMemory, Packet, Pair, Verdict};
use slnf_box::{FwBox, LbBox, NatBox};

/// An ordinary box: it answers one packet after another.
pub(crate) trait OrdinaryBox {
    /// What the box keeps, as its definition has it.
    ghost Content: { Type 0 };

    /// The box's definition.
    ghost definition: { Self → Box Arrival Content };

    /// The box keeps this.
    ghost Keeps: { Self → Content → Type 0 };

    /// What the box does with a packet, for which this pair is proposed.
    fn answer(&mut self, packet: &Packet, choice: Option<Pair>) -> Result<Verdict, NoMemory>
        ensures verdict { (content : Content) → Keeps self.old content → IfOk result (λ verdict.
            verdict ≡ (definition self.old).verdict content (arrival_of packet.now choice)) }
        ensures next { (content : Content) → Keeps self.old content → OnOk result
            (Keeps self.new ((definition self.old).next content (arrival_of packet.now choice))) }
        ensures same { definition self.new ≡ definition self.old };
}

impl OrdinaryBox for NatBox {
    ghost use Rattle.std.specs.Prelude.{List};
    ghost use Rattle.slnf_box.specs.NatBox.{Flow};
    ghost use Rattle.slnf_box.specs.Pools.{nat_of};
    ghost use Rattle.slnf_box.specs.Translator.{HasFlows};
    ghost use Rattle.slnf_setting.specs.OneBoxOfPlan.{any_nat_box};

    ghost Content = { List Flow };

    ghost definition = { λ ordinary. any_nat_box (nat_of ordinary.pool) };

    ghost Keeps = { HasFlows };

    fn answer(&mut self, packet: &Packet, choice: Option<Pair>) -> Result<Verdict, NoMemory> {
        self.handle(packet, choice)
    }
}

impl OrdinaryBox for FwBox {
    ghost use Rattle.slnf_box.specs.FwBox.{Conns};
    ghost use Rattle.slnf_box.specs.Firewall.{conns_of};
    ghost use Rattle.slnf_setting.specs.OneBoxOfPlan.{any_fw_box};

    ghost Content = { Conns };

    ghost definition = { λ ordinary. any_fw_box ordinary.policy };

    ghost Keeps = { λ ordinary conns. conns_of ordinary ≡ conns };

    fn answer(&mut self, packet: &Packet, _choice: Option<Pair>) -> Result<Verdict, NoMemory> {
        self.handle(packet)
    }
}

impl OrdinaryBox for LbBox {
    ghost use Rattle.slnf_box.specs.LbBox.{Pins};
    ghost use Rattle.slnf_box.specs.Balancer.{pins_of};
    ghost use Rattle.slnf_setting.specs.OneBoxOfPlan.{any_lb_box};

    ghost Content = { Pins };

    ghost definition = { λ ordinary. any_lb_box ordinary.service };

    ghost Keeps = { λ ordinary pins. pins_of ordinary ≡ pins };

    fn answer(&mut self, packet: &Packet, choice: Option<Pair>) -> Result<Verdict, NoMemory> {
        self.handle(packet, or_zeros(choice))
    }
}

ghost use Rattle.slnf_flight.specs.PlanSetting.{or_zeros};

/// The pair, or else zeros.
fn or_zeros(choice: Option<Pair>) -> Pair
    ensures { result ≡ or_zeros choice }
{
    match choice {
        Some(pair) => pair,
        None => Pair { addr: 0, port: 0 },
    }
}
