ghost use Rattle.std.specs.Prelude.{◌≡◌};
ghost use Rattle.slnf_fw.specs.Machine.{fw_key, step_of_choice, written_where, decide, after_write};

use crate::flights::{FwFlight, FwState};
use crate::values::{fw_value, tracked_of};
use slnf_access::{Function, Key, Reply, Request, Start, Step};
use slnf_base::{Change, Packet, Reason, Verdict};
use slnf_box::{Choice, Policy};

/// A stateful firewall that goes by a policy.
#[derive(Debug, Drop)]
pub struct FwFunction {
    pub policy: Policy,
}

/// How a packet goes on by a choice: it writes its connection over what was found with this version, or anew where
/// nothing was found.
fn step_of_choice(packet: Packet, found: Option<u64>, choice: Choice) -> Step<FwFlight>
    ensures { result ≡ step_of_choice packet (written_where found) choice }
{
    match choice {
        Choice::Refuses(reason) => Step::Over(Verdict::Dropped(reason)),
        Choice::Passes => Step::Over(Verdict::Emit(Change::Keep)),
        Choice::Writes(tracked) => {
            let state = match found {
                None => FwState::Add(tracked),
                Some(version) => FwState::Alter(version, tracked),
            };
            Step::Go(FwFlight { state, packet })
        }
    }
}

impl FwFunction {
    /// The key of the packet's connection.
    fn key_of_packet(&self, packet: &Packet) -> Key
        ensures { result ≡ fw_key self.now.policy packet.now }
    {
        Key(self.policy.conn_of_packet(packet).to_number())
    }

    /// How a packet goes on by what a reply tells of its connection.
    fn decide(&self, packet: Packet, reply: Reply) -> Step<FwFlight>
        ensures { result ≡ decide self.now.policy packet reply }
    {
        match reply {
            Reply::Absent => step_of_choice(packet, None, self.policy.choice_of(&packet, None)),
            Reply::Found(value, version) => match tracked_of(value) {
                None => Step::Over(Verdict::Dropped(Reason::DeniedState)),
                Some(tracked) => {
                    step_of_choice(
                        packet,
                        Some(version),
                        self.policy.choice_of(&packet, Some(tracked)),
                    )
                }
            },
            Reply::Done(_) => Step::Over(Verdict::Dropped(Reason::DeniedState)),
        }
    }

    /// How a packet goes on after a put or a replace.
    fn after_write(&self, packet: Packet, reply: Reply) -> Step<FwFlight>
        ensures { result ≡ after_write self.now.policy packet reply }
    {
        match reply {
            Reply::Done(_) => Step::Over(Verdict::Emit(Change::Keep)),
            Reply::Found(_, _) => self.decide(packet, reply),
            Reply::Absent => self.decide(packet, reply),
        }
    }
}

impl Function for FwFunction {
    ghost use Rattle.slnf_fw.specs.Machine.{fw_behaviour};
    ghost use Rattle.slnf_fw.specs.Refuses.{fw_refuses};

    type Flight = FwFlight;

    ghost behaviour = { λ function. fw_behaviour function.policy };

    fn start(&self, _incarnation: u64, _number: u64, packet: &Packet) -> Start<FwFlight> {
        if self.policy.crosses(packet) {
            Start::Go(FwFlight {
                state: FwState::Look,
                packet: *packet,
            })
        } else {
            Start::Over(Reason::Neither)
        }
    }

    fn next(&self, flight: &FwFlight) -> Request {
        let key = self.key_of_packet(&flight.packet);
        match flight.state {
            FwState::Look => Request::Read { key },
            FwState::Add(tracked) => Request::PutIfAbsent {
                key,
                value: fw_value(tracked),
            },
            FwState::Alter(version, tracked) => Request::ReplaceIf {
                key,
                version,
                value: fw_value(tracked),
            },
        }
    }

    fn after(&self, flight: FwFlight, reply: Reply) -> Step<FwFlight> {
        match flight.state {
            FwState::Look => self.decide(flight.packet, reply),
            FwState::Add(_) => self.after_write(flight.packet, reply),
            FwState::Alter(_, _) => self.after_write(flight.packet, reply),
        }
    }

    ghost refuses = { λ function incarnation number packet reason h. fw_refuses function.policy packet reason h };
}
