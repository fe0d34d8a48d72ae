ghost use Rattle.std.specs.Prelude.{◌≡◌, IfOk, OnOk, OnErr, IsTrue};
ghost use Rattle.slnf_box.specs.FwBox.{fw_choice, fw_box, choice_verdict, choice_conns, keeps_new, is_new_conn};
ghost use Rattle.slnf_box.specs.Conns.{conn_at};

use crate::choices::Choice;
use crate::conns::ConnTable;
use crate::policies::Policy;
use slnf_base::{Change, NoMemory, Packet, Prefix, Reason, Row, Verdict};
use slnf_fw_table::Rule;
use slnf_keys::ConnKey;
use std::alloc::Global;

/// The ordinary firewall: it keeps what each connection has come to.
#[derive(Drop)]
pub struct FwBox {
    policy: Policy,
    conns: ConnTable,
}

ghost use Rattle.slnf_box.specs.Firewall.{conns_of};

/// What the box makes of a packet.
fn fw_choice(policy: &Policy, conns: &ConnTable, packet: &Packet) -> Choice
    ensures { result ≡ fw_choice policy.now (conn_at conns.now) packet.now }
{
    if policy.crosses(packet) {
        policy.choice_of(packet, conns.at(policy.conn_of_packet(packet)))
    } else {
        Choice::Refuses(Reason::Neither)
    }
}

/// Does what was chosen for a packet of this connection.
fn carry_out(conns: &mut ConnTable, key: ConnKey, choice: Choice) -> Result<Verdict, NoMemory>
    ensures verdict { IfOk result (λ verdict. verdict ≡ choice_verdict choice) }
    ensures next { OnOk result (conn_at conns.new ≡ choice_conns (conn_at conns.old) key choice) }
    ensures new_conn { OnErr result (IsTrue (keeps_new (conn_at conns.old) key choice)) }
    ensures err { OnErr result (conns.new ≡ conns.old) }
{
    match choice {
        Choice::Refuses(reason) => Ok(Verdict::Dropped(reason)),
        Choice::Passes => Ok(Verdict::Emit(Change::Keep)),
        Choice::Writes(tracked) => {
            conns.put(key, tracked)?;
            Ok(Verdict::Emit(Change::Keep))
        }
    }
}

impl FwBox {
    /// The box of these rules, between the addresses of `inside` and all others, with no connection.
    pub fn make(alloc: Global, inside: Prefix, rules: Row<Rule>) -> FwBox
        ensures policy { result.policy ≡ record { inside = inside; rules = rules } }
        ensures empty { conns_of result ≡ (fw_box (record { inside = inside; rules = rules })).empty }
    {
        FwBox {
            policy: Policy { inside, rules },
            conns: ConnTable::make(alloc),
        }
    }

    /// What the box does with a packet. Only a new connection can want memory.
    pub fn handle(&mut self, packet: &Packet) -> Result<Verdict, NoMemory>
        ensures verdict { IfOk result (λ verdict. verdict
            ≡ (fw_box self.old.policy).verdict (conns_of self.old) packet.now) }
        ensures next { OnOk result (conns_of self.new
            ≡ (fw_box self.old.policy).next (conns_of self.old) packet.now) }
        ensures policy { self.new.policy ≡ self.old.policy }
        ensures new_conn { OnErr result (IsTrue (is_new_conn self.old.policy (conns_of self.old) packet.now)) }
        ensures err { OnErr result (self.new ≡ self.old) }
    {
        let choice = fw_choice(&self.policy, &self.conns, packet);
        let key = self.policy.conn_of_packet(packet);
        carry_out(&mut self.conns, key, choice)
    }
}
