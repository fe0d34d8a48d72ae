ghost use Rattle.std.specs.Prelude.{◌≡◌, IfOk, OnOk, OnErr, IsTrue, None, List};
ghost use Rattle.slnf_box.specs.LbBox.{with_pin};
ghost use Rattle.slnf_box.specs.NatBox.{Flow, nat_box, out_verdict, out_is_new, in_verdict, is_new_flow};
ghost use Rattle.slnf_box.specs.Pools.{nat_of};
ghost use Rattle.slnf_box.specs.Pairs.{pair_at};
ghost use Rattle.slnf_box.specs.Tables.{fresh_choice, pairs_with, owners_with, table_verdict, table_pairs, table_owners, table_is_new};

use crate::pairs::PairTable;
use crate::pools::{has_pair, is_inbound, is_outbound};
use slnf_base::{Change, NoMemory, Packet, Pair, Pool, Proto, Reason, Verdict};
use std::alloc::Global;

/// The ordinary NAT: it keeps each flow's outside pair, and the flow of each outside pair.
#[derive(Drop)]
pub struct NatBox {
    pool: Pool,
    pairs: PairTable,
    owners: PairTable,
}

ghost use Rattle.slnf_box.specs.Translator.{pairs_of, owners_of, HasFlows};

/// The choice, where it is a pair of the pool that no flow of the protocol has.
fn fresh_choice(
    pool: &Pool,
    owners: &PairTable,
    packet: &Packet,
    choice: Option<Pair>,
) -> Option<Pair>
    ensures { result ≡ fresh_choice pool.now (pair_at owners.now) packet.now choice }
{
    match choice {
        None => None,
        Some(port) => {
            if has_pair(pool, port) && owners.at(packet.proto, port).is_none() {
                Some(port)
            } else {
                None
            }
        }
    }
}

/// Keeps a new flow both ways, or neither way where memory is wanting.
fn keep(
    pairs: &mut PairTable,
    owners: &mut PairTable,
    proto: Proto,
    inside: Pair,
    outside: Pair,
) -> Result<(), NoMemory>
    requires { pair_at pairs.old proto inside ≡ None }
    ensures pairs { OnOk result (pair_at pairs.new ≡ with_pin (pair_at pairs.old) proto inside outside) }
    ensures owners { OnOk result (pair_at owners.new ≡ with_pin (pair_at owners.old) proto outside inside) }
    ensures pairs_err { OnErr result (pairs.new ≡ pairs.old) }
    ensures owners_err { OnErr result (owners.new ≡ owners.old) }
{
    pairs.put(proto, inside, outside)?;
    match owners.put(proto, outside, inside) {
        Ok(()) => Ok(()),
        Err(error) => {
            pairs.take(proto, inside);
            Err(error)
        }
    }
}

/// What the box does with a packet on its way out.
fn send_out(
    pool: &Pool,
    pairs: &mut PairTable,
    owners: &mut PairTable,
    packet: &Packet,
    choice: Option<Pair>,
) -> Result<Verdict, NoMemory>
    ensures verdict { IfOk result (λ verdict. verdict
        ≡ out_verdict (pair_at pairs.old packet.now.proto packet.now.source)
        (fresh_choice pool.now (pair_at owners.old) packet.now choice)) }
    ensures pairs { OnOk result (pair_at pairs.new ≡ pairs_with (pair_at pairs.old) packet.now
        (pair_at pairs.old packet.now.proto packet.now.source)
        (fresh_choice pool.now (pair_at owners.old) packet.now choice)) }
    ensures owners { OnOk result (pair_at owners.new ≡ owners_with (pair_at owners.old) packet.now
        (pair_at pairs.old packet.now.proto packet.now.source)
        (fresh_choice pool.now (pair_at owners.old) packet.now choice)) }
    ensures new_flow { OnErr result (IsTrue (out_is_new (pair_at pairs.old packet.now.proto packet.now.source)
        (fresh_choice pool.now (pair_at owners.old) packet.now choice))) }
    ensures pairs_err { OnErr result (pairs.new ≡ pairs.old) }
    ensures owners_err { OnErr result (owners.new ≡ owners.old) }
{
    match pairs.at(packet.proto, packet.source) {
        Some(known) => Ok(Verdict::Emit(Change::Source(known))),
        None => match fresh_choice(pool, owners, packet, choice) {
            None => Ok(Verdict::Dropped(Reason::NoPort)),
            Some(fresh) => {
                keep(pairs, owners, packet.proto, packet.source, fresh)?;
                Ok(Verdict::Emit(Change::Source(fresh)))
            }
        },
    }
}

/// The verdict of a packet on its way in, whose flow has this inside pair.
fn in_verdict(owner: Option<Pair>) -> Verdict
    ensures { result ≡ in_verdict owner }
{
    match owner {
        Some(inside) => Verdict::Emit(Change::Dest(inside)),
        None => Verdict::Dropped(Reason::NoFlow),
    }
}

impl NatBox {
    /// The box of a pool, with no flow.
    pub fn make(alloc: Global, pool: Pool) -> NatBox
        ensures pool { result.pool ≡ pool }
        ensures empty { HasFlows result (nat_box (nat_of pool)).empty }
    {
        NatBox {
            pool,
            pairs: PairTable::make(alloc),
            owners: PairTable::make(alloc),
        }
    }

    /// The inside pair of the flow that has this outside pair.
    pub fn owner(&self, proto: Proto, outside: Pair) -> Option<Pair>
        ensures { result ≡ owners_of self.now proto outside }
    {
        self.owners.at(proto, outside)
    }

    /// The outside pair of the flow with this inside pair.
    pub fn pair_of(&self, proto: Proto, inside: Pair) -> Option<Pair>
        ensures { result ≡ pairs_of self.now proto inside }
    {
        self.pairs.at(proto, inside)
    }

    /// One step over the two tables.
    fn step(&mut self, packet: &Packet, choice: Option<Pair>) -> Result<Verdict, NoMemory>
        ensures verdict { IfOk result (λ verdict. verdict
            ≡ table_verdict self.old.pool (pairs_of self.old) (owners_of self.old) packet.now choice) }
        ensures pairs { OnOk result (pairs_of self.new
            ≡ table_pairs self.old.pool (pairs_of self.old) (owners_of self.old) packet.now choice) }
        ensures owners { OnOk result (owners_of self.new
            ≡ table_owners self.old.pool (pairs_of self.old) (owners_of self.old) packet.now choice) }
        ensures new_flow { OnErr result (IsTrue
            (table_is_new self.old.pool (pairs_of self.old) (owners_of self.old) packet.now choice)) }
        ensures pool { self.new.pool ≡ self.old.pool }
        ensures err { OnErr result (self.new ≡ self.old) }
    {
        if is_outbound(&self.pool, packet) {
            return send_out(
                &self.pool,
                &mut self.pairs,
                &mut self.owners,
                packet,
                choice,
            );
        }
        if is_inbound(&self.pool, packet) {
            return Ok(in_verdict(self.owner(packet.proto, packet.dest)));
        }
        Ok(Verdict::Dropped(Reason::Neither))
    }

    /// What the box does with a packet, where this pair is proposed for a new flow. Only a new flow can want memory.
    pub fn handle(&mut self, packet: &Packet, choice: Option<Pair>) -> Result<Verdict, NoMemory>
        ensures verdict { (flows : List Flow) → HasFlows self.old flows → IfOk result (λ verdict. verdict
            ≡ (nat_box (nat_of self.old.pool)).verdict flows (record { packet = packet.now; choice = choice })) }
        ensures next { (flows : List Flow) → HasFlows self.old flows → OnOk result (HasFlows self.new
            ((nat_box (nat_of self.old.pool)).next flows (record { packet = packet.now; choice = choice }))) }
        ensures new_flow { (flows : List Flow) → HasFlows self.old flows → OnErr result (IsTrue
            (is_new_flow (nat_of self.old.pool) flows (record { packet = packet.now; choice = choice }))) }
        ensures pool { self.new.pool ≡ self.old.pool }
        ensures err { OnErr result (self.new ≡ self.old) }
    {
        self.step(packet, choice)
    }
}
