//! The laws of the NAT: each stands as the contract of a function that does nothing.
ghost use Rattle.std.specs.Prelude.{◌≡◌, ◌+◌, ◌<◌, ◌≤◌, ◌^◌, ℕ, List, length, take, true};
ghost use Rattle.slnf_base.specs.declared.addresses.Pair.{Pair};
ghost use Rattle.slnf_base.specs.declared.packets.Proto.{Proto};
ghost use Rattle.slnf_base.specs.declared.packets.Packet.{Packet};
ghost use Rattle.slnf_base.specs.declared.plans.Pool.{Pool};
ghost use Rattle.slnf_access.specs.declared.requests.Entry.{Entry};
ghost use Rattle.slnf_access.specs.declared.requests.Reply.{Reply};
ghost use Rattle.slnf_access.specs.Map.{empty, map_after};
ghost use Rattle.slnf_access.specs.Machines.{Stand, Flies, IsPath, stand_of_step};
ghost use Rattle.slnf_run.specs.Boxes.{IsExplained};
ghost use Rattle.slnf_run.specs.FunctionLaws.{IsFunction};
ghost use Rattle.slnf_run.specs.Run.{IsRun};
ghost use Rattle.slnf_run.specs.Setting.{Setting, own_base};
ghost use Rattle.slnf_box.specs.Nat.{Nat};
ghost use Rattle.slnf_box.specs.NatBox.{NatArrival, nat_box};
ghost use Rattle.slnf_box.specs.Pools.{candidate, port_count, has_pair, nat_of, IsPool};
ghost use Rattle.slnf_nat.specs.Behaviour.{nat_behaviour, IsPacketFlight};
ghost use Rattle.slnf_nat.specs.Flights.{NatFlight, OutState, InState, SweepState, Out, In, Sweep};
ghost use Rattle.slnf_nat.specs.Given.{IsNat, IsNatList};
ghost use Rattle.slnf_nat.specs.Laws.{BoxDecides, FlowsApart, PairsStay, HaveSources, NoPortStarves, ReleasesDone, FlowsWell, ClaimsWell};
ghost use Rattle.slnf_nat.specs.Leaks.{IsBacked};
ghost use Rattle.slnf_nat.specs.LeaksNothing.{IsNatSetting, LeaksNothing};
ghost use Rattle.slnf_nat.specs.Machine.{nat_machine};
ghost use Rattle.slnf_nat.specs.StoredFlows.{IsSameFlows};
ghost use Rattle.slnf_nat.specs.NatScene.{nat_scene};
ghost use Rattle.slnf_nat.specs.Starts.{nat_starts, sweep_item};

/// The candidates of a flow at the places below the number of ports are the pool's pairs, each once.
pub fn candidates_are_pairs()
    ensures nat { (pool : Pool) → IsPool pool → IsNat (nat_of pool) }
    ensures each { (pool : Pool) (inside : Pair) (place : ℕ) → has_pair pool (candidate pool inside place) ≡ true }
    ensures all { (pool : Pool) (inside pair : Pair) → has_pair pool pair ≡ true
        → (place : ℕ) × (place < port_count pool) × (candidate pool inside place ≡ pair) }
    ensures once { (pool : Pool) (inside : Pair) (a b : ℕ) → a < port_count pool → b < port_count pool
        → candidate pool inside a ≡ candidate pool inside b → a ≡ b }
{}

/// A packet ends with an answer, and a sweep's port with none; and what the NAT's function does with packets is what
/// the NAT's machine does.
pub fn nat_is_function()
    ensures function { (pool : Pool) (bases : ℕ → ℕ)
        → IsFunction (nat_machine (nat_of pool)) (nat_starts pool) (λ incarnation item. sweep_item pool (bases incarnation) item) }
    ensures agrees { (pool : Pool) (flight : NatFlight) (reply : Reply) → IsPacketFlight flight
        → stand_of_step ((nat_behaviour pool).goes flight reply) ≡ (nat_machine (nat_of pool)).goes flight reply }
{}

/// A packet on its way out makes no more accesses than there are candidates and three more, one on its way in two, and a
/// sweep's port three.
pub fn nat_is_bounded()
    ensures out { (nat : Nat) (state : OutState) (incarnation : ℕ) (packet : Packet) (own : List Entry) → 0 < nat.ports
        → IsPath (nat_machine nat) (Flies (Out state incarnation packet)) own → length own ≤ nat.ports + 3 }
    ensures in_ { (nat : Nat) (state : InState) (packet : Packet) (own : List Entry) → 0 < nat.ports
        → IsPath (nat_machine nat) (Flies (In state packet)) own → length own ≤ 2 }
    ensures sweep { (nat : Nat) (state : SweepState) (proto : Proto) (port : Pair) (base : ℕ) (own : List Entry) → 0 < nat.ports
        → IsPath (nat_machine nat) (Flies (Sweep state proto port base)) own → length own ≤ 3 }
{}

/// One ordinary NAT explains each list of the NAT's and its sweeps' paths, whole or not.
pub fn nat_is_one_box()
    ensures explained { (nat : Nat) (base_at : ℕ → ℕ) (begins : ℕ → ℕ → Stand NatFlight) (es : List Entry)
        → IsNat nat → IsNatList nat base_at begins es → IsExplained (nat_scene nat begins) (nat_box nat) IsSameFlows es }
    ensures verdicts { (nat : Nat) (base_at : ℕ → ℕ) (begins : ℕ → ℕ → Stand NatFlight) (es : List Entry)
        → IsNat nat → IsNatList nat base_at begins es → BoxDecides nat begins es }
{}

/// Live flows have their outside pairs for themselves and keep them, and their claims stand. Each claim is of a packet on
/// its way out.
pub fn nat_keeps_flows()
    ensures apart { (nat : Nat) (base_at : ℕ → ℕ) (begins : ℕ → ℕ → Stand NatFlight) (es : List Entry)
        → IsNat nat → IsNatList nat base_at begins es → FlowsApart es }
    ensures stay { (nat : Nat) (base_at : ℕ → ℕ) (begins : ℕ → ℕ → Stand NatFlight) (es : List Entry)
        → IsNat nat → IsNatList nat base_at begins es → PairsStay es }
    ensures backed { (nat : Nat) (base_at : ℕ → ℕ) (begins : ℕ → ℕ → Stand NatFlight) (es : List Entry) (size : ℕ)
        → IsNat nat → IsNatList nat base_at begins es → size ≤ length es → IsBacked nat (map_after empty (take size es)) }
    ensures sources { (nat : Nat) (base_at : ℕ → ℕ) (begins : ℕ → ℕ → Stand NatFlight) (es : List Entry) (size : ℕ)
        → IsNat nat → IsNatList nat base_at begins es → size ≤ length es → HaveSources begins (map_after empty (take size es)) }
{}

/// What the NAT's verdicts and replies come from: a packet has no port only where it is starved, a release is done, and no
/// reply is ill.
pub fn nat_answers_so()
    ensures no_port { (nat : Nat) (base_at : ℕ → ℕ) (begins : ℕ → ℕ → Stand NatFlight) (es : List Entry)
        → IsNat nat → IsNatList nat base_at begins es → NoPortStarves nat begins es }
    ensures release_done { (nat : Nat) (base_at : ℕ → ℕ) (begins : ℕ → ℕ → Stand NatFlight) (es : List Entry)
        → IsNat nat → IsNatList nat base_at begins es → ReleasesDone nat begins es }
    ensures flows_well { (nat : Nat) (base_at : ℕ → ℕ) (begins : ℕ → ℕ → Stand NatFlight) (es : List Entry)
        → IsNat nat → IsNatList nat base_at begins es → FlowsWell es }
    ensures claims_well { (nat : Nat) (base_at : ℕ → ℕ) (begins : ℕ → ℕ → Stand NatFlight) (es : List Entry)
        → IsNat nat → IsNatList nat base_at begins es → ClaimsWell es }
{}

/// A run of a setting whose items are the NAT's is a list of its paths, and nothing leaks in it.
pub fn nat_runs_so<G>()
    ensures paths { (s : Setting G NatArrival) (into : NatFlight → G) (nat : Nat) (begins : ℕ → ℕ → Stand NatFlight)
        → (es : List Entry) → IsNatSetting s into nat begins es → IsRun s es → IsNatList nat (own_base s.eras) begins es }
    ensures leaks_nothing { (s : Setting G NatArrival) (into : NatFlight → G) (nat : Nat) (begins : ℕ → ℕ → Stand NatFlight)
        → (es : List Entry) → IsNat nat → IsNatSetting s into nat begins es → IsRun s es → LeaksNothing nat (λ cells. cells) s es }
{}
