//! The law of a plan's function: it stands as the contract of a function that does nothing.
ghost use Rattle.std.specs.Prelude.{◌≡◌, ℕ, Option};
ghost use Rattle.slnf_base.specs.declared.packets.Packet.{Packet};
ghost use Rattle.slnf_access.specs.declared.requests.Reply.{Reply};
ghost use Rattle.slnf_access.specs.declared.functions.Start.TheVariants.{Go as StartGo};
ghost use Rattle.slnf_access.specs.declared.functions.Step.TheVariants.{Go as StepGo};
ghost use Rattle.slnf_access.specs.Machines.{stand_of_step};
ghost use Rattle.slnf_plan.specs.declared.plan.Epoch.{Epoch};
ghost use Rattle.slnf_plan.specs.declared.plan.FunctionPlan.{FunctionPlan};
ghost use Rattle.slnf_flight.specs.declared.flights.AnyFlight.{AnyFlight};
ghost use Rattle.slnf_flight.specs.declared.functions.AnyFunction.{AnyFunction};
ghost use Rattle.slnf_flight.specs.declared.lanes.Taken.{Taken};
ghost use Rattle.slnf_flight.specs.AnyFunction.{any_machine, any_starts};
ghost use Rattle.slnf_flight.specs.Begins.{begins_with};
ghost use Rattle.slnf_flight.specs.Flights.{IsPacketFlight};
ghost use Rattle.slnf_flight.specs.Functions.{any_behaviour, IsFunctionOf};

/// The function of a plan's epoch begins, asks, goes on and decides as the plan's machine does, where the flight is a
/// packet's. Its packets begin as packets' flights and stay such, so that whole paths of packets are the machine's.
pub fn function_is_plans()
    ensures starts { (plan_function : FunctionPlan) (epoch : Option Epoch) (function : AnyFunction)
        → IsFunctionOf plan_function epoch function → (incarnation number : ℕ) (packet : Packet)
        → (any_behaviour function).begins incarnation number packet
        ≡ any_starts plan_function epoch incarnation number packet }
    ensures begins { (plan_function : FunctionPlan) (epoch : Option Epoch) (function : AnyFunction)
        → IsFunctionOf plan_function epoch function → (incarnation number : ℕ) (taken : Option Taken)
        → begins_with ((any_behaviour function).begins incarnation number) taken
        ≡ begins_with (any_starts plan_function epoch incarnation number) taken }
    ensures asks { (plan_function : FunctionPlan) (epoch : Option Epoch) (function : AnyFunction)
        → IsFunctionOf plan_function epoch function → (flight : AnyFlight)
        → (any_behaviour function).asks flight ≡ (any_machine plan_function).asks flight }
    ensures goes { (plan_function : FunctionPlan) (epoch : Option Epoch) (function : AnyFunction)
        → IsFunctionOf plan_function epoch function → (flight : AnyFlight) (reply : Reply) → IsPacketFlight flight
        → stand_of_step ((any_behaviour function).goes flight reply) ≡ (any_machine plan_function).goes flight reply }
    ensures decided { (plan_function : FunctionPlan) (epoch : Option Epoch) (function : AnyFunction)
        → IsFunctionOf plan_function epoch function → (flight : AnyFlight)
        → (any_behaviour function).decided flight ≡ (any_machine plan_function).decided flight }
    ensures first { (function : AnyFunction) (incarnation number : ℕ) (packet : Packet) (flight : AnyFlight)
        → (any_behaviour function).begins incarnation number packet ≡ StartGo flight → IsPacketFlight flight }
    ensures next { (function : AnyFunction) (flight next : AnyFlight) (reply : Reply)
        → (any_behaviour function).goes flight reply ≡ StepGo next → IsPacketFlight next }
{}
