//! The laws of the balancer: each stands as the contract of a function that does nothing.
ghost use Rattle.std.specs.Prelude.{ℕ, List};
ghost use Rattle.slnf_base.specs.declared.plans.Service.{Service};
ghost use Rattle.slnf_access.specs.declared.requests.Entry.{Entry};
ghost use Rattle.slnf_access.specs.Map.{IsLegal};
ghost use Rattle.slnf_access.specs.Machines.{Stand};
ghost use Rattle.slnf_run.specs.Boxes.{IsExplained};
ghost use Rattle.slnf_run.specs.Keeps.{HasPaths};
ghost use Rattle.slnf_box.specs.LbBox.{lb_box};
ghost use Rattle.slnf_lb.specs.Flight.{Flying};
ghost use Rattle.slnf_lb.specs.StoredPins.{IsSameMap};
ghost use Rattle.slnf_lb.specs.Scene.{lb_scene, BeginAsFlights};
ghost use Rattle.slnf_lb.specs.Pins.{PinsStay};

/// One ordinary balancer explains each legal list of entries that is made of a balancer's paths, whole or not, however its
/// items begin, and no client's backend changes in it.
pub fn paths_are_one_balancer()
    ensures one_box { (service : Service) (begins : ℕ → ℕ → Stand Flying) (es : List Entry)
        → BeginAsFlights service begins → IsLegal es → HasPaths (lb_scene service begins) es
        → IsExplained (lb_scene service begins) (lb_box service) IsSameMap es }
    ensures pins_stay { (service : Service) (begins : ℕ → ℕ → Stand Flying) (es : List Entry)
        → IsLegal es → HasPaths (lb_scene service begins) es → PinsStay es }
{}
