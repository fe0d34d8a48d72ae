//! The laws of the firewall: each stands as the contract of a function that does nothing.
ghost use Rattle.std.specs.Prelude.{◌≡◌, ℕ, List};
ghost use Rattle.slnf_base.specs.declared.packets.Packet.{Packet};
ghost use Rattle.slnf_base.specs.Ranges.{IsPair};
ghost use Rattle.slnf_access.specs.declared.requests.Entry.{Entry};
ghost use Rattle.slnf_access.specs.declared.functions.Start.TheVariants.{Go as StartGo};
ghost use Rattle.slnf_access.specs.Map.{IsLegal};
ghost use Rattle.slnf_access.specs.Machines.{Stand};
ghost use Rattle.slnf_access.specs.Order.{RisesOnKeys};
ghost use Rattle.slnf_run.specs.Boxes.{IsExplained};
ghost use Rattle.slnf_run.specs.Keeps.{HasPaths};
ghost use Rattle.slnf_box.specs.FwBox.{fw_box};
ghost use Rattle.slnf_box.specs.declared.policies.Policy.{Policy};
ghost use Rattle.slnf_fw.specs.Flight.{Flying};
ghost use Rattle.slnf_fw.specs.Machine.{fw_begins};
ghost use Rattle.slnf_fw.specs.Scene.{fw_scene, IsFirst, BeginsFlights};
ghost use Rattle.slnf_fw.specs.Conns.{IsSameConns};
ghost use Rattle.slnf_fw.specs.Bound.{IsBounded, FailuresShow};

/// One ordinary firewall explains each legal list of the firewall's paths, whole or not, in which stamps rise on each
/// key. What the function begins with an access is such a path's first flight.
pub fn firewall_is_one_box()
    ensures one_box { (policy : Policy) (begins : ℕ → ℕ → Stand Flying) (es : List Entry)
        → BeginsFlights policy begins → RisesOnKeys es → IsLegal es → HasPaths (fw_scene policy begins) es
        → IsExplained (fw_scene policy begins) (fw_box policy) IsSameConns es }
    ensures begins { (policy : Policy) (packet : Packet) (flight : Flying)
        → IsPair packet.source → IsPair packet.dest → fw_begins policy packet ≡ StartGo flight
        → IsFirst policy flight }
{}

/// In such a list a packet makes at most 2 accesses more than there are other packets with an access on its connection.
pub fn firewall_bound()
    ensures { (policy : Policy) (begins : ℕ → ℕ → Stand Flying) (es : List Entry)
        → BeginsFlights policy begins → IsLegal es → HasPaths (fw_scene policy begins) es
        → IsBounded policy begins es }
{}

/// And where a put or a replace failed, another packet wrote on its connection since the packet's access before.
pub fn failed_write_shows_another()
    ensures { (policy : Policy) (begins : ℕ → ℕ → Stand Flying) (es : List Entry)
        → BeginsFlights policy begins → IsLegal es → HasPaths (fw_scene policy begins) es
        → FailuresShow es }
{}
