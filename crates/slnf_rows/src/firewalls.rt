ghost use Rattle.slnf_rows.specs.Rows.{Gives};
ghost use Rattle.slnf_rows.specs.Firewalls.{IsFirewall, whole_connection, lone_ack, two_replaces};

/// The definitions give what the worked runs of a firewall say.
pub fn firewall_examples()
    ensures whole_connection { Gives IsFirewall whole_connection }
    ensures lone_ack { Gives IsFirewall lone_ack }
    ensures two_replaces { Gives IsFirewall two_replaces }
{}
