//! Worked runs, written out by hand, and what their ordinary boxes answer.

use crate::cases::{BALANCER, FIREWALL, NAT, NAT_OF_TWO};

/// A plan over lanes. Each letter of `lanes` is a packet, with a bar between two lanes.
pub struct BoxCase {
    pub plan: &'static str,
    pub epochs: &'static str,
    pub lanes: &'static str,
    pub text: &'static str,
}

pub static BOX_CASES: [BoxCase; 8] = [
    // The other backend isn't the client's.
    BoxCase {
        plan: BALANCER,
        epochs: "shards = 1\nepoch = [{ instances = [{ lane = 0 }] }]",
        lanes: "aacd",
        text: "2 0 0 emit dest 10.1.0.1:53\n3 0 1 emit dest 10.1.0.1:53\n4 0 2 emit source 198.51.100.10:53\n5 0 3 drop 11\n",
    },
    // A segment of no connection, behind a packet that is dropped at once and has no line.
    BoxCase {
        plan: FIREWALL,
        epochs: "shards = 1\nepoch = [{ instances = [{ lane = 0 }] }]",
        lanes: "?H",
        text: "1 0 1 drop 10\n",
    },
    BoxCase {
        plan: FIREWALL,
        epochs: "shards = 1\nepoch = [{ instances = [{ lane = 0 }, { lane = 1 }, { lane = 2 }], schedule = [0, 0, 1, 1, 0, 0, 2, 2, 1, 1, 2, 2] }]",
        lanes: "sA|RG|EA",
        text: "2 0 0 emit keep\n4 1 0 emit keep\n6 0 1 emit keep\n8 2 0 emit keep\n10 1 1 emit keep\n12 2 1 emit keep\n",
    },
    // The box has seen a packet that is lost behind its record, and none that is lost before it.
    BoxCase {
        plan: NAT,
        epochs: "shards = 1\nepoch = [{ instances = [{ lane = 0, stop = 3 }] }, { instances = [{ lane = 0 }] }]",
        lanes: "ss",
        text: "3 0 0 emit source 203.0.113.1:40001\n4 0 1 emit source 203.0.113.1:40001\n",
    },
    BoxCase {
        plan: NAT,
        epochs: "shards = 1\nepoch = [{ instances = [{ lane = 0, stop = 2 }] }]",
        lanes: "s",
        text: "",
    },
    // The loser of a race comes where it finds the winner's record, and not where it gives its claim back.
    BoxCase {
        plan: NAT,
        epochs: "shards = 1\nepoch = [{ instances = [{ lane = 0 }, { lane = 1 }], schedule = [0, 1, 0, 1, 0, 1, 1, 1] }]",
        lanes: "s|s",
        text: "5 0 0 emit source 203.0.113.1:40001\n7 1 0 emit source 203.0.113.1:40001\n",
    },
    // A packet on its way in that finds no flow comes where it looked first.
    BoxCase {
        plan: NAT,
        epochs: "shards = 1\nepoch = [{ instances = [{ lane = 0 }, { lane = 1 }], schedule = [0, 0, 1, 1, 0] }]",
        lanes: "s|r",
        text: "3 1 0 drop 7\n5 0 0 emit source 203.0.113.1:40001\n",
    },
    // A sweep has no lines.
    BoxCase {
        plan: NAT_OF_TWO,
        epochs: "shards = 1\nepoch = [{ instances = [{ lane = 0, stop = 2 }] }, { instances = [{ lane = 1 }], sweep = true, schedule = [0, 0, 1, 1, 1, 1, 0] }]",
        lanes: "s|t",
        text: "9 1 0 emit source 203.0.113.1:40000\n",
    },
];
