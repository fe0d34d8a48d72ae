//! The forms of the words of commands.
ghost use Rattle.std.specs.Prelude.{◌≤◌, length};

/// The words PLAN OUT IN.. of a command.
#[derive(Debug, Drop)]
pub struct PlanWords<'a> {
    pub plan: &'a str,
    pub out: &'a str,
    pub captures: &'a [String],
    pub ghost few: { length captures.now ≤ 32 },
}

/// The words NUMBER LANES PACKETS of a command.
#[derive(Debug, Drop)]
pub struct LoadWords {
    pub number: u64,
    pub lanes: u32,
    pub packets: u32,
    pub ghost some_lanes: { 1 ≤ lanes },
    pub ghost few_lanes: { lanes ≤ 32 },
    pub ghost some_packets: { 1 ≤ packets },
    pub ghost few_packets: { packets ≤ 32768 },
}

/// The words of a command but `run`.
#[derive(Debug, Drop)]
pub enum CommandWords<'a> {
    Step(PlanWords<'a>),
    Check(PlanWords<'a>),
    Box(PlanWords<'a>),
    Load(LoadWords),
}
