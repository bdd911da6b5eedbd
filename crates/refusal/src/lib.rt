// The numbers for no, and whether a call is accepted.
#![tactic(auto)]

ghost use Rattle.std.specs.Prelude.{◌≡◌};
ghost use Rattle.refusal.specs.Refusals.{number};

// Document 01, Numbers for no, and document 02: one refusal for each number, in checking order.
#[derive(Clone, Copy, Debug, PartialEq, Eq)]
pub enum Refusal {
    TableLength,
    TableVersion,
    TableCounts,
    TableSize,
    ElementField,
    ElementDown,
    GaugeField,
    StateRange,
    StepLimit,
    RecordLength,
    RecordVersion,
    RainRange,
    ReleaseRange,
    StageRange,
    FloatRange,
    ReadingRange,
    AnswerSpace,
    AboveCeiling,
}

impl Refusal {
    // The document's number.
    pub fn code(self) -> u64
        ensures { result ≡ number self }
    {
        match self {
            Refusal::TableLength => 1,
            Refusal::TableVersion => 2,
            Refusal::TableCounts => 3,
            Refusal::TableSize => 4,
            Refusal::ElementField => 5,
            Refusal::ElementDown => 6,
            Refusal::GaugeField => 7,
            Refusal::StateRange => 8,
            Refusal::StepLimit => 9,
            Refusal::RecordLength => 10,
            Refusal::RecordVersion => 11,
            Refusal::RainRange => 12,
            Refusal::ReleaseRange => 17,
            Refusal::StageRange => 13,
            Refusal::FloatRange => 18,
            Refusal::ReadingRange => 14,
            Refusal::AnswerSpace => 15,
            Refusal::AboveCeiling => 16,
        }
    }
}
