// Document 01, "Who can cause a refusal", its term for an error.
ghost use Rattle.std.specs.Prelude.{◌≡◌};
ghost use Rattle.trace.specs.Outcomes.{number_of, outcome_number};
ghost use Rattle.trace.specs.Refusals.{refusal, ◌or_else◌};

// Why a call is refused, with document 01's number.
#[derive(Clone, Copy, Debug, PartialEq, Eq)]
pub enum Refusal {
    TooManyReadings = 1,
    LengthsDiffer = 2,
    MapTooShort = 3,
    WrongLists = 4,
    StartAboveEnd = 5,
    EndPastTrace = 6,
    BoundsFall = 7,
    WeightsWithMap = 8,
    WeightsSumToZero = 9,
    WeightCount = 10,
    RangePastTrace = 11,
    OutputTooShort = 12,
    WorkTooShort = 13,
    BytesNotWhole = 14,
}

impl Refusal {
    // Refuses where a condition holds: such lines, each with a `?`, check in order.
    #[tactic(auto, unfolding(crate::specs::Refusals::refusal))]
    pub fn when(self, holds: bool) -> Result<(), Refusal>
        ensures { outcome_number result ≡ refusal (number_of self) holds }
    {
        if holds { Err(self) } else { Ok(()) }
    }
}

impl From<Refusal> for u32 {
    ghost from_gives = { λ e number. number ≡ number_of e };

    fn from(refusal: Refusal) -> u32 {
        refusal as u32
    }
}

// The number that a call answers, 0 where it is accepted.
pub fn number(outcome: Result<(), Refusal>) -> u32
    ensures { result ≡ outcome_number outcome }
{
    match outcome {
        Ok(()) => 0,
        Err(refusal) => u32::from(refusal),
    }
}

// The same by numbers, of any number and not document 01's alone: a number where its condition holds, else 0.
#[tactic(auto, unfolding(crate::specs::Refusals::refusal))]
pub fn refuse(number: u32, holds: bool) -> u32
    ensures { result ≡ refusal number holds }
{
    if holds { number } else { 0 }
}

// The first of two numbers that is not 0, or 0.
pub fn first(a: u32, b: u32) -> u32
    ensures { result ≡ a or_else b }
{
    if a == 0 { b } else { a }
}
