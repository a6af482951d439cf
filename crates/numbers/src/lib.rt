// The numbers that turn a call away, by their names.
#![tactic(auto)]

ghost use Rattle.std.specs.Prelude.{◌≡◌};
ghost use Rattle.numbers.specs.Numbers.{answer_of, number_of};

// Why a call is refused, in the order of the numbers.
#[derive(Clone, Copy, Debug, PartialEq, Eq)]
pub enum Refusal {
    WrongRamLength = 1,
    WrongParityLength = 2,
    WrongDataLength = 3,
    WrongWidth = 4,
    BeyondRam = 5,
    WrongAnswers = 6,
    ShortLog = 7,
    LargeValue = 8,
    WrongControl = 9,
    WrongExternalWrite = 10,
    TwoOfOneTag = 21,
    LargeTag = 22,
    LargeLru = 23,
    TestWithCdClear = 31,
    WrongTestLine = 32,
    WrongCarriedWrites = 33,
    WrongRange = 37,
    TooManyRanges = 38,
}

impl Refusal {
    pub fn number(self) -> u32
        ensures { result ≡ number_of self }
    {
        self as u32
    }
}

// What a call answers: 0 where it was done, or the number that turned it away.
pub fn answer_of(done: Result<(), Refusal>) -> u32
    ensures { result ≡ answer_of done }
{
    match done {
        Ok(()) => 0,
        Err(refusal) => refusal.number(),
    }
}
