// The refusals of RULES 3, each under its number there. What is no refusal is `Ok`.
ghost use Rattle.std.specs.Prelude.{◌≡◌};
ghost use Rattle.checks.specs.Refusals.{number};

// 1 to 11: a file. 20 to 27: a configuration, a step, a question, a run. 30 and 31: the day program. 40 to 46: the
// rewriting, clearing and writing. 50 to 52: a typed text. 60 to 63: the posting.
#[derive(Clone, Copy, Debug, PartialEq, Eq)]
pub enum Refusal {
    TooShort = 1,
    OtherEdition = 2,
    BadCounts = 3,
    BadDistance = 4,
    NotZero = 5,
    BadChart = 6,
    BadTransition = 7,
    BadSlave = 8,
    BadNode = 9,
    BadNaming = 10,
    BadInside = 11,
    WrongLength = 20,
    BadState = 21,
    ShortBuffer = 22,
    NoStep = 23,
    ManyOpen = 24,
    NoSuchChart = 25,
    NoSuchPlace = 26,
    ShortRun = 27,
    OddFront = 30,
    TooLong = 31,
    NoFreeSignal = 40,
    ManyFromState = 41,
    ManyInChart = 42,
    ManyNodes = 44,
    ShortOut = 45,
    MayStay = 46,
    NotNotation = 50,
    TooDeep = 51,
    BadName = 52,
    BadBook = 60,
    NoSuchCase = 61,
    RowsEnd = 62,
    ShortRows = 63,
}

impl Refusal {
    // The number by which the rules and callers in C know it.
    pub fn number(self) -> u8
        ensures { result ≡ number self }
    {
        self as u8
    }
}
