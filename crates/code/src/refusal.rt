// Why a call or a script is refused.
ghost use Rattle.std.specs.Prelude.{◌≡◌};
ghost use Rattle.code.specs.Numbers.{refusal_number};

// In checking order, each with its number in reports.
#[derive(Clone, Copy, PartialEq, Eq, Debug)]
pub enum Refusal {
    BadArgument = 1,
    UnknownKind = 2,
    CutShort = 3,
    NoBlock = 4,
    StepsSpent = 5,
    EmptyCell = 6,
    Escaped = 7,
    NoBinder = 8,
    NoMark = 9,
    StillOpen = 10,
    NotClosed = 11,
    WrongType = 12,
    TooDeep = 13,
    NamesSpent = 14,
    TooLarge = 15,
    NoRoom = 16,
    ShortOutput = 17,
}

// Its number in reports.
impl From<Refusal> for u8 {
    ghost from_gives = { λ refusal number. number ≡ refusal_number refusal };

    fn from(refusal: Refusal) -> u8 {
        refusal as u8
    }
}
