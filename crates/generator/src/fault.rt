// Why a generator refused a call.
ghost use Rattle.std.specs.Prelude.{◌≡◌};
ghost use Rattle.generator.specs.declared.fault.GeneratorFault.TheVariants.{BadArgument, Store};
ghost use Rattle.generator.specs.Faults.{refused_as};

use code::operator::UnknownNumber;
use code::refusal::Refusal;
use store::meaning::StoreFault;

#[derive(Clone, Copy, Debug)]
pub enum GeneratorFault {
    BadArgument,
    EmptyCell,
    // the first cell used that holds names that are not open, and how many
    Escaped { cell: u8, names: u8 },
    NoBinder,
    NoMark,
    StillOpen,
    NotClosed,
    WrongType,
    TooDeep,
    NamesSpent,
    TooLarge,
    ShortOutput,
    Store(StoreFault),
}

impl From<StoreFault> for GeneratorFault {
    ghost from_gives = { λ x y. y ≡ Store x };

    fn from(value: StoreFault) -> GeneratorFault {
        GeneratorFault::Store(value)
    }
}

impl From<UnknownNumber> for GeneratorFault {
    ghost from_gives = { λ x y. y ≡ BadArgument };

    fn from(_: UnknownNumber) -> Self {
        Self::BadArgument
    }
}

impl From<GeneratorFault> for Refusal {
    ghost from_gives = { λ fault refusal. refusal ≡ refused_as fault };

    fn from(fault: GeneratorFault) -> Refusal {
        match fault {
            GeneratorFault::BadArgument => Refusal::BadArgument,
            GeneratorFault::EmptyCell => Refusal::EmptyCell,
            GeneratorFault::Escaped { .. } => Refusal::Escaped,
            GeneratorFault::NoBinder => Refusal::NoBinder,
            GeneratorFault::NoMark => Refusal::NoMark,
            GeneratorFault::StillOpen => Refusal::StillOpen,
            GeneratorFault::NotClosed => Refusal::NotClosed,
            GeneratorFault::WrongType => Refusal::WrongType,
            GeneratorFault::TooDeep => Refusal::TooDeep,
            GeneratorFault::NamesSpent => Refusal::NamesSpent,
            GeneratorFault::TooLarge => Refusal::TooLarge,
            GeneratorFault::ShortOutput => Refusal::ShortOutput,
            GeneratorFault::Store(fault) => Refusal::from(fault),
        }
    }
}
