// The types of code, and the type of each construct from those of its parts.
ghost use Rattle.std.specs.Prelude.{◌≡◌, [], ◌∷◌};
ghost use Rattle.code.specs.Numbers.{base_number, read_base, type_number};
ghost use Rattle.code.specs.Typing.{joined, chosen, applied, abstracted};
ghost use Rattle.code.specs.Text.{letter};

use crate::operator::{Operator, UnknownNumber};

// In the order of their numbers, which begin at 0.
#[derive(Clone, Copy, PartialEq, Eq, Debug)]
pub enum Base {
    Number,
    Truth,
}

// A plain type, or a function from one to another.
#[derive(Clone, Copy, Debug, PartialEq, Eq)]
pub enum Ty {
    Plain(Base),
    Function(Base, Base),
}

// Its number in scripts.
impl From<Base> for u8 {
    ghost from_gives = { λ base number. number ≡ base_number base };

    fn from(base: Base) -> u8 {
        base as u8
    }
}

// The plain type that has the number.
impl TryFrom<u8> for Base {
    type Error = UnknownNumber;

    ghost try_from_gives = { λ number answer. answer ≡ read_base number };

    fn try_from(number: u8) -> Result<Base, UnknownNumber> {
        match number {
            0 => Ok(Base::Number),
            1 => Ok(Base::Truth),
            _ => Err(UnknownNumber { number }),
        }
    }
}

impl Base {
    // Its letter in a text. No `Display`, as for an operator's sign.
    pub fn letter(self) -> u8
        ensures { result ∷ [] ≡ letter self }
    {
        match self {
            Base::Number => b'n',
            Base::Truth => b't',
        }
    }
}

// A plain type has its own number, a function from p to r has 2 + 2p + r.
impl From<Ty> for u8 {
    ghost from_gives = { λ ty number. number ≡ type_number ty };

    fn from(ty: Ty) -> u8 {
        match ty {
            Ty::Plain(base) => u8::from(base),
            Ty::Function(from, to) => 2 + 2 * u8::from(from) + u8::from(to),
        }
    }
}

impl Ty {
    // The type of a join, or none where it has none.
    pub fn joined(operator: Operator, left: Ty, right: Ty) -> Option<Ty>
        ensures { result ≡ joined operator left right }
    {
        let wanted = Ty::Plain(operator.takes());
        (left == wanted && right == wanted).then_some(Ty::Plain(operator.gives()))
    }

    // The type of a choose, or none.
    pub fn chosen(condition: Ty, yes: Ty, no: Ty) -> Option<Ty>
        ensures { result ≡ chosen condition yes no }
    {
        (condition == Ty::Plain(Base::Truth) && yes == no).then_some(yes)
    }

    // The type of an apply, or none.
    pub fn applied(function: Ty, argument: Ty) -> Option<Ty>
        ensures { result ≡ applied function argument }
    {
        match function {
            Ty::Function(from, to) if argument == Ty::Plain(from) => Some(Ty::Plain(to)),
            _ => None,
        }
    }

    // The type of a function with this parameter and body, or none.
    pub fn abstracted(parameter: Base, body: Ty) -> Option<Ty>
        ensures { result ≡ abstracted parameter body }
    {
        match body {
            Ty::Plain(result) => Some(Ty::Function(parameter, result)),
            Ty::Function(_, _) => None,
        }
    }
}
