// The seven operators.
ghost use Rattle.std.specs.Prelude.{◌≡◌, [], ◌∷◌};
ghost use Rattle.code.specs.Numbers.{operator_number, read_operator};
ghost use Rattle.code.specs.Typing.{takes, gives};
ghost use Rattle.code.specs.Text.{sign};

use crate::types::Base;

// In the order of their numbers, which begin at 0.
#[derive(Clone, Copy, Debug, PartialEq, Eq)]
pub enum Operator {
    Add,
    Subtract,
    Multiply,
    Less,
    Equal,
    And,
    Or,
}

// A number that no operator, or no plain type, has.
#[derive(Clone, Copy, Debug, PartialEq, Eq)]
pub struct UnknownNumber {
    pub number: u8,
}

// Its number in scripts.
impl From<Operator> for u8 {
    ghost from_gives = { λ operator number. number ≡ operator_number operator };

    fn from(operator: Operator) -> u8 {
        operator as u8
    }
}

// The operator that has the number.
impl TryFrom<u8> for Operator {
    type Error = UnknownNumber;

    ghost try_from_gives = { λ number answer. answer ≡ read_operator number };

    fn try_from(number: u8) -> Result<Operator, UnknownNumber> {
        match number {
            0 => Ok(Operator::Add),
            1 => Ok(Operator::Subtract),
            2 => Ok(Operator::Multiply),
            3 => Ok(Operator::Less),
            4 => Ok(Operator::Equal),
            5 => Ok(Operator::And),
            6 => Ok(Operator::Or),
            _ => Err(UnknownNumber { number }),
        }
    }
}

impl Operator {
    // The type of both its operands.
    pub fn takes(self) -> Base
        ensures { result ≡ takes self }
    {
        match self {
            Operator::And | Operator::Or => Base::Truth,
            _ => Base::Number,
        }
    }

    // The type of its result.
    pub fn gives(self) -> Base
        ensures { result ≡ gives self }
    {
        match self {
            Operator::Add | Operator::Subtract | Operator::Multiply => Base::Number,
            _ => Base::Truth,
        }
    }

    // Its character in a text. No `Display`: texts go to lent bytes, by writers that cannot fail, as a formatter may.
    pub fn sign(self) -> u8
        ensures { result ∷ [] ≡ sign self }
    {
        match self {
            Operator::Add => b'+',
            Operator::Subtract => b'-',
            Operator::Multiply => b'*',
            Operator::Less => b'<',
            Operator::Equal => b'=',
            Operator::And => b'&',
            Operator::Or => b'|',
        }
    }
}
