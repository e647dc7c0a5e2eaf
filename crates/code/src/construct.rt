// A construct, with handles of a store for its parts.
ghost use Rattle.std.specs.Prelude.{◌≡◌};
ghost use Rattle.code.specs.Numbers.{kind};

use crate::operator::Operator;
use crate::types::Base;

// What a store calls a code by.
#[derive(Clone, Copy, Debug, PartialEq, Eq)]
pub struct Handle {
    pub number: u32,
}

#[derive(Clone, Copy, PartialEq, Eq, Debug)]
pub enum Construct {
    Number(i32),
    Truth(bool),
    Input(u8),
    Variable(u16),
    Join(Operator, Handle, Handle),
    Choose(Handle, Handle, Handle),
    Apply(Handle, Handle),
    Function(u16, Base, Handle),
    Let(u16, Handle, Handle),
}

// The number of its kind.
impl From<Construct> for u8 {
    ghost from_gives = { λ construct number. number ≡ kind construct };

    fn from(construct: Construct) -> u8 {
        match construct {
            Construct::Number(_) => 0,
            Construct::Truth(_) => 1,
            Construct::Input(_) => 2,
            Construct::Variable(_) => 3,
            Construct::Join(_, _, _) => 4,
            Construct::Choose(_, _, _) => 5,
            Construct::Apply(_, _) => 6,
            Construct::Function(_, _, _) => 7,
            Construct::Let(_, _, _) => 8,
        }
    }
}
