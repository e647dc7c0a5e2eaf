// The kinds of steps: the byte of each, and the form of its body.
ghost use Rattle.std.specs.Prelude.{◌≡◌, slice_index};
ghost use Rattle.script.specs.Steps.{little, form, known_kind, step_of_body};

use crate::step::{Misread, Step};
use model::call::Call;

#[derive(Clone, Copy)]
pub enum Kind {
    Num,
    Truth,
    Input,
    Join,
    Choose,
    Apply,
    Fun,
    Let,
    Close,
    Copy,
    Clear,
    Print,
    Begin,
    End,
    Leave,
}

// The kind that has the byte.
impl TryFrom<u8> for Kind {
    type Error = Misread;

    ghost try_from_gives = { λ byte r. r ≡ known_kind byte };

    fn try_from(byte: u8) -> Result<Kind, Misread> {
        match byte {
            0x01 => Ok(Kind::Num),
            0x02 => Ok(Kind::Truth),
            0x03 => Ok(Kind::Input),
            0x04 => Ok(Kind::Join),
            0x05 => Ok(Kind::Choose),
            0x06 => Ok(Kind::Apply),
            0x07 => Ok(Kind::Fun),
            0x08 => Ok(Kind::Let),
            0x09 => Ok(Kind::Close),
            0x0a => Ok(Kind::Copy),
            0x0b => Ok(Kind::Clear),
            0x0c => Ok(Kind::Print),
            0x10 => Ok(Kind::Begin),
            0x11 => Ok(Kind::End),
            0x12 => Ok(Kind::Leave),
            _ => Err(Misread::UnknownKind),
        }
    }
}

impl Kind {
    // How many bytes follow the kind's.
    pub fn body_length(self) -> usize
        ensures { result ≡ (form self).body }
    {
        match self {
            Kind::End | Kind::Leave => 0,
            Kind::Clear | Kind::Print | Kind::Begin => 1,
            Kind::Apply => 3,
            Kind::Join | Kind::Choose => 4,
            Kind::Num => 5,
            _ => 2,
        }
    }

    // The step that a body begins with. No `TryFrom`: it reads the kind and a front of the bytes left.
    pub fn decode(self, body: &[u8]) -> Result<Step, Misread>
        ensures { result ≡ step_of_body (form self) body.now }
    {
        let call = match (self, body) {
            (Kind::Num, &[cell, a, b, c, d, ..]) => Call::Num {
                cell,
                value: number([a, b, c, d]),
            },
            (Kind::Truth, &[cell, truth, ..]) => Call::Truth { cell, truth },
            (Kind::Input, &[cell, input, ..]) => Call::Input { cell, input },
            (Kind::Join, &[cell, operator, left, right, ..]) => Call::Join {
                cell,
                operator,
                left,
                right,
            },
            (Kind::Choose, &[cell, condition, then, otherwise, ..]) => Call::Choose {
                cell,
                condition,
                then,
                otherwise,
            },
            (Kind::Apply, &[cell, function, argument, ..]) => Call::Apply {
                cell,
                function,
                argument,
            },
            (Kind::Fun, &[cell, parameter, ..]) => Call::Fun { cell, parameter },
            (Kind::Let, &[cell, bound, ..]) => Call::Let { cell, bound },
            (Kind::Close, &[cell, body, ..]) => Call::Close { cell, body },
            (Kind::Copy, &[cell, from, ..]) => Call::Copy { cell, from },
            (Kind::Clear, &[cell, ..]) => Call::Clear { cell },
            (Kind::Print, &[cell, ..]) => Call::Print { cell },
            (Kind::Begin, &[turns, ..]) => return Ok(Step::Begin { turns }),
            (Kind::End, _) => return Ok(Step::End),
            (Kind::Leave, _) => return Ok(Step::Leave),
            _ => return Err(Misread::CutShort),
        };
        Ok(Step::Call(call))
    }
}

// The number that four bytes spell, the low byte first.
fn number(bytes: [u8; 4]) -> i32
    ensures { result ≡ little (slice_index bytes 0) (slice_index bytes 1) (slice_index bytes 2) (slice_index bytes 3) }
{
    i32::from_le_bytes(bytes)
}
