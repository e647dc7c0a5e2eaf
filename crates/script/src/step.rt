// The steps of a script.
ghost use Rattle.std.specs.Prelude.{◌≡◌};
ghost use Rattle.script.specs.Steps.{refusal_of};

use code::refusal::Refusal;
use model::call::Call;

// A call, or the handling of a block.
#[derive(Clone, Copy)]
pub enum Step {
    Call(Call),
    Begin { turns: u8 },
    End,
    Leave,
}

// Why no step can be read.
#[derive(Clone, Copy, PartialEq, Eq, Debug)]
pub enum Misread {
    UnknownKind,
    CutShort,
}

impl From<Misread> for Refusal {
    ghost from_gives = { λ misread refusal. refusal ≡ refusal_of misread };

    fn from(misread: Misread) -> Refusal {
        match misread {
            Misread::UnknownKind => Refusal::UnknownKind,
            Misread::CutShort => Refusal::CutShort,
        }
    }
}
