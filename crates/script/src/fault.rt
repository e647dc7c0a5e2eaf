// Why a script was refused, and where.
ghost use Rattle.std.specs.Prelude.{◌≡◌};
ghost use Rattle.script.specs.declared.fault.Cause.TheVariants.{Misread as Unread, Generator as Refused};
ghost use Rattle.script.specs.Faults.{refused_as, escaped, escape_count};

use crate::step::Misread;
use code::refusal::Refusal;
use generator::fault::GeneratorFault;

#[derive(Clone, Copy)]
pub enum Cause {
    // an argument of the run itself
    BadArgument,
    Misread(Misread),
    // the generator's fault, whole
    Generator(GeneratorFault),
}

// A cause, with the place of the step in the script.
#[derive(Clone, Copy)]
pub struct RunFault {
    pub place: usize,
    pub cause: Cause,
}

impl From<Misread> for Cause {
    ghost from_gives = { λ x y. y ≡ Unread x };

    fn from(value: Misread) -> Cause {
        Cause::Misread(value)
    }
}

impl From<GeneratorFault> for Cause {
    ghost from_gives = { λ x y. y ≡ Refused x };

    fn from(value: GeneratorFault) -> Cause {
        Cause::Generator(value)
    }
}

impl Cause {
    // The cause at the place of a step.
    pub(crate) fn at(self, place: usize) -> RunFault
        ensures { result ≡ record { place = place; cause = self } }
    {
        RunFault { place, cause: self }
    }

    // How many names an escape holds that are not open.
    pub fn escaped(self) -> Option<u8>
        ensures { result ≡ escaped self }
    {
        match self {
            Cause::Generator(GeneratorFault::Escaped { names, .. }) => Some(names),
            _ => None,
        }
    }

    // The same, 0 where it is none.
    pub fn escape_count(self) -> u8
        ensures { result ≡ escape_count self }
    {
        self.escaped().unwrap_or(0)
    }
}

impl From<Cause> for Refusal {
    ghost from_gives = { λ cause refusal. refusal ≡ refused_as cause };

    fn from(cause: Cause) -> Refusal {
        match cause {
            Cause::BadArgument => Refusal::BadArgument,
            Cause::Misread(misread) => Refusal::from(misread),
            Cause::Generator(fault) => Refusal::from(fault),
        }
    }
}
