// What a store of code means, and what it promises of its calls.
ghost use Rattle.std.specs.Prelude.{◌≡◌, ℕ, ◌≤◌, Some, Option};
ghost use Rattle.code.specs.declared.construct.Handle.{Handle};
ghost use Rattle.code.specs.Code.{Code, size};
ghost use Rattle.store.specs.Meaning.{Made, Looked, refused_as};

use code::construct::{Construct, Handle};
use code::refusal::Refusal;

// Why a store made nothing.
#[derive(Clone, Copy, PartialEq, Eq, Debug)]
pub enum StoreFault {
    // an unknown handle, or a number outside its range
    BadArgument,
    // more than 4,096 constructs
    TooLarge,
    // the price exceeds the free units
    NoRoom { wanted: usize, free: usize },
}

impl From<StoreFault> for Refusal {
    ghost from_gives = { λ fault refusal. refusal ≡ refused_as fault };

    fn from(fault: StoreFault) -> Refusal {
        match fault {
            StoreFault::BadArgument => Refusal::BadArgument,
            StoreFault::TooLarge => Refusal::TooLarge,
            StoreFault::NoRoom { .. } => Refusal::NoRoom,
        }
    }
}

pub trait Store {
    // the code that a handle stands for, none for an unknown handle
    ghost code: { Self → Handle → Option Code };

    // the units left to spend
    ghost units: { Self → ℕ };

    // what making a code may cost
    ghost price: { Self → Code → ℕ };

    // A handle that stands for the construct over the parts' codes.
    fn make(&mut self, construct: Construct) -> Result<Handle, StoreFault>
        ensures made { Made (code self.old) (code self.new) (units self.old) (units self.new) (price self.old) (price self.new) construct result };

    // The outermost construct of a known handle, with handles for its parts.
    fn look(&self, handle: Handle) -> Option<Construct>
        ensures { Looked (code self.now) handle result };

    // The units left.
    fn free(&self) -> usize
        ensures { result ≡ units self.now };

    // no known code is larger than a store makes
    ghost small: { (s : Self) (h : Handle) (c : Code) → code s h ≡ Some c → size c ≤ 4096 };
}
