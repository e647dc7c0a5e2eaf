// A binder that is open, and the search for one by its serial.
ghost use Rattle.std.specs.Prelude.{◌≡◌};
ghost use Rattle.generator.specs.Binders.{SameSerial, type_bound};
ghost use Rattle.std.proofs.Common.{rules};

use crate::cell::Piece;
use code::types::{Base, Ty};
use store::search::Sameness;

// What a binder binds its variable to.
#[derive(Clone, Copy)]
pub enum Binding {
    // a function's parameter of this type
    Parameter(Base),
    // a let's bound code
    Bound(Piece),
}

#[derive(Clone, Copy)]
pub struct Binder {
    pub serial: u16,
    pub binding: Binding,
}

// What fills a place before its first use.
impl Default for Binder {
    ghost use Rattle.generator.specs.Blanks.{blank_binder};

    ghost is_default = { λ binder. binder ≡ blank_binder };

    fn default() -> Binder {
        Binder {
            serial: 0,
            binding: Binding::Parameter(Base::Number),
        }
    }
}

impl Binding {
    // The type of the variable.
    pub fn variable_type(&self) -> Ty
        ensures { result ≡ type_bound self.now }
    {
        match self {
            Binding::Parameter(base) => Ty::Plain(*base),
            Binding::Bound(piece) => piece.ty,
        }
    }
}

impl Sameness for Binder {
    ghost same = { SameSerial };

    ghost reflexive = { Prim.search rules };

    ghost symmetric = { Prim.search rules };

    ghost transitive = { Prim.search rules };

    fn is_same(&self, other: &Binder) -> bool {
        self.serial == other.serial
    }
}
