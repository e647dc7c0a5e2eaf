// The laws of the definitions, each on the contract of a function that does nothing.
ghost use Rattle.std.specs.Prelude.{◌≡◌, ◌↔◌, true, IsTrue};
ghost use Rattle.code.specs.declared.construct.Construct.{Construct};
ghost use Rattle.code.specs.declared.types.Base.{Base};
ghost use Rattle.code.specs.declared.types.Ty.{Ty};
ghost use Rattle.code.specs.Typing.{same_base, same_type};
ghost use Rattle.code.specs.Numbers.{NumbersExact};
ghost use Rattle.code.specs.Exact.{NamesExact, TypesExact};
ghost use Rattle.code.specs.Belong.{NamesBelong};
ghost use Rattle.code.specs.Apart.{TextsApart};
ghost use Rattle.code.specs.Examples.{examples_hold};

use crate::construct::Construct;
use crate::types::{Base, Ty};

// Each number belongs to one operator or type, and is read back as that.
pub fn numbers_are_exact()
    ensures { NumbersExact }
{}

// Constructs are the same exactly where kind, numbers and part handles are all equal; types as their definition says.
pub fn equality_is_exact()
    ensures constructs { (a b : Construct) → IsTrue (⟦<Construct as PartialEq>⟧.eq a b) ↔ (a ≡ b) }
    ensures bases { (p q : Base) → ⟦<Base as PartialEq>⟧.eq p q ≡ same_base p q }
    ensures types { (t u : Ty) → ⟦<Ty as PartialEq>⟧.eq t u ≡ same_type t u }
{}

// The free names of a code are the serials that stand free in it, ascending, each once.
pub fn free_names_are_exact()
    ensures { NamesExact }
{}

// The type of a code is the one that the rules give, told by its free names alone.
pub fn types_are_exact()
    ensures { TypesExact }
{}

// In the spelling of a code each variable bears the name of its own binder, and no nearer one has that name.
pub fn names_belong()
    ensures { NamesBelong }
{}

// No two signs, letters, words, names or numbers are written alike, and codes with one text differ in nothing but their serials.
pub fn texts_are_apart()
    ensures { TextsApart }
{}

// Worked codes have the sizes, free names, types and texts written beside them.
pub fn examples_compute()
    ensures { examples_hold ≡ true }
{}
