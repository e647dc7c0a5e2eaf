// A cell, and the code in it.
ghost use Rattle.std.specs.Prelude.{◌≡◌, Some, None};

use code::construct::Handle;
use code::names::Names;
use code::types::{Base, Ty};

// A code by its handle in the store, with what the generator knows of it.
#[derive(Clone, Copy)]
pub struct Piece {
    pub handle: Handle,
    pub ty: Ty,
    pub size: u16,
    pub names: Names,
}

// A blank, for places that are not written yet.
impl Default for Piece {
    ghost use Rattle.generator.specs.Blanks.{blank_piece};

    ghost is_default = { λ piece. piece ≡ blank_piece };

    fn default() -> Piece {
        Piece {
            handle: Handle { number: 0 },
            ty: Ty::Plain(Base::Number),
            size: 0,
            names: Names::none(),
        }
    }
}

#[derive(Clone, Copy)]
pub struct Cell {
    pub content: Option<Piece>,
}

impl Cell {
    pub const EMPTY: Cell = Cell { content: None };

    pub fn fill(&mut self, piece: Piece)
        ensures { self.new.content ≡ Some piece }
    {
        self.content = Some(piece);
    }

    pub fn clear(&mut self)
        ensures { self.new.content ≡ None }
    {
        self.content = None;
    }
}
