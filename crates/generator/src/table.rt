// The plain inner table of a generator.
ghost use Rattle.std.specs.Prelude.{◌≤◌, length};

use crate::binder::Binder;
use crate::cell::Cell;

pub const CELLS: usize = 16;

pub const MOST_BINDERS: usize = 16;

pub const MOST_MARKS: usize = 8;

// The first `depth` binders are open and the first `marked` marks are set, in order of opening; a mark is the number of
// binders that were open when it was set. Arrays with their counts, and no `ArrayVec`: a table is copied, as that never
// is, and a mark that is left takes its binders away at once, however many they are.
#[derive(Clone, Copy)]
pub struct Table {
    pub(crate) cells: [Cell; CELLS],
    pub(crate) binders: [Binder; MOST_BINDERS],
    pub(crate) depth: usize,
    pub(crate) marks: [usize; MOST_MARKS],
    pub(crate) marked: usize,
    pub(crate) next: u16,
    ghost few: { depth ≤ 16 },
    ghost shallow: { marked ≤ 8 },
    ghost within: { depth ≤ length binders },
    ghost marks_within: { marked ≤ length marks },
    ghost given: { next ≤ 4096 },
}

impl Table {
    ghost use Rattle.std.specs.Prelude.{◌≡◌, take};
    ghost use Rattle.store.specs.Meaning.{Codes};
    ghost use Rattle.model.specs.Model.{fresh};
    ghost use Rattle.generator.specs.Reads.{read};

    // All cells empty, no binder open, no mark, the first serial 0.
    pub(crate) fn new() -> Table
        ensures { (code : Codes) → read code result ≡ fresh }
    {
        Table {
            cells: [Cell::EMPTY; CELLS],
            binders: [Binder::default(); MOST_BINDERS],
            depth: 0,
            marks: [0; MOST_MARKS],
            marked: 0,
            next: 0,
        }
    }

    // The open binders, the latest last.
    pub(crate) fn open_binders(&self) -> &[Binder]
        ensures { result.now ≡ take self.now.depth self.now.binders }
    {
        &self.binders[..self.depth]
    }

    // The marks that are set, the latest last.
    pub(crate) fn set_marks(&self) -> &[usize]
        ensures { result.now ≡ take self.now.marked self.now.marks }
    {
        &self.marks[..self.marked]
    }
}
