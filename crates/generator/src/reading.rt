// What a call reads of the table, and the refusals that it judges first.
ghost use Rattle.std.specs.Prelude.{◌≡◌, ℕ, ◌<◌, length, map};
ghost use Rattle.code.specs.Serials.{names as serials_of};
ghost use Rattle.store.specs.Meaning.{Codes};
ghost use Rattle.model.specs.Model.{is_open, escaping};
ghost use Rattle.generator.specs.Reads.{read, read_binders, read_result, read_piece};
ghost use Rattle.generator.specs.Reading.{slot_of, judge_each, held_at, may_use_each, ReadEach};

use crate::binder::Binder;
use crate::cell::Piece;
use crate::fault::GeneratorFault;
use crate::slot::Slot;
use crate::table::Table;
use code::names::Names;
use store::search::find;

// Refuses numbers of which one is no cell's.
fn judge_numbers(cells: &[u8]) -> Result<(), GeneratorFault>
    ensures { read_result (λ u. u) result ≡ judge_each slot_of cells.now }
{
    for cell in cells {
        Slot::try_from(*cell)?;
    }
    Ok(())
}

impl Table {
    // The code in a cell.
    pub(crate) fn read(&self, cell: u8) -> Result<Piece, GeneratorFault>
        ensures { result ≡ held_at self.now cell }
    {
        // The content is taken apart, or the refusal given, in one form for every call that reads a cell.
        let Some(piece) = self.cells[Slot::try_from(cell)?.at].content else {
            return Err(GeneratorFault::EmptyCell);
        };
        Ok(piece)
    }

    pub(crate) fn is_open(&self, serial: u16) -> bool
        ensures { (code : Codes) → result ≡ is_open (read_binders code self.now) serial }
    {
        let wanted = Binder {
            serial,
            ..Binder::default()
        };
        find(self.open_binders(), &wanted).is_some()
    }

    // How many of the names are not open.
    pub(crate) fn escaping(&self, used: &Names) -> u8
        ensures { (code : Codes) → result ≡ length (escaping (read_binders code self.now) (serials_of used.now)) }
    {
        let escaped = used.as_slice().iter().filter(|s| !self.is_open(**s));
        escaped.count() as u8
    }

    // Refuses the first code with a name that is not open. What was named and what was read stand side by side, as in
    // the definition.
    fn judge_uses(&self, cells: &[u8], pieces: &[Piece]) -> Result<(), GeneratorFault>
        ensures { (code : Codes) → read_result (λ u. u) result ≡ may_use_each (read code self.now) cells.now (map (read_piece code) pieces.now) }
    {
        for (cell, piece) in cells.iter().zip(pieces) {
            let names = self.escaping(&piece.names);
            if names > 0 {
                return Err(GeneratorFault::Escaped { cell: *cell, names });
            }
        }
        Ok(())
    }

    // The codes of the cells that a call uses: every number is judged before any cell, and every cell before any code.
    pub(crate) fn read_each<const N: usize>(
        &self,
        cells: [u8; N],
    ) -> Result<[Piece; N], GeneratorFault>
        ensures { ReadEach self.now cells.entry result }
    {
        judge_numbers(&cells)?;
        // A loop: by `try_map`, which was tried, nothing proves that the closure reads this table.
        let mut pieces = [Piece::default(); N];
        for (i, cell) in cells.iter().enumerate() {
            pieces[i] = self.read(*cell)?;
        }
        self.judge_uses(&cells, &pieces)?;
        Ok(pieces)
    }
}
