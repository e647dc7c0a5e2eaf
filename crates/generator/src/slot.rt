// The place of a cell.
ghost use Rattle.std.specs.Prelude.{◌<◌};

use crate::fault::GeneratorFault;
use crate::table::CELLS;

#[derive(Clone, Copy)]
pub(crate) struct Slot {
    pub(crate) at: usize,
    ghost within: { at < 16 },
}

// The cell that a caller names by number.
impl TryFrom<u8> for Slot {
    ghost use Rattle.std.specs.Prelude.{◌≡◌};
    ghost use Rattle.generator.specs.Reads.{read_result};
    ghost use Rattle.generator.specs.Reading.{slot_of, IsSlot};

    type Error = GeneratorFault;

    ghost try_from_gives = { λ cell answer. IsSlot cell answer × (read_result (λ slot. slot.at) answer ≡ slot_of cell) };

    fn try_from(cell: u8) -> Result<Slot, GeneratorFault> {
        let at = usize::from(cell);
        if at < CELLS {
            Ok(Slot { at })
        } else {
            Err(GeneratorFault::BadArgument)
        }
    }
}
