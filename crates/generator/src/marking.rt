// What a granted call does to the table.
ghost use Rattle.std.specs.Prelude.{◌≡◌};
ghost use Rattle.generator.specs.Plans.{RoomFor};

use crate::binder::Binder;
use crate::cell::Piece;
use crate::fault::GeneratorFault;
use crate::plan::{Plan, Scope};
use crate::slot::Slot;
use crate::table::{MOST_MARKS, Table};
use code::construct::Handle;

impl Table {
    // Puts the code that was made into its cell, and opens or closes its binder. That there is room holds between table
    // and plan, so no type of one of them can say it.
    pub(crate) fn carry_out(&mut self, plan: &Plan, handle: Handle)
        requires { RoomFor self.old plan.now.scope }
    {
        match plan.scope {
            Scope::Kept => {}
            Scope::Opened(binding) => {
                self.binders[self.depth] = Binder {
                    serial: self.next,
                    binding,
                };
                self.depth += 1;
                self.next += 1;
            }
            Scope::Closed => self.depth -= 1,
        }
        let piece = Piece {
            handle,
            ty: plan.ty,
            size: plan.size,
            names: plan.names,
        };
        // The cells are lent before one of them is, here and below: in one step the table, whose facts are open
        // meanwhile, gets no proof.
        let cells = &mut self.cells;
        cells[plan.to.at].fill(piece);
    }

    pub(crate) fn copy(&mut self, cell: u8, from: u8) -> Result<(), GeneratorFault> {
        let to = Slot::try_from(cell)?;
        let piece = self.read(from)?;
        let cells = &mut self.cells;
        cells[to.at].fill(piece);
        Ok(())
    }

    pub(crate) fn clear(&mut self, cell: u8) -> Result<(), GeneratorFault> {
        let to = Slot::try_from(cell)?;
        let cells = &mut self.cells;
        cells[to.at].clear();
        Ok(())
    }

    pub(crate) fn mark(&mut self) -> Result<(), GeneratorFault> {
        if self.marked >= MOST_MARKS {
            return Err(GeneratorFault::TooDeep);
        }
        self.marks[self.marked] = self.depth;
        self.marked += 1;
        Ok(())
    }

    pub(crate) fn finish(&mut self) -> Result<(), GeneratorFault> {
        let mark = *self.set_marks().last().ok_or(GeneratorFault::NoMark)?;
        if self.depth > mark {
            return Err(GeneratorFault::StillOpen);
        }
        self.marked -= 1;
        Ok(())
    }

    pub(crate) fn leave(&mut self) -> Result<(), GeneratorFault> {
        let mark = *self.set_marks().last().ok_or(GeneratorFault::NoMark)?;
        self.marked -= 1;
        self.depth = self.depth.min(mark);
        Ok(())
    }
}
