// One call as data, performed.
ghost use Rattle.std.specs.Prelude.{◌≡◌};

use crate::answer::Answer;
use crate::fault::GeneratorFault;
use crate::generator::Generator;
use model::call::Call;
use store::meaning::Store;

impl<S: Store> Generator<S> {
    // Performs the call; a print goes into the output from the place on, which are lent as the caller has them, and
    // become a page once a print is granted.
    pub fn perform(
        &mut self,
        call: Call,
        output: &mut [u8],
        place: usize,
    ) -> Result<Answer, GeneratorFault> {
        // A match, and no table of closures: each call has arguments and an answer of its own.
        match call {
            Call::Num { cell, value } => self.num(cell, value)?,
            Call::Truth { cell, truth } => self.truth(cell, truth)?,
            Call::Input { cell, input } => self.input(cell, input)?,
            Call::Join {
                cell,
                operator,
                left,
                right,
            } => self.join(cell, operator, left, right)?,
            Call::Choose {
                cell,
                condition,
                then,
                otherwise,
            } => self.choose(cell, condition, then, otherwise)?,
            Call::Apply {
                cell,
                function,
                argument,
            } => self.apply(cell, function, argument)?,
            Call::Fun { cell, parameter } => return Ok(Answer::Opened {
                serial: self.fun(cell, parameter)?,
            }),
            Call::Let { cell, bound } => return Ok(Answer::Opened {
                serial: self.let_in(cell, bound)?,
            }),
            Call::Close { cell, body } => self.close(cell, body)?,
            Call::Copy { cell, from } => self.copy(cell, from)?,
            Call::Clear { cell } => self.clear(cell)?,
            Call::Mark => self.mark()?,
            Call::Finish => self.finish()?,
            Call::Leave => self.leave()?,
            Call::Print { cell } => return Ok(Answer::Printed {
                end: self.print(cell, output, place)?,
            }),
        }
        Ok(Answer::Granted)
    }

    // Puts the names of a cell that are not open, ascending, to the front of the list; answers how many fit.
    pub fn list_escaping(&self, cell: u8, list: &mut [u16]) -> usize {
        let Ok(piece) = self.table.read(cell) else {
            return 0;
        };
        // Counted as they are written, which is what is answered: each name is looked for once.
        let mut count = 0;
        for serial in piece.names.as_slice() {
            if !self.table.is_open(*serial)
                && let Some(place) = list.get_mut(count)
            {
                *place = *serial;
                count += 1;
            }
        }
        count
    }
}
