// Playing a script of calls from first to last, between a mark and its finish.
ghost use Rattle.std.specs.Prelude.{◌≡◌, ◌-◌, length};
ghost use Rattle.std.specs.Iterator.{at_most};
ghost use Rattle.script.specs.Playing.{GoesOn};

use crate::cursor::Cursor;
use crate::fault::{Cause, RunFault};
use crate::kind::Kind;
use crate::step::{Misread, Step};
use generator::answer::Answer;
use generator::fault::GeneratorFault;
use generator::generator::Generator;
use model::call::Call;
use store::meaning::Store;

pub const LONGEST_SCRIPT: usize = 65_535;

pub const SHORTEST_LIST: usize = 16;

// Where the output ended, the steps granted, and a fault or none.
#[derive(Clone, Copy)]
pub struct RunAnswer {
    pub end: usize,
    pub steps: usize,
    pub fault: Option<RunFault>,
}

// The next call; the steps of blocks are unknown kinds yet, also where a body is cut short.
fn next_call(cursor: &mut Cursor) -> Result<Call, Misread>
    ensures { GoesOn cursor.old result cursor.new }
{
    if let Kind::Begin | Kind::End | Kind::Leave = cursor.kind()? {
        return Err(Misread::UnknownKind);
    }
    match cursor.step()? {
        Step::Call(call) => Ok(call),
        Step::Begin { .. } | Step::End | Step::Leave => Err(Misread::UnknownKind),
    }
}

// The calls of a script with their places, left to right; after a misreading there are no more.
#[derive(Drop)]
struct Calls<'a> {
    cursor: Cursor<'a>,
}

impl<'a> Calls<'a> {
    // From the script's start.
    fn new(script: &'a [u8]) -> Calls<'a> {
        let cursor = Cursor::new(script);
        Calls { cursor }
    }
}

impl Iterator for Calls<'_> {
    type Item = Result<(usize, Call), RunFault>;

    ghost remaining = { λ s. at_most (length s.cursor.script.now - s.cursor.place) };

    // Inlined: a call that goes through memory, byte by byte, is waited for when it is read as a whole.
    #[inline(always)]
    fn next(&mut self) -> Option<Result<(usize, Call), RunFault>> {
        if self.cursor.is_done() {
            return None;
        }
        let place = self.cursor.place();
        // A match: a misreading also ends the script, which `map_err` would hide.
        match next_call(&mut self.cursor) {
            Ok(call) => Some(Ok((place, call))),
            Err(misread) => {
                self.cursor.finish();
                Some(Err(Cause::from(misread).at(place)))
            }
        }
    }
}

// Judges the shape of the whole script, left to right.
fn judge_shape(script: &[u8]) -> Result<(), RunFault> {
    for call in Calls::new(script) {
        call?;
    }
    Ok(())
}

// A run of a script: what it works on, and how far it has come. Output and end are no page, as each print judges them
// anew; the script and the list of serials stay parameters, as five loans in a struct would be no plainer.
#[derive(Drop)]
struct Run<'a, S> {
    generator: &'a mut Generator<S>,
    output: &'a mut [u8],
    end: usize,
    steps: usize,
}

impl<S: Store> Run<'_, S> {
    // Judges the arguments, then the shape, then sets the mark.
    fn begin(&mut self, script: &[u8], serials: &[u16]) -> Result<(), RunFault>
        ensures { self.new.generator.now.store ≡ self.old.generator.now.store }
    {
        self.judge_arguments(script, serials)
            .map_err(|cause| cause.at(0))?;
        judge_shape(script)?;
        self.generator
            .mark()
            .map_err(|fault| Cause::from(fault).at(0))
    }

    fn judge_arguments(&self, script: &[u8], serials: &[u16]) -> Result<(), Cause> {
        if self.end > self.output.len()
            || serials.len() < SHORTEST_LIST
            || script.len() > LONGEST_SCRIPT
        {
            return Err(Cause::BadArgument);
        }
        Ok(())
    }

    // Performs one call, printing on.
    fn perform(&mut self, call: Call) -> Result<(), Cause> {
        if let Answer::Printed { end } = self.generator.perform(call, self.output, self.end)? {
            self.end = end;
        }
        self.steps = self.steps.saturating_add(1);
        Ok(())
    }

    // Performs the calls in their order, and stops at the first that is refused.
    fn perform_all(&mut self, script: &[u8]) -> Result<(), RunFault> {
        for call in Calls::new(script) {
            let (place, call) = call?;
            self.perform(call).map_err(|cause| cause.at(place))?;
        }
        self.generator
            .finish()
            .map_err(|fault| Cause::from(fault).at(script.len()))
    }

    // Leaves the mark after a refusal, the serials of an escape listed before.
    fn stop(&mut self, cause: Cause, serials: &mut [u16])
        ensures { self.new.generator.now.store ≡ self.old.generator.now.store }
    {
        if let Cause::Generator(GeneratorFault::Escaped { cell, .. }) = cause {
            let _ = self.generator.list_escaping(cell, serials);
        }
        let _ = self.generator.leave();
    }

    // Plays the script between a mark and its finish; after a refusal past the mark leaves the mark.
    fn play(&mut self, script: &[u8], serials: &mut [u16]) -> Result<(), RunFault> {
        self.begin(script, serials)?;
        let played = self.perform_all(script);
        if let Err(fault) = played {
            self.stop(fault.cause, serials);
        }
        played
    }
}

// Plays a script of calls: judges the arguments and the shape of the whole, marks, plays, printing on from the place,
// and finishes. After a refusal past its mark it leaves the mark, and an escape's serials go to the front of the list.
// Output and place come as the caller has them: a place beyond the output is a refusal of the run's own.
pub fn play<S: Store>(
    generator: &mut Generator<S>,
    script: &[u8],
    output: &mut [u8],
    place: usize,
    serials: &mut [u16],
) -> RunAnswer {
    let mut run = Run {
        generator,
        output,
        end: place,
        steps: 0,
    };
    let fault = run.play(script, serials).err();
    RunAnswer {
        end: run.end,
        steps: run.steps,
        fault,
    }
}
