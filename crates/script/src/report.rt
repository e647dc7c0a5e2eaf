// The report line of a run.
ghost use Rattle.std.specs.Prelude.{◌≡◌, ◌≤◌, length};
ghost use Rattle.text.specs.Page.{Writes};
ghost use Rattle.script.specs.Report.{tail, report_line, refused_as};

use crate::fault::Cause;
use crate::playing::{RunAnswer, SHORTEST_LIST};
use code::refusal::Refusal;
use generator::fault::GeneratorFault;
use store::meaning::StoreFault;
use text::page::Page;

// Why no report was written.
#[derive(Clone, Copy, PartialEq, Eq, Debug)]
pub enum ReportFault {
    BadArgument,
    ShortOutput,
}

impl From<ReportFault> for Refusal {
    ghost from_gives = { λ fault refusal. refusal ≡ refused_as fault };

    fn from(fault: ReportFault) -> Refusal {
        match fault {
            ReportFault::BadArgument => Refusal::BadArgument,
            ReportFault::ShortOutput => Refusal::ShortOutput,
        }
    }
}

// What an escape or a want of room adds to the line.
fn put_tail(page: &mut Page, cause: Cause, serials: &[u16])
    requires { 16 ≤ length serials.now }
    ensures { Writes page.old (tail cause serials.now) page.new }
{
    match cause {
        Cause::Generator(GeneratorFault::Escaped { cell, names }) => {
            page.put_word_number(b" cell ", cell);
            page.put(b":");
            page.put_serials(&serials[..names.min(16) as usize]);
        }
        Cause::Generator(GeneratorFault::Store(StoreFault::NoRoom { wanted, free })) => {
            page.put_word_number(b": wanted ", wanted);
            page.put_word_number(b" free ", free);
        }
        // no text, laid all the same: with `_ => {}` nothing shows that the page's place is in range
        _ => page.put(b""),
    }
}

// The line of a run's answer: a match, since the two lines have nothing in common but their end.
fn put_report(page: &mut Page, answer: &RunAnswer, serials: &[u16])
    requires { 16 ≤ length serials.now }
    ensures { Writes page.old (report_line answer.now serials.now) page.new }
{
    match answer.fault {
        None => page.put_word_number(b"done ", answer.steps),
        Some(fault) => {
            page.put_word_number(b"refused ", u8::from(Refusal::from(fault.cause)));
            page.put_word_number(b" at ", fault.place);
            put_tail(page, fault.cause, serials);
        }
    }
    page.put(b"\n");
}

// Writes the report line of a run at a place, and answers its end; what does not fit writes nothing. Output and place
// become a page once the place is judged.
pub fn report(
    answer: &RunAnswer,
    serials: &[u16],
    output: &mut [u8],
    place: usize,
) -> Result<usize, ReportFault> {
    let escaped = answer.fault.and_then(|fault| fault.cause.escaped());
    if place > output.len()
        || serials.len() < SHORTEST_LIST
        || escaped.is_some_and(|names| names > 16)
    {
        return Err(ReportFault::BadArgument);
    }
    let mut count = Page::new(&mut [], 0);
    put_report(&mut count, answer, serials);
    if output.len() - place < count.place() {
        return Err(ReportFault::ShortOutput);
    }
    let mut page = Page::new(output, place);
    put_report(&mut page, answer, serials);
    Ok(page.place())
}
