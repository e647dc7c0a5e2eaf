//! The player: a script from standard input, the printed programs and the report line to standard output.
#![tactic(auto)]

use anyhow::{anyhow, ensure};
use generator::generator::Generator;
use script::playing::{SHORTEST_LIST, play};
use script::report::report;
use std::io::{Read, Write};
use store::ledger::Ledger;
use store::row::Row;
use store::sharing::Sharing;

const ROWS: usize = 2_048;

const OUTPUT: usize = 60_000;

const REPORT: usize = 128;

// One byte more than the longest script tells that a script is too long.
const MOST_READ: u64 = 65_536;

// Plays the script over a sharing layer on ledger rows; fails where the script was not played to its end.
fn main(rt: HostRuntime) -> anyhow::Result<()> {
    let heap = rt.alloc();
    let mut script = Vec::new(heap);
    rt.stdin().take(MOST_READ).read_to_end(&mut script)?;
    let mut rows = vec![in heap; Row::BLANK; ROWS]?;
    let mut output = vec![in heap; 0u8; OUTPUT]?;
    let mut line = [0u8; REPORT];
    let mut serials = [0u16; SHORTEST_LIST];
    let mut generator = Generator::new(Sharing::new(Ledger::new(&mut rows)));
    let answer = play(&mut generator, &script, &mut output, 0, &mut serials);
    let end = report(&answer, &serials, &mut line, 0).map_err(|_| anyhow!(
        "the report line does not fit"
    ))?;
    let mut out = rt.stdout();
    out.write_all(&output[..answer.end.min(OUTPUT)])?;
    out.write_all(&line[..end.min(REPORT)])?;
    ensure!(
        answer.fault.is_none(),
        "the script was refused: the last line of the output says why",
    );
    Ok(())
}
