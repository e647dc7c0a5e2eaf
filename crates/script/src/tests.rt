// Scripts and what the player writes for them, through the library.
use crate::playing::play;
use crate::report::report;
use generator::generator::Generator;
use std::process::Abort;
use std::test::Fail;
use store::ledger::Ledger;
use store::row::Row;
use store::sharing::Sharing;

// Plays a script over a sharing layer on the rows, and compares programs and report.
fn plays(
    rt: &impl Abort,
    rows: &mut [Row],
    output: &mut [u8],
    script: &[u8],
    wanted: &[u8],
) -> Result<(), Fail> {
    let mut line = [0; 128];
    let mut serials = [0; 16];
    let mut generator = Generator::new(Sharing::new(Ledger::new(rows)));
    let answer = play(&mut generator, script, output, 0, &mut serials);
    let end = report(&answer, &serials, &mut line, 0)?;
    compare(rt, output, answer.end, &line, end, wanted)
}

fn compare(
    rt: &impl Abort,
    output: &[u8],
    programs: usize,
    line: &[u8],
    end: usize,
    wanted: &[u8],
) -> Result<(), Fail> {
    if programs > output.len() || programs > wanted.len() || end > line.len() {
        return Err(Fail::new("an end past its slice"));
    }
    assert!(rt; output[0..programs] == wanted[0..programs]);
    assert!(rt; line[0..end] == wanted[programs..]);
    Ok(())
}

// Plays with rows and output enough.
fn ends(rt: &impl Abort, script: &[u8], wanted: &[u8]) -> Result<(), Fail> {
    plays(rt, &mut [Row::BLANK; 2048], &mut [0; 4096], script, wanted)
}

const PLUS_FIVE: &[u8] =
    b"\x07\x00\x00\x01\x01\x05\x00\x00\x00\x04\x02\x00\x00\x01\x09\x03\x02\x0c\x03";

#[test]
fn prints_a_function(rt: HostRuntime) -> Result<(), Fail> {
    ends(&rt, PLUS_FIVE, b"(fun v0:n . (v0 + 5))\ndone 5\n")
}

#[test]
fn refuses_an_escaped_name(rt: HostRuntime) -> Result<(), Fail> {
    let script =
        b"\x07\x00\x00\x01\x01\x05\x00\x00\x00\x04\x02\x00\x00\x01\x09\x03\x02\x0c\x03\x0c\x02";
    ends(
        &rt,
        script,
        b"(fun v0:n . (v0 + 5))\nrefused 7 at 19 cell 2: 0\n",
    )
}

#[test]
fn refuses_scripts_of_no_shape(rt: HostRuntime) -> Result<(), Fail> {
    ends(&rt, b"", b"done 0\n")?;
    ends(&rt, &[0x0b; 65_536], b"refused 1 at 0\n")?;
    ends(&rt, b"\x0b\x00\x01\x00\x05\x00\x00", b"refused 3 at 2\n")?;
    ends(&rt, b"\x0b\x00\x00", b"refused 2 at 2\n")?;
    ends(&rt, b"\x0b\x00\x10", b"refused 2 at 2\n")
}

#[test]
fn refuses_calls(rt: HostRuntime) -> Result<(), Fail> {
    ends(&rt, b"\x0b\x10", b"refused 1 at 0\n")?;
    ends(&rt, b"\x0b\x00\x0c\x00", b"refused 6 at 2\n")?;
    ends(&rt, b"\x09\x00\x00", b"refused 6 at 0\n")?;
    ends(&rt, b"\x02\x00\x01\x09\x00\x00", b"refused 8 at 3\n")?;
    ends(&rt, b"\x07\x00\x00", b"refused 10 at 3\n")?;
    ends(&rt, b"\x07\x00\x00\x0c\x00", b"refused 11 at 3\n")?;
    ends(
        &rt,
        b"\x02\x00\x01\x03\x01\x07\x04\x02\x00\x00\x01",
        b"refused 12 at 6\n",
    )
}

#[test]
fn refuses_for_want_of_room(rt: HostRuntime) -> Result<(), Fail> {
    plays(
        &rt,
        &mut [Row::BLANK; 2],
        &mut [0; 64],
        PLUS_FIVE,
        b"refused 16 at 9: wanted 1 free 0\n",
    )?;
    plays(
        &rt,
        &mut [Row::BLANK; 8],
        &mut [0; 21],
        PLUS_FIVE,
        b"refused 17 at 17\n",
    )?;
    plays(
        &rt,
        &mut [Row::BLANK; 8],
        &mut [0; 22],
        PLUS_FIVE,
        b"(fun v0:n . (v0 + 5))\ndone 5\n",
    )
}

// A number doubled eleven times has 4,095 constructs; once more is too large.
const DOUBLED: &[u8] =
    b"\x01\x00\x01\x00\x00\x00\x04\x00\x00\x00\x00\x04\x00\x00\x00\x00\x04\x00\x00\x00\x00\x04\x00\x00\x00\x00\x04\x00\x00\x00\x00\x04\x00\x00\x00\x00\x04\x00\x00\x00\x00\x04\x00\x00\x00\x00\x04\x00\x00\x00\x00\x04\x00\x00\x00\x00\x04\x00\x00\x00\x00\x04\x00\x00\x00\x00";

#[test]
fn refuses_too_large_a_code(rt: HostRuntime) -> Result<(), Fail> {
    ends(&rt, DOUBLED, b"refused 15 at 61\n")
}
