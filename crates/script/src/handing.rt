// What a generator is made of, handed on by value by another crate than its own: the proofs of these functions are what
// is tested. Each function names one type alone, since the check may find in a second one what it needs of the first.
ghost use Rattle.std.specs.Prelude.{◌≡◌};

use crate::playing::play;
use generator::binder::Binder;
use generator::cell::Cell;
use generator::generator::Generator;
use generator::plan::{Plan, Scope};
use generator::table::Table;
use std::process::Abort;
use std::test::Fail;
use store::ledger::Ledger;
use store::memory::Memory;
use store::row::Row;

fn same<T>(value: T) -> T
    ensures { result ≡ value }
{
    value
}

fn hands_on_cell(cell: Cell) -> Cell
    ensures { result ≡ cell }
{
    same(cell)
}

fn hands_on_binder(binder: Binder) -> Binder
    ensures { result ≡ binder }
{
    same(binder)
}

fn hands_on_scope(scope: Scope) -> Scope
    ensures { result ≡ scope }
{
    same(scope)
}

fn hands_on_plan(plan: Plan) -> Plan
    ensures { result ≡ plan }
{
    same(plan)
}

fn hands_on_copy(table: &Table) -> Table
    ensures { result ≡ table.now }
{
    same(*table)
}

fn hands_on_memory(memory: &Memory) -> Memory
    ensures { result ≡ memory.now }
{
    same(*memory)
}

fn hands_on_generator<'a>(generator: Generator<Ledger<'a>>) -> Generator<Ledger<'a>> {
    same(generator)
}

#[test]
fn plays_on_a_generator_handed_on(rt: HostRuntime) -> Result<(), Fail> {
    let mut rows = [Row::BLANK; 4];
    let mut output = [0; 4];
    let mut generator = hands_on_generator(Generator::new(Ledger::new(&mut rows)));
    let answer = play(
        &mut generator,
        b"\x01\x00\x05\x00\x00\x00\x0c\x00",
        &mut output,
        0,
        &mut [0; 16],
    );
    assert!(rt; answer.steps == 2);
    assert!(rt; output == *b"5\n\0\0");
    Ok(())
}
