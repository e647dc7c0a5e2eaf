// What a ledger and a sharing layer grant and refuse.
use crate::ledger::Ledger;
use crate::meaning::{Store, StoreFault};
use crate::row::Row;
use crate::sharing::Sharing;
use code::construct::{Construct, Handle};
use code::operator::Operator;
use code::types::Base;
use std::process::Abort;
use std::test::Fail;

fn granted<S: Store>(store: &mut S, construct: Construct) -> Result<Handle, Fail> {
    store
        .make(construct)
        .map_err(|_| Fail::new("a make was refused"))
}

fn refused<S: Store>(
    rt: &impl Abort,
    store: &mut S,
    construct: Construct,
    wanted: StoreFault,
) -> Result<(), Fail> {
    let Err(fault) = store.make(construct) else {
        return Err(Fail::new("a make was granted"));
    };
    assert!(rt; fault == wanted);
    Ok(())
}

// A code joined with itself three times over.
fn doubled_thrice<S: Store>(store: &mut S, code: Handle) -> Result<Handle, Fail> {
    let two = granted(store, Construct::Join(Operator::Add, code, code))?;
    let four = granted(store, Construct::Join(Operator::Add, two, two))?;
    granted(store, Construct::Join(Operator::Add, four, four))
}

#[test]
fn a_ledger_has_a_row_for_each_make(rt: HostRuntime) -> Result<(), Fail> {
    let mut rows = [Row::BLANK; 2];
    let mut store = Ledger::new(&mut rows);
    let a = granted(&mut store, Construct::Number(5))?;
    let b = granted(&mut store, Construct::Number(5))?;
    let join = Construct::Join(Operator::Add, a, b);
    refused(
        &rt,
        &mut store,
        join,
        StoreFault::NoRoom { wanted: 1, free: 0 },
    )
}

#[test]
fn a_layer_shares_rows(rt: HostRuntime) -> Result<(), Fail> {
    let mut rows = [Row::BLANK; 2];
    let mut store = Sharing::new(Ledger::new(&mut rows));
    let a = granted(&mut store, Construct::Number(5))?;
    let b = granted(&mut store, Construct::Number(5))?;
    assert!(rt; a.number == b.number);
    granted(&mut store, Construct::Join(Operator::Add, a, b))?;
    assert!(rt; store.free() == 0);
    Ok(())
}

#[test]
fn bad_arguments_are_refused_before_want_of_room(rt: HostRuntime) -> Result<(), Fail> {
    let mut rows: [Row; 0] = [];
    let mut store = Ledger::new(&mut rows);
    let unknown = Handle { number: 0 };
    refused(
        &rt,
        &mut store,
        Construct::Apply(unknown, unknown),
        StoreFault::BadArgument,
    )?;
    refused(
        &rt,
        &mut store,
        Construct::Input(8),
        StoreFault::BadArgument,
    )?;
    refused(
        &rt,
        &mut store,
        Construct::Variable(4096),
        StoreFault::BadArgument,
    )?;
    refused(
        &rt,
        &mut store,
        Construct::Input(7),
        StoreFault::NoRoom { wanted: 1, free: 0 },
    )?;
    refused(
        &rt,
        &mut store,
        Construct::Variable(4095),
        StoreFault::NoRoom { wanted: 1, free: 0 },
    )
}

#[test]
fn a_code_has_at_most_4096_constructs(rt: HostRuntime) -> Result<(), Fail> {
    let mut rows = [Row::BLANK; 16];
    let mut store = Ledger::new(&mut rows);
    let one = granted(&mut store, Construct::Number(5))?;
    let eight = doubled_thrice(&mut store, one)?;
    let many = doubled_thrice(&mut store, eight)?;
    let more = doubled_thrice(&mut store, many)?;
    let most = granted(&mut store, Construct::Join(Operator::Add, more, more))?;
    let last = granted(&mut store, Construct::Join(Operator::Add, most, most))?;
    refused(
        &rt,
        &mut store,
        Construct::Join(Operator::Add, last, one),
        StoreFault::TooLarge,
    )?;
    let whole = granted(&mut store, Construct::Function(0, Base::Number, last))?;
    refused(
        &rt,
        &mut store,
        Construct::Function(1, Base::Number, whole),
        StoreFault::TooLarge,
    )
}

#[test]
fn a_ledger_uses_at_most_65536_rows(rt: HostRuntime) {
    let mut rows = [Row::BLANK; 65_537];
    let store = Ledger::new(&mut rows);
    assert!(rt; store.free() == 65_536);
}
