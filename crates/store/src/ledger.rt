// A store of one row for each make, in rows that its owner lends.
ghost use Rattle.std.specs.Prelude.{◌≡◌, ◌≤◌, length, take};
ghost use Rattle.store.specs.Meaning.{Made};
ghost use Rattle.store.specs.Spending.{Spends};
ghost use Rattle.store.specs.Sizes.{size_over, size_asked};
ghost use Rattle.store.specs.Rows.{Sound, RowBehind};
ghost use Rattle.store.specs.RowsLaw.{sound_prop};

use crate::meaning::{Store, StoreFault};
use crate::row::Row;
use code::construct::{Construct, Handle};

// The most rows that a ledger uses.
pub const MOST_ROWS: usize = 65_536;

// The largest code that a store makes.
pub const LARGEST: u16 = 4096;

// Inputs are numbered below this.
pub const INPUTS: u8 = 8;

// Serials are numbered below this.
pub const SERIALS: u16 = 4096;

// Lent rows with the number in use, and no `Vec`: the owner's memory is the budget. A handle is a row's place, as a
// store knows its codes by handles.
#[derive(Drop)]
pub struct Ledger<'a> {
    rows: &'a mut [Row],
    used: usize,
    pub ghost within: { used ≤ length rows.now },
    pub ghost few: { used ≤ 65536 },
    pub ghost sound: { Sound (take used rows.now) } by { sound_prop (take used rows.now) },
}

impl<'a> Ledger<'a> {
    ghost use Rattle.store.specs.Ledger.{code_of, Fresh};

    // A ledger with nothing in it, and a unit for each of the first 65,536 rows.
    pub fn new(rows: &'a mut [Row]) -> Ledger<'a>
        ensures { Fresh result rows.old }
    {
        Ledger { rows, used: 0 }
    }

    // The row behind a handle, none where the handle is unknown.
    fn row(&self, handle: Handle) -> Option<Row>
        ensures { RowBehind (code_of self.now) handle result }
    {
        self.rows[..self.used].get(handle.number as usize).copied()
    }

    // One more than the sizes of the parts together, none where a part is unknown.
    fn size_over<const N: usize>(&self, parts: [Handle; N]) -> Option<u32>
        requires { N ≤ 3 }
        ensures { result ≡ size_over (code_of self.now) parts.entry }
    {
        let mut size = 1;
        for part in parts {
            size += u32::from(self.row(part)?.size);
        }
        Some(size)
    }

    // The size that the construct would have, none for an unknown handle or a number outside its range.
    fn size_asked(&self, construct: Construct) -> Option<u32>
        ensures { result ≡ size_asked (code_of self.now) construct }
    {
        match construct {
            Construct::Number(_) | Construct::Truth(_) => Some(1),
            Construct::Input(input) => (input < INPUTS).then_some(1),
            Construct::Variable(serial) => (serial < SERIALS).then_some(1),
            Construct::Join(_, a, b) | Construct::Apply(a, b) => self.size_over([a, b]),
            Construct::Choose(a, b, d) => self.size_over([a, b, d]),
            Construct::Function(serial, _, body) if serial < SERIALS => self.size_over([body]),
            Construct::Let(serial, a, b) if serial < SERIALS => self.size_over([a, b]),
            Construct::Function(_, _, _) | Construct::Let(_, _, _) => None,
        }
    }
}

impl<'a> Store for Ledger<'a> {
    ghost use Rattle.store.specs.Ledger.{code_of, units_left, one_each};
    ghost use Rattle.store.specs.LedgerLaw.{ledger_small};

    ghost code = { code_of };

    ghost units = { units_left };

    ghost price = { one_each };

    ghost small = { ledger_small };

    // The next row takes the construct, and costs one unit whatever its code.
    fn make(&mut self, construct: Construct) -> Result<Handle, StoreFault>
        ensures made { Made (code_of self.old) (code_of self.new) (units_left self.old) (units_left self.new) (one_each self.old) (one_each self.new) construct result }
        ensures spends { Spends (code_of self.old) (units_left self.old) (units_left self.new) (one_each self.old) construct result }
    {
        let size = self.size_asked(construct).ok_or(StoreFault::BadArgument)?;
        if size > u32::from(LARGEST) {
            return Err(StoreFault::TooLarge);
        }
        if self.free() == 0 {
            return Err(StoreFault::NoRoom { wanted: 1, free: 0 });
        }
        let at = self.used;
        self.rows[at] = Row {
            construct,
            size: size as u16,
        };
        self.used = at + 1;
        Ok(Handle { number: at as u32 })
    }

    fn look(&self, handle: Handle) -> Option<Construct> {
        self.row(handle).map(|row| row.construct)
    }

    fn free(&self) -> usize {
        self.rows.len().min(MOST_ROWS) - self.used
    }
}
