// One row of a ledger.
use code::construct::Construct;

// A construct over the rows before it, and the size of the code that it stands for.
#[derive(Clone, Copy, Debug, PartialEq, Eq)]
pub struct Row {
    pub construct: Construct,
    pub size: u16,
}

impl Row {
    // What lent memory may hold before its first use.
    pub const BLANK: Row = Row {
        construct: Construct::Number(0),
        size: 0,
    };
}
