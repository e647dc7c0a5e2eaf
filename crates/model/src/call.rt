// The calls as data; the cell that receives comes first. Cells, operators, types, truths and inputs are the numbers
// that a caller gives: enums would ask more than a call that refuses what is out of range.
#[derive(Clone, Copy)]
pub enum Call {
    Num {
        cell: u8,
        value: i32,
    },
    Truth {
        cell: u8,
        truth: u8,
    },
    Input {
        cell: u8,
        input: u8,
    },
    Join {
        cell: u8,
        operator: u8,
        left: u8,
        right: u8,
    },
    Choose {
        cell: u8,
        condition: u8,
        then: u8,
        otherwise: u8,
    },
    Apply {
        cell: u8,
        function: u8,
        argument: u8,
    },
    Fun {
        cell: u8,
        parameter: u8,
    },
    Let {
        cell: u8,
        bound: u8,
    },
    Close {
        cell: u8,
        body: u8,
    },
    Copy {
        cell: u8,
        from: u8,
    },
    Clear {
        cell: u8,
    },
    Mark,
    Finish,
    Leave,
    Print {
        cell: u8,
    },
}
