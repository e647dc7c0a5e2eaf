// What a granted call answers.
#[derive(Clone, Copy)]
pub enum Answer {
    Granted,
    // the serial that FUN and LET give
    Opened { serial: u16 },
    // the end of what PRINT wrote
    Printed { end: usize },
}
