//! How the telling of lines ended.

use sbe_grammar::DecodeFault;

/// Why a line of OUT gives no text: the first of these that is so.
#[derive(Debug, Drop)]
pub enum Wrong {
    /// It is longer than a line of OUT that is read.
    TooLong,
    /// It is no line of OUT.
    Form,
    /// The payload is not in pairs of hexadecimal digits.
    Digits,
    /// The payload does not begin with the encoding type of the schema's byte order (Simple Open Framing Header).
    Encoding,
    /// The message is none of the schema's; this is its first fault.
    Message(DecodeFault),
}

/// Why the text of a line was not added.
#[derive(Drop)]
pub(crate) enum Stop {
    /// The line gives none.
    Wrong(Wrong),
    /// There is not enough memory.
    Memory,
}

/// How the telling of lines ended.
#[derive(Drop)]
pub enum ToldEnd {
    /// All lines were told.
    Done,
    /// The source of the lines failed.
    Input,
    /// The sink of the text failed.
    Output,
    /// The line of this number, from 1 on, gives no text; those before it were told.
    Refused { line: u64, wrong: Wrong },
    /// There is not enough memory.
    Memory,
}
