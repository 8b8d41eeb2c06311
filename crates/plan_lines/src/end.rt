//! How the reading of a text ended.

use sbe_encode::EncodeFault;

/// Why a line of a text, or the message that begins there, makes no line.
#[derive(Debug, Drop)]
pub enum Wrong {
    /// The line is longer than a line that is read.
    TooLong,
    /// It begins as one that names a sender, and names none from 1 to 16.
    Sender,
    /// It is not one that may stand there, or the text ends inside a message.
    Line,
    /// With it the text of one message is longer than 2^26 bytes.
    Endless,
    /// The message that begins there may not be written; this is its first fault.
    Message(EncodeFault),
}

/// Why no line was made.
#[derive(Drop)]
pub(crate) enum Stop {
    /// The line of this number, from 1 on, is refused.
    Wrong { line: u64, wrong: Wrong },
    /// There is not enough memory.
    Memory,
}

/// How the reading of a text ended.
#[derive(Drop)]
pub enum PlanEnd {
    /// The whole text was read.
    Done,
    /// The source of the text failed.
    Input,
    /// The sink of the lines failed.
    Output,
    /// The line of this number, from 1 on, is refused; the lines of the messages before it were written.
    Refused { line: u64, wrong: Wrong },
    /// There is not enough memory.
    Memory,
}
