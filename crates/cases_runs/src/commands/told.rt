//! What is told of a run's outputs.

use crate::commands::devices::Outcome;
use std::alloc::AllocError;

/// All that WIRE and OUT are to gain.
#[derive(Clone, Copy)]
pub struct Whole<'a> {
    pub wire: &'a [u8],
    pub out: &'a [u8],
}

/// Whether a run gave the whole.
pub fn is_whole(outcome: &Outcome, whole: Whole<'_>) -> bool {
    outcome.code() == 0 && outcome.wire() == whole.wire && outcome.out() == whole.out
}

/// Adds how many bytes were gained, if they are a front of the whole.
fn push_gained(line: &mut String, bytes: &[u8], whole: &[u8]) -> Result<(), AllocError> {
    if whole.starts_with(bytes) {
        let count = bytes.len();
        write!(line, "{count}")
    } else {
        line.push_str("other bytes")
    }
}

/// Adds the status, and how many bytes of the whole WIRE and OUT gained.
pub fn push_told(line: &mut String, outcome: &Outcome, whole: Whole<'_>) -> Result<(), AllocError> {
    let code = outcome.code();
    write!(line, "status {code}, WIRE ")?;
    push_gained(line, outcome.wire(), whole.wire)?;
    line.push_str(", OUT ")?;
    push_gained(line, outcome.out(), whole.out)
}
