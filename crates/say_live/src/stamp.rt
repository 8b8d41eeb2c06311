//! A time of day in UTC.

use std::alloc::{AllocError, Global};
use std::time::Clock;
use text_dates::push_millis;

/// The greatest moment, in milliseconds: 2^44 - 1.
const LAST: u64 = (1 << 44) - 1;

/// A moment in UTC.
#[derive(Clone, Copy)]
pub(crate) struct Stamp {
    /// Milliseconds since 1970 began.
    moment: u64,
}

impl Stamp {
    /// So many milliseconds behind the beginning of 1970.
    pub(crate) fn of(moment: u64) -> Stamp {
        Stamp { moment }
    }

    /// The moment now; that at which 1970 began where the clock cannot be read.
    pub(crate) fn now<R: Clock>(rt: &R) -> Stamp {
        let moment = match rt.since_1970() {
            Ok(moment) => moment.as_millis().min(LAST as u128) as u64,
            Err(_) => 0,
        };
        Stamp { moment }
    }

    /// Whether it lies before another one.
    pub(crate) fn is_before(self, other: Stamp) -> bool {
        self.moment < other.moment
    }

    /// Adds it to a line: `2026-11-30T09:30:00.000Z`.
    pub(crate) fn push(self, alloc: Global, line: &mut String) -> Result<(), AllocError> {
        let mut text = Vec::new(alloc);
        push_millis(&mut text, self.moment.min(LAST))?;
        match str::from_utf8(text.as_slice()) {
            Ok(text) => line.push_str(text),
            Err(_) => Ok(()),
        }
    }
}
