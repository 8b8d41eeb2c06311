//! What sequences met, so that it shows that each kind of end came up.

use std::alloc::AllocError;

/// From here on it is said no more how often.
const OFTEN: u64 = 50;

/// How often each was met.
#[derive(Clone, Copy)]
pub struct Met {
    pub openings: u64,
    pub undone: u64,
    pub kept: u64,
    pub cut: u64,
    pub borders: u64,
}

/// One more, unless that is past all counting.
pub fn count(times: &mut u64) {
    *times = times.saturating_add(1);
}

/// Adds how often something was met.
fn add_times(what: &str, times: u64, told: &mut String) -> Result<(), AllocError> {
    if times < OFTEN {
        write!(told, "\n{what}: {times}")
    } else {
        write!(told, "\n{what}: {OFTEN} or more")
    }
}

impl Met {
    /// Nothing yet.
    pub const fn nothing() -> Met {
        Met {
            openings: 0,
            undone: 0,
            kept: 0,
            cut: 0,
            borders: 0,
        }
    }

    /// Adds it all, a line for each.
    pub fn add_to(self, told: &mut String) -> Result<(), AllocError> {
        add_times("openings stopped", self.openings, told)?;
        add_times(
            "batches and appends stopped, none of it there",
            self.undone,
            told,
        )?;
        add_times(
            "batches and appends stopped, all of it there",
            self.kept,
            told,
        )?;
        add_times("batches of which a part fits", self.cut, told)?;
        add_times(
            "journals that came to more than 4080 records",
            self.borders,
            told,
        )
    }
}
