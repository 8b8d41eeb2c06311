//! A clock in memory, set on step by step.

use cases_words::{halves, number};
use gw_link_fakes::MemClock;
use gw_links::Clock;
use std::alloc::{AllocError, Global};

/// The moment through the trait.
fn moment<C: Clock>(clock: &mut C) -> u64 {
    clock.now()
}

/// A clock, `START BY, BY, ..`: its moments before and after each step.
pub fn clock_line(alloc: Global, rest: &str) -> Result<String, AllocError> {
    let (start, steps) = halves(rest);
    let mut clock = MemClock::new(number(start));
    let mut shown = format!(in alloc; "clock {}", moment(&mut clock))?;
    for by in steps.split(", ") {
        clock.advance(number(by));
        shown.push_str(format!(in alloc; " {}", moment(&mut clock))?.as_str())?;
    }
    Ok(shown)
}
