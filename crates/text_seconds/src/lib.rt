//! Moments as text, one after another: the date and the time of the last second are kept, so that most moments need no calendar. Relies on
//! `text_dates` for how a moment is written.
#![tactic(auto)]

mod seconds;

pub use seconds::Seconds;
