//! Moments as dates and times of day: nanoseconds or milliseconds since 1970 in UTC, as text. Relies on std alone.
#![tactic(auto)]

mod calendar;
mod text;

pub use text::{push_millis, push_moment};
