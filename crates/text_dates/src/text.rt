//! Dates and times of day as text.

ghost use Rattle.std.specs.Prelude.{◌≡◌, ◌+◌, ◌/◌, ◌%◌, ◌<◌, ◌^◌, ◌++◌, OnOk};
ghost use Rattle.text_dates.specs.Dates.{date_text, day_text, digits, millis_text, moment_text, seconds_text, time_text};

use crate::calendar::{Part, month_of, year_of};
use std::alloc::AllocError;

/// Adds the last so many decimal digits of a number.
fn push_digits(line: &mut Vec<u8>, count: u8, number: u64) -> Result<(), AllocError>
    ensures { OnOk result (line.new.items ≡ line.old.items ++ digits count number) }
{
    if count == 0 {
        return Ok(());
    }
    push_digits(line, count - 1, number / 10)?;
    line.push(b'0' + (number % 10) as u8)?;
    Ok(())
}

/// Adds a day of a month of a year.
#[tactic(auto, unfolding(crate::specs::Dates::day_text))]
fn push_day(line: &mut Vec<u8>, year: u64, in_month: Part) -> Result<(), AllocError>
    requires { in_month.day < 2 ^ 32 }
    ensures { OnOk result (line.new.items ≡ line.old.items ++ day_text year in_month) }
{
    push_digits(line, 4, year)?;
    line.push(b'-')?;
    push_digits(line, 2, in_month.number)?;
    line.push(b'-')?;
    push_digits(line, 2, in_month.day + 1)
}

/// Adds a time of day, given as seconds since midnight.
#[tactic(auto, unfolding(crate::specs::Dates::time_text))]
fn push_time(line: &mut Vec<u8>, seconds: u64) -> Result<(), AllocError>
    ensures { OnOk result (line.new.items ≡ line.old.items ++ time_text seconds) }
{
    push_digits(line, 2, seconds / 3600)?;
    line.push(b':')?;
    push_digits(line, 2, seconds / 60 % 60)?;
    line.push(b':')?;
    push_digits(line, 2, seconds % 60)
}

/// Adds whole seconds since the beginning of 1970, as a date and a time of day.
#[tactic(auto, unfolding(crate::specs::Dates::seconds_text, crate::specs::Dates::date_text))]
fn push_seconds(line: &mut Vec<u8>, seconds: u64) -> Result<(), AllocError>
    requires { seconds < 2 ^ 40 }
    ensures { OnOk result (line.new.items ≡ line.old.items ++ seconds_text seconds) }
{
    let in_year = year_of(seconds / 86_400);
    push_day(line, in_year.number, month_of(in_year))?;
    line.push(b'T')?;
    push_time(line, seconds % 86_400)
}

/// Adds a moment, given as nanoseconds since the beginning of 1970, as a date and a time of day in UTC: `2026-11-30T09:30:00.000000000Z`.
///
/// # Errors
/// Want of memory.
#[tactic(auto, unfolding(crate::specs::Dates::moment_text))]
pub fn push_moment(line: &mut Vec<u8>, nanoseconds: u64) -> Result<(), AllocError>
    ensures { OnOk result (line.new.items ≡ line.old.items ++ moment_text nanoseconds) }
{
    push_seconds(line, nanoseconds / 1_000_000_000)?;
    line.push(b'.')?;
    push_digits(line, 9, nanoseconds % 1_000_000_000)?;
    line.push(b'Z')?;
    Ok(())
}

/// Adds a moment, given as milliseconds since the beginning of 1970, below 2^44, as a date and a time of day in UTC:
/// `2026-11-30T09:30:00.000Z`.
///
/// # Errors
/// Want of memory.
#[tactic(auto, unfolding(crate::specs::Dates::millis_text))]
pub fn push_millis(line: &mut Vec<u8>, milliseconds: u64) -> Result<(), AllocError>
    requires { milliseconds < 2 ^ 44 }
    ensures { OnOk result (line.new.items ≡ line.old.items ++ millis_text milliseconds) }
{
    push_seconds(line, milliseconds / 1_000)?;
    line.push(b'.')?;
    push_digits(line, 3, milliseconds % 1_000)?;
    line.push(b'Z')?;
    Ok(())
}
