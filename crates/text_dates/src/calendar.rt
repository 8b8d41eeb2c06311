//! The Gregorian calendar, from the beginning of 1970 on.

ghost use Rattle.std.specs.Prelude.{◌≡◌, ◌+◌, ◌<◌, ◌≤◌, ◌^◌, length};
ghost use Rattle.text_dates.specs.Dates.{days_of_february, days_of_months, days_of_year, is_leap, month_in, month_of, year_of};

/// A year or a month, and a day in it, counted from 0.
#[derive(Clone, Copy)]
pub struct Part {
    pub number: u64,
    pub day: u64,
}

fn is_leap(year: u64) -> bool
    ensures { result ≡ is_leap year }
{
    (year % 4 == 0 && year % 100 != 0) || year % 400 == 0
}

fn days_of_year(year: u64) -> u64
    ensures { result ≡ days_of_year year }
{
    if is_leap(year) { 366 } else { 365 }
}

fn days_of_february(year: u64) -> u64
    ensures { result ≡ days_of_february year }
{
    if is_leap(year) { 29 } else { 28 }
}

/// The days of the months of a year, January first.
fn days_of_months(year: u64) -> [u64; 12]
    ensures { result ≡ days_of_months year }
{
    [
        31,
        days_of_february(year),
        31,
        30,
        31,
        30,
        31,
        31,
        30,
        31,
        30,
        31,
    ]
}

/// The year in which a day lies, which is counted from the beginning of 1970.
pub fn year_of(day: u64) -> Part
    requires { day < 2 ^ 32 }
    ensures exact { result ≡ year_of day }
    ensures within { result.day ≤ day }
{
    let mut part = Part { number: 1970, day };
    while part.day >= days_of_year(part.number) {
        part = Part {
            number: part.number + 1,
            day: part.day - days_of_year(part.number),
        };
    }
    part
}

/// The month in which a day lies, where months of these lengths follow one another, the first of which has this number.
fn month_in(month: u64, lengths: &[u64], day: u64) -> Part
    requires { month + length lengths.now < 2 ^ 32 }
    ensures exact { result ≡ month_in month lengths.now day }
    ensures within { result.day ≤ day }
{
    match lengths {
        [days, later @ ..] => {
            if day < *days {
                return Part { number: month, day };
            }
            month_in(month + 1, later, day - *days)
        }
        [] => Part { number: month, day },
    }
}

/// The month of a day of a year, from 1.
#[tactic(auto, unfolding(crate::specs::Dates::month_of))]
pub fn month_of(in_year: Part) -> Part
    ensures exact { result ≡ month_of in_year }
    ensures within { result.day ≤ in_year.day }
{
    month_in(1, &days_of_months(in_year.number), in_year.day)
}
