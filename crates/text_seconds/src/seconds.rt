//! The text of a second.

ghost use Rattle.std.specs.Prelude.{◌≡◌, ℕ, ◌*◌, ◌<◌, ◌^◌, ◌++◌, Some, codes, OnOk};
ghost use Rattle.text_dates.specs.Dates.{digits, millis_text, seconds_text};

use std::alloc::{AllocError, Global};
use text_dates::push_millis;

/// The bytes behind the seconds of a moment: a point, three digits and a `Z`.
const BEHIND: usize = 5;

/// The second that was written last, and its text.
#[derive(Drop)]
pub struct Seconds {
    /// In seconds since 1970.
    second: Option<u64>,
    text: Vec<u8>,
    ghost kept: { (s : ℕ) → second ≡ Some s → text.items ≡ seconds_text s },
}

/// Adds the milliseconds of a second, below 1,000, as they stand behind it.
#[tactic(auto, unfolding(text_dates::specs::Dates::digits))]
fn push_behind(line: &mut Vec<u8>, milliseconds: u64) -> Result<(), AllocError>
    ensures { OnOk result (line.new.items ≡ line.old.items ++ (codes "." ++ digits 3 milliseconds ++ codes "Z")) }
{
    let digits = [
        b'.',
        b'0' + (milliseconds / 10 / 10 % 10) as u8,
        b'0' + (milliseconds / 10 % 10) as u8,
        b'0' + (milliseconds % 10) as u8,
        b'Z',
    ];
    line.extend_from_slice(&digits)
}

impl Seconds {
    /// No second was written yet.
    pub fn new(alloc: Global) -> Seconds {
        Seconds {
            second: None,
            text: Vec::new(alloc),
        }
    }

    // Keeps the text of a second.
    fn turn_to(&mut self, second: u64) -> Result<(), AllocError>
        requires { second * 1000 < 2 ^ 44 }
        ensures kept { OnOk result (self.new.text.items ≡ seconds_text second) }
    {
        self.second = None;
        self.text.clear();
        push_millis(&mut self.text, second * 1_000)?;
        let size = self.text.len();
        self.text.truncate(size - BEHIND);
        self.second = Some(second);
        Ok(())
    }

    // Keeps the text of a second, where it is not the one that is kept.
    fn keep(&mut self, second: u64) -> Result<(), AllocError>
        requires { second * 1000 < 2 ^ 44 }
        ensures kept { OnOk result (self.new.text.items ≡ seconds_text second) }
    {
        match self.second {
            Some(kept) if kept == second => Ok(()),
            _ => self.turn_to(second),
        }
    }

    /// Adds a moment, given as milliseconds since the beginning of 1970, below 2^44, as a date and a time of day in UTC:
    /// `2026-11-30T09:30:00.000Z`.
    ///
    /// # Errors
    /// Want of memory.
    #[tactic(auto, unfolding(text_dates::specs::Dates::millis_text))]
    pub fn push_millis(&mut self, line: &mut Vec<u8>, milliseconds: u64) -> Result<(), AllocError>
        requires { milliseconds < 2 ^ 44 }
        ensures { OnOk result (line.new.items ≡ line.old.items ++ millis_text milliseconds) }
    {
        self.keep(milliseconds / 1_000)?;
        line.extend_from_slice(self.text.as_slice())?;
        push_behind(line, milliseconds % 1_000)
    }
}
