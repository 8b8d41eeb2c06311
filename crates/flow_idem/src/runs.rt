//! Rising numbers, kept as runs of consecutive ones: the runs that are whole, and the one that may still go on.

ghost use Rattle.std.specs.Prelude.{◌≡◌, ℕ, ◌+◌, ◌-◌, ◌^◌, ◌<◌, ◌≤◌, List, [], ◌∷◌, ◌++◌, length, ◌==◌, slice_get, Some, IfOk, OnOk};
ghost use Rattle.std.specs.List.{list_any};
ghost use Rattle.session_model.specs.Journal.{counts_from};
ghost use Rattle.flow_idem.specs.Runs.{runs_of};

use fixp_msgs::Range;
use std::alloc::{AllocError, Global};
use std::marker::Model;

/// Numbers that rise, without memory for each. The last run is from `first` up to `end`, and empty where they are equal.
#[derive(Drop)]
pub struct Runs {
    whole: Vec<Range>,
    first: u64,
    end: u64,
}

impl Model for Runs {
    ghost use Rattle.std.specs.Prelude.{◌-◌, ◌≤◌, ◌++◌, vec_capacity, vec_len};
    ghost use Rattle.session_model.specs.Journal.{counts_from};
    ghost use Rattle.flow_idem.specs.Runs.{Growing, numbers_in, AreApart};

    ghost Value = { Growing };

    ghost view = { λ r. record { numbers = numbers_in r.whole.items ++ counts_from r.first (r.end - r.first); end = r.end; spare = vec_capacity r.whole - vec_len r.whole } };

    ghost invariant = { λ r. (r.first ≤ r.end) × AreApart r.whole.items r.first };
}

/// Whether `number` is among `count` consecutive numbers from `first` on.
fn counts_to(first: u64, count: u64, number: u64) -> bool
    ensures { result ≡ list_any (λ n. n == number) (counts_from first count) }
{
    first <= number && number - first < count
}

impl Runs {
    /// No number, and room for so many further runs. The first number is to be `end`.
    pub fn new(alloc: Global, end: u64, further: usize) -> Result<Runs, AllocError>
        ensures { IfOk result (λ r. (r.numbers ≡ []) × (r.end ≡ end) × (further ≤ r.spare)) }
    {
        Ok(Runs {
            whole: Vec::with_capacity(alloc, further)?,
            first: end,
            end,
        })
    }

    /// Makes room for so many further runs.
    pub fn reserve(&mut self, further: usize) -> Result<(), AllocError>
        ensures numbers { self.new.numbers ≡ self.old.numbers }
        ensures end { self.new.end ≡ self.old.end }
        ensures spare { self.old.spare ≤ self.new.spare }
        ensures ok { OnOk result (further ≤ self.new.spare) }
    {
        self.whole.reserve(further)
    }

    /// The number behind the last.
    pub fn end(&self) -> u64
        ensures { result ≡ self.now.end }
    {
        self.end
    }

    /// The next number is `number`, and those up to it are none.
    pub fn jump(&mut self, number: u64)
        requires forward { self.old.end ≤ number }
        requires room { 1 ≤ self.old.spare }
        ensures numbers { self.new.numbers ≡ self.old.numbers }
        ensures end { self.new.end ≡ number }
        ensures spare { self.old.spare ≤ self.new.spare + 1 }
    {
        if number == self.end {
            return;
        }
        if self.first < self.end {
            let run = Range {
                from: self.first,
                count: self.end - self.first,
            };
            match self.whole.push(run) {
                Ok(()) => {}
                Err(_) => unreachable!(),
            }
        }
        self.first = number;
        self.end = number;
    }

    /// Takes the number behind the last.
    pub fn go_on(&mut self)
        requires { self.old.end + 1 < 2 ^ 64 }
        ensures numbers { self.new.numbers ≡ self.old.numbers ++ self.old.end ∷ [] }
        ensures end { self.new.end ≡ self.old.end + 1 }
        ensures spare { self.new.spare ≡ self.old.spare }
    {
        self.end += 1;
    }

    /// Forgets all numbers. The number behind the last stays.
    pub fn clear(&mut self)
        ensures numbers { self.new.numbers ≡ [] }
        ensures end { self.new.end ≡ self.old.end }
        ensures spare { self.old.spare ≤ self.new.spare }
    {
        self.whole.clear();
        self.first = self.end;
    }

    /// Whether a number is among them.
    pub fn has(&self, number: u64) -> bool
        ensures { result ≡ list_any (λ n. n == number) self.now.numbers }
    {
        for run in &self.whole {
            if counts_to(run.from, run.count, number) {
                return true;
            }
        }
        counts_to(self.first, self.end - self.first, number)
    }

    /// How many runs there are.
    pub fn count(&self) -> usize
        ensures { result ≡ length (runs_of self.now.numbers) }
    {
        if self.first < self.end {
            self.whole.len() + 1
        } else {
            self.whole.len()
        }
    }

    /// The run at a place, from 0.
    pub fn run(&self, place: usize) -> Range
        requires { place < length (runs_of self.now.numbers) }
        ensures { slice_get (runs_of self.now.numbers) place ≡ Some result }
    {
        if place < self.whole.len() {
            self.whole[place]
        } else {
            Range {
                from: self.first,
                count: self.end - self.first,
            }
        }
    }
}
