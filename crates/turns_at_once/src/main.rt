//! Two threads write into one book under a turn lock. It prints how many entries the book then has, and of whom.
//! It shows that the lock's contracts are enough for a caller, and runs them.
#![tactic(auto)]

ghost use Rattle.std.specs.Prelude.{◌≡◌, ◌≢◌, ℕ, None, Some};
ghost use Rattle.gate_turn.specs.Places.{known};
ghost use Rattle.gate_turn.specs.Listed.{pass_at};
ghost use Rattle.gate_turn.specs.Calls.{HasBack, IsFree, IsPassOf, MadeWith, opened_with};
ghost use Rattle.turns_at_once.specs.Told.{told_by};

mod book;
mod submit;

use crate::book::{Book, Writes};
use crate::submit::submit;
use gate_turn::{Pass, Passes, TurnLock};
use std::sync::Wait;
use std::thread::Threads;
use std::{io, thread};

/// How many entries each thread submits.
const MANY: u64 = 20_000;

/// Submits so many entries, and gives the pass back.
fn submit_all<T: Writes, R: Wait>(
    rt: &R,
    lock: &TurnLock<T>,
    mut pass: Pass<T>,
    many: u64,
) -> Pass<T>
    requires own { IsPassOf lock.now pass }
    requires free { IsFree pass }
    ensures own { IsPassOf lock.entry.now result }
    ensures free { IsFree result }
    ensures kept { ((known result).number ≡ (known pass).number) × ((known result).made ≡ (known pass).made) }
{
    for _ in 0..many {
        submit(lock, &mut pass, rt);
    }
    pass
}

/// The pass of a number that the list has.
fn taken(lock: &TurnLock<Book>, passes: &mut Passes<Book>, number: u16) -> Pass<Book>
    requires back { HasBack lock.now passes.old number }
    ensures there { Some result ≡ pass_at passes.old number }
    ensures own { IsPassOf lock.now result }
    ensures free { IsFree result }
    ensures gone { pass_at passes.new number ≡ None }
    ensures others { (n : ℕ) → n ≢ number → pass_at passes.new n ≡ pass_at passes.old n }
{
    let Some(pass) = passes.take(number) else {
        unreachable!()
    };
    pass
}

/// Two threads submit at once, through the two passes that the lock was made with. The value that they wrote into comes out.
fn at_once<R: Threads + Wait + Sync>(rt: &R, lock: TurnLock<Book>, mut passes: Passes<Book>) -> Book
    requires made { MadeWith lock passes 2 (told_by (opened_with lock)) }
{
    let first = taken(&lock, &mut passes, 1);
    let second = taken(&lock, &mut passes, 2);
    let shared = &lock;
    let (first, second) = thread::join(
        rt,
        move || -> Pass<Book>
            requires { IsPassOf shared.now first × IsFree first }
            ensures { IsPassOf shared.entry.now result × IsFree result × ((known result).number ≡ (known first).number) × ((known result).made ≡ (known first).made) }
        { submit_all(rt, shared, first, MANY) },
        move || -> Pass<Book>
            requires { IsPassOf shared.now second × IsFree second }
            ensures { IsPassOf shared.entry.now result × IsFree result × ((known result).number ≡ (known second).number) × ((known result).made ≡ (known second).made) }
        { submit_all(rt, shared, second, MANY) },
    );
    passes.give(first);
    passes.give(second);
    lock.close(passes)
}

fn main(rt: HostRuntime) -> io::Result<()> {
    let alloc = rt.alloc();
    let Ok((lock, passes)) = TurnLock::new(alloc, Book::new(alloc), 2) else {
        return println!(rt; "want of memory");
    };
    let book = at_once(&rt, lock, passes);
    let writers = book.writers();
    for sender in 1..3u16 {
        let count = writers.iter().filter(|w| **w == sender).count();
        println!(rt; "sender {sender}: {count}")?;
    }
    println!(rt; "entries: {}", writers.len())
}
