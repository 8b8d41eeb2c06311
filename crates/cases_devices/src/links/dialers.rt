//! A dialer in memory under the generic echo: how its runs ended, and what each link that came back had given and taken.

ghost use Rattle.std.specs.Prelude.{◌≡◌, false, IfOk};
ghost use Rattle.std.specs.List.{All};
ghost use Rattle.gw_link_fakes.specs.Tapes.{IsUnused};

use cases_words::{bytes, digits, halves, number};
use gw_link_fakes::{Calls, MemDialer, MemTape};
use gw_links::echo_all;
use gw_outside::Bytes;
use std::alloc::{AllocError, Global};
use std::sync::atomic::AtomicBool;

/// A tape of each word.
fn tapes(alloc: Global, room: usize, words: &str) -> Result<Vec<MemTape>, AllocError>
    ensures unused { IfOk result (λ tapes. All IsUnused tapes.items) }
{
    let mut tapes = Vec::new(alloc);
    for word in words.split(" ") {
        let given = Bytes::from(bytes(alloc, word)?);
        tapes.push(MemTape::without_faults(alloc, given, room)?)?;
    }
    Ok(tapes)
}

/// A dialer whose call of this number fails; of no number, one that never fails.
fn dialer(alloc: Global, fail: &str, tapes: Vec<MemTape>) -> Result<MemDialer, AllocError>
    requires { All IsUnused tapes.items }
    ensures home { IfOk result (λ d. d.is_lent ≡ false) }
{
    if fail == "none" {
        return Ok(MemDialer::without_faults(alloc, tapes));
    }
    let fail = Calls::from(Vec::from_slice(alloc, &[number(fail)])?);
    Ok(MemDialer::new(tapes, fail))
}

/// What the links that came back had given and taken.
fn came_back(alloc: Global, dialer: &MemDialer) -> Result<String, AllocError> {
    let mut shown = String::new(alloc);
    for place in 0..9 {
        if let Some(tape) = dialer.link(place) {
            let given = digits(alloc, tape.given())?;
            let taken = digits(alloc, tape.taken())?;
            shown.push_str(format!(in alloc; ", {given} {taken}")?.as_str())?;
        }
    }
    Ok(shown)
}

/// Two echoes over a dialer, of two connections at most and of all that are left, `FAIL ROOM BYTES BYTES ..`: how they
/// ended, and what came back.
pub fn dialer_line(alloc: Global, rest: &str) -> Result<String, AllocError> {
    let (fail, others) = halves(rest);
    let (room, words) = halves(others);
    let mut dialer = dialer(alloc, fail, tapes(alloc, number(room) as usize, words)?)?;
    let stop = AtomicBool::new(false);
    let mut piece = [0; 4];
    let first = echo_all(&mut dialer, &mut piece, 9, 2, &stop);
    let between = came_back(alloc, &dialer)?;
    let second = echo_all(&mut dialer, &mut piece, 9, 9, &stop);
    let behind = came_back(alloc, &dialer)?;
    format!(in alloc; "dialer {first:?}{between}, {second:?}{behind}")
}
