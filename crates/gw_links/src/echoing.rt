//! An echo over a link and over a dialer: one caller of each, which takes of their contracts what a connection needs.

ghost use Rattle.std.specs.Prelude.{◌≡◌, [], true, false, ◌<◌, length, IfOk, IfSome};
ghost use Rattle.gw_outside.specs.Faults.{HasCause};
ghost use Rattle.gw_links.specs.Echoes.{EchoedAll, EchoedFront, EchoedWhole};
ghost use Rattle.gw_links.specs.declared.echoing.Echoed.TheVariants.{Idle, Part};

use crate::dialer::{Dialer, Next};
use crate::link::{Got, Link};
use crate::send::send_front;
use gw_outside::Failed;
use std::sync::atomic::AtomicBool;

/// How long an echo waits for bytes at once, in milliseconds.
const PATIENCE: u64 = 10;

/// How an echo ended.
#[derive(Clone, Copy, Debug)]
pub enum Echoed {
    /// All that came was taken again, and more may wait.
    Whole,
    /// All that came was taken again, and nothing more waits.
    Idle,
    /// Only a part was taken again, and the rest of the last piece is lost.
    Part,
}

/// Receives once, and sends what came.
fn echo_once<L: Link>(link: &mut L, piece: &mut [u8]) -> Result<Echoed, Failed>
    requires { 0 < length piece.old }
    ensures front { EchoedFront (L.told link.old) (L.told link.new) (L.carried link.old) (L.carried link.new) }
    ensures whole { IfOk result (λ how. (how ≡ Part → ⊥) → EchoedWhole (L.told link.old) (L.told link.new) (L.carried link.old) (L.carried link.new)) }
    ensures idle { result ≡ Ok Idle → IfSome (L.told link.new) (λ t. t.waits ≡ []) }
    ensures stays { L.place link.new ≡ L.place link.old }
    ensures cause { HasCause (L.faults link.old) (L.faults link.new) result }
{
    let Got::Bytes(count) = link.recv(piece, PATIENCE)? else {
        return Ok(Echoed::Idle);
    };
    let (came, _) = piece.split_at(count);
    if send_front(link, came)? < count {
        return Ok(Echoed::Part);
    }
    Ok(Echoed::Whole)
}

/// Sends what comes over a link, `rounds` pieces of it at most, until nothing waits or the link takes less than came.
///
/// # Errors
/// `Failed` where the link failed.
pub fn echo<L: Link>(link: &mut L, piece: &mut [u8], rounds: u64) -> Result<Echoed, Failed>
    requires { 0 < length piece.old }
    ensures front { EchoedFront (L.told link.old) (L.told link.new) (L.carried link.old) (L.carried link.new) }
    ensures whole { IfOk result (λ how. (how ≡ Part → ⊥) → EchoedWhole (L.told link.old) (L.told link.new) (L.carried link.old) (L.carried link.new)) }
    ensures idle { result ≡ Ok Idle → IfSome (L.told link.new) (λ t. t.waits ≡ []) }
    ensures stays { L.place link.new ≡ L.place link.old }
    ensures cause { HasCause (L.faults link.old) (L.faults link.new) result }
{
    for _ in 0..rounds {
        match echo_once(link, piece)? {
            Echoed::Whole => {}
            how => return Ok(how),
        }
    }
    Ok(Echoed::Whole)
}

/// Echoes over one connection after another, `most` of them at most, until the dialer is told to stop, and answers whether none is
/// left. A connection whose link fails is over, and the next one follows.
///
/// # Errors
/// `Failed` where the dialer failed.
pub fn echo_all<N: Dialer>(
    dialer: &mut N,
    piece: &mut [u8],
    rounds: u64,
    most: u64,
    stop: &AtomicBool,
) -> Result<bool, Failed>
    requires piece { 0 < length piece.old }
    requires lent { N.lent dialer.old ≡ false }
    ensures told { EchoedAll (N.told dialer.old) (N.told dialer.new) }
    ensures none { result ≡ Ok true → IfSome (N.told dialer.new) (λ t. t.left ≡ 0) }
    ensures lent { N.lent dialer.new ≡ false }
    ensures cause { HasCause (N.faults dialer.old) (N.faults dialer.new) result }
{
    for _ in 0..most {
        let mut link = match dialer.next(stop)? {
            Next::Link(link) => link,
            Next::NoneLeft => return Ok(true),
            Next::Stopped => return Ok(false),
        };
        let _ = echo(&mut link, piece, rounds);
        dialer.back(link);
    }
    Ok(false)
}
