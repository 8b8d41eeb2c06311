//! Sending until a link takes nothing.

ghost use Rattle.std.specs.Prelude.{◌≡◌, [], ◌<◌, ◌≤◌, length, take, IfOk, IfSome, OnErr};
ghost use Rattle.gw_outside.specs.Faults.{HasCause};
ghost use Rattle.gw_links.specs.Links.{Moved, TookFront};

use crate::link::Link;
use gw_outside::Failed;

/// Sends from the front of `bytes` until all are taken or the link takes none, and answers how many it took.
///
/// # Errors
/// `Failed` where the link failed: it has taken some bytes from the front.
pub fn send_front<L: Link>(link: &mut L, bytes: &[u8]) -> Result<usize, Failed>
    ensures count { IfOk result (λ n. n ≤ length bytes.now) }
    ensures moves { IfOk result (λ n. Moved (L.told link.old) (L.told link.new) (L.carried link.old) (L.carried link.new) [] (take n bytes.now)) }
    ensures full { IfOk result (λ n. n < length bytes.now → IfSome (L.told link.new) (λ t. t.room ≡ 0)) }
    ensures front { OnErr result (TookFront (L.told link.old) (L.told link.new) (L.carried link.old) (L.carried link.new) bytes.now) }
    ensures stays { L.place link.new ≡ L.place link.old }
    ensures cause { HasCause (L.faults link.old) (L.faults link.new) result }
{
    let mut rest = bytes;
    while !rest.is_empty() {
        let taken = link.send(rest)?;
        if taken == 0 {
            break;
        }
        let (_, after) = rest.split_at(taken);
        rest = after;
    }
    Ok(bytes.len() - rest.len())
}
