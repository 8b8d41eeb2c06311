//! A dialer over guests, which hands on only those that give the keys.

ghost use Rattle.std.specs.Prelude.{◌≡◌, ◌≢◌, true, false, IfOk, IfSome, IsTrue, OnErr, is_some};
ghost use Rattle.std.specs.Option.{option_map};
ghost use Rattle.gw_outside.specs.Faults.{HasCause};
ghost use Rattle.gw_links.specs.Links.{CarriedNothing};
ghost use Rattle.gw_links.specs.Dialers.{IsLeft, dialed, link_in, returned};
ghost use Rattle.conn_keys.specs.Known.{IsKnown, LooksKnown, IsStranger, TurnsStrangers, knowing};
ghost use Rattle.conn_keys.specs.Verdicts.{verdict_of, serves};

use crate::judging::{LOOKED_AT, Verdict, judge};
use crate::keys::Keys;
use gw_guests::{Arrived, Guests, Peek, Wakes};
use gw_links::{Dialer, Next};
use gw_outside::Failed;
use std::sync::atomic::AtomicBool;

/// A dialer over guests. It looks at what came first of each, and hands on the link of one whose first frame gives the keys, with all its bytes. It turns
/// away any other, untold, also one whose first frame is not whole yet: whoever holds guests until it is has judged them before.
#[derive(Drop)]
pub struct Knowing<G> {
    guests: G,
    keys: Keys,
    /// How many more links it hands on.
    left: u64,
}

impl<G> Knowing<G> {
    /// A dialer that hands on `left` of these guests at most, each of which gives these keys.
    pub fn new(guests: G, keys: Keys, left: u64) -> Knowing<G>
        ensures { result ≡ record { guests = guests; keys = keys; left = left } }
    {
        Knowing { guests, keys, left }
    }

    /// The guests.
    pub fn guests(&self) -> &G
        ensures { result.now ≡ self.now.guests }
    {
        &self.guests
    }
}

/// Whether what came gives these keys.
fn is_served(keys: &Keys, came: &[u8]) -> bool
    ensures yes { result ≡ true → verdict_of keys.now came.now ≡ serves }
    ensures no { result ≡ false → verdict_of keys.now came.now ≢ serves }
{
    matches!(judge(keys, came), Verdict::Serve)
}

/// Whether what came first over this link gives these keys. Where the link fails it does not.
fn gives_keys<L: Peek>(keys: &Keys, link: &mut L) -> bool
    ensures yes { result ≡ true → LooksKnown keys.now (L.told link.new) }
    ensures no { result ≡ false → IsStranger keys.now (record { told = L.told link.new; faults = L.faults link.new }) }
    ensures carried { L.carried link.new ≡ L.carried link.old }
{
    let mut front = [0; LOOKED_AT];
    match link.peek(&mut front) {
        Ok(count) => {
            let (came, _) = front.split_at(count);
            is_served(keys, came)
        }
        Err(_) => false,
    }
}

/// The next guest that gives these keys, or `None` where it was told to stop before one came. All that came before it are turned away.
fn known_guest<G: Guests>(
    guests: &mut G,
    keys: &Keys,
    stop: &AtomicBool,
) -> Result<Option<G::Link>, Failed>
    requires { G.lent guests.old ≡ false }
    ensures knows { IfOk result (λ found. IfSome found (λ l. IsKnown keys.now (G.Link.told l))) }
    ensures turned { TurnsStrangers keys.now (G.told guests.old) (G.told guests.new) }
    ensures fresh { IfOk result (λ found. IfSome found (λ l. CarriedNothing (G.Link.carried l))) }
    ensures tells { IfOk result (λ found. IfSome found (λ l. IsTrue (is_some (G.told guests.old)) → IsTrue (is_some (G.Link.carried l)))) }
    ensures lent { IfOk result (λ found. G.lent guests.new ≡ is_some found) }
    ensures lent_none { OnErr result (G.lent guests.new ≡ false) }
    ensures cause { HasCause (G.faults guests.old) (G.faults guests.new) result }
{
    'guests: for _ in 0..u64::MAX {
        let mut link = match guests.arrive(stop)? {
            Arrived::Guest(link) => link,
            Arrived::Stopped => return Ok(None),
        };
        if gives_keys(keys, &mut link) {
            return Ok(Some(link));
        }
        guests.away(link);
    }
    // So many do not come in the life of a program.
    Ok(None)
}

impl<G: Guests + Wakes> Dialer for Knowing<G> {
    type Link = G::Link;

    type Waker = G::Waker;

    ghost told = { λ d. option_map (knowing d.left) (G.told d.guests) };

    ghost lent = { λ d. G.lent d.guests };

    ghost faults = { λ d. G.faults d.guests };

    fn next(&mut self, stop: &AtomicBool) -> Result<Next<G::Link>, Failed>
        requires { G.lent self.old.guests ≡ false }
        ensures left { IfOk result (λ next. IfSome (option_map (knowing self.old.left) (G.told self.old.guests)) (λ t. IsLeft t.left next)) }
        ensures told { option_map (knowing self.new.left) (G.told self.new.guests) ≡ option_map (dialed result) (option_map (knowing self.old.left) (G.told self.old.guests)) }
        ensures fresh { IfOk result (λ next. IfSome (link_in next) (λ l. CarriedNothing (G.Link.carried l))) }
        ensures tells { IfOk result (λ next. IfSome (link_in next) (λ l.
            IsTrue (is_some (option_map (knowing self.old.left) (G.told self.old.guests))) → IsTrue (is_some (G.Link.carried l)))) }
        ensures lent { IfOk result (λ next. G.lent self.new.guests ≡ is_some (link_in next)) }
        ensures lent_none { OnErr result (G.lent self.new.guests ≡ false) }
        ensures cause { HasCause (G.faults self.old.guests) (G.faults self.new.guests) result }

        // What waits at the link that is handed on begins with a frame that gives the keys, and all that were turned away before it gave none.
        ensures knows { IfOk result (λ next. IfSome (link_in next) (λ l. IsKnown self.old.keys (G.Link.told l))) }
        ensures turned { TurnsStrangers self.old.keys (G.told self.old.guests) (G.told self.new.guests) }
        ensures keys { self.new.keys ≡ self.old.keys }
    {
        if self.left == 0 {
            return Ok(Next::NoneLeft);
        }
        match known_guest(&mut self.guests, &self.keys, stop)? {
            Some(link) => {
                self.left -= 1;
                Ok(Next::Link(link))
            }
            None => Ok(Next::Stopped),
        }
    }

    fn waker(&self) -> G::Waker {
        self.guests.waker()
    }

    fn back(&mut self, link: G::Link)
        requires { G.lent self.old.guests ≡ true }
        ensures told { option_map (knowing self.new.left) (G.told self.new.guests) ≡ option_map (returned (G.Link.carried link)) (option_map (knowing self.old.left) (G.told self.old.guests)) }
        ensures lent { G.lent self.new.guests ≡ false }
        ensures faults { G.faults self.new.guests ≡ G.faults self.old.guests }
        ensures keys { self.new.keys ≡ self.old.keys }
    {
        self.guests.back(link);
    }
}
