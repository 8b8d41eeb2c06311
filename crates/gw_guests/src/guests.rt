//! Guests: one connection after another, of whoever comes. What a listener tells of them is optional: memory tells it, sockets do not.

ghost use Rattle.std.specs.Prelude.{◌≡◌, ℕ, Bool, true, false, Option, IsTrue, is_some, IfOk, IfSome, OnErr};
ghost use Rattle.std.specs.Option.{option_map};
ghost use Rattle.gw_outside.specs.Faults.{HasCause};
ghost use Rattle.gw_links.specs.Links.{CarriedNothing};
ghost use Rattle.gw_guests.specs.Guests.{GuestsTold, guest_in, came_back, turned_away};

use crate::peek::Peek;
use gw_links::Wake;
use gw_outside::Failed;
use std::sync::atomic::AtomicBool;

/// What came, where a listener did not fail.
pub enum Arrived<L> {
    /// The next guest.
    Guest(L),
    /// It was told to stop before a guest came.
    Stopped,
}

/// Connections of whoever comes, of which at most one is lent at a time: each is turned away, or used and given back.
pub trait Guests {
    /// What carries the bytes of a guest.
    type Link: Peek;

    /// What each link that was used and came back had carried, and what each that was turned away had told; or `None` where it does not tell them.
    ghost told: { Self → Option GuestsTold };

    /// Whether a link that it gave has neither come back nor been turned away yet.
    ghost lent: { Self → Bool };

    /// How many calls of `arrive` have failed; it never falls.
    ghost faults: { Self → ℕ };

    /// The next guest, of whom nothing was taken and whose link has not failed. Where it has to wait it looks at `stop`, and is to answer `Stopped`
    /// soon behind the moment at which it sees it set, and only there: no clause can speak of the flag, so when it stops is free.
    ///
    /// # Errors
    /// `Failed` where the listener failed: it gave no guest.
    fn arrive(&mut self, stop: &AtomicBool) -> Result<Arrived<Self::Link>, Failed>
        requires { lent self.old ≡ false }
        ensures told { told self.new ≡ told self.old }
        ensures fresh { IfOk result (λ a. IfSome (guest_in a) (λ l. CarriedNothing (Self.Link.carried l))) }
        ensures unfailed { IfOk result (λ a. IfSome (guest_in a) (λ l. Self.Link.faults l ≡ 0)) }
        ensures tells { IfOk result (λ a. IfSome (guest_in a) (λ l. IsTrue (is_some (told self.old)) → IsTrue (is_some (Self.Link.carried l)))) }
        ensures lent { IfOk result (λ a. lent self.new ≡ is_some (guest_in a)) }
        ensures lent_none { OnErr result (lent self.new ≡ false) }
        ensures cause { HasCause (faults self.old) (faults self.new) result };

    /// Turns away the guest that came last, of whom nothing was taken. It takes no memory and cannot fail.
    fn away(&mut self, link: Self::Link)
        requires { lent self.old ≡ true }
        ensures told { told self.new ≡ option_map (turned_away (Self.Link.told link) (Self.Link.faults link)) (told self.old) }
        ensures lent { lent self.new ≡ false }
        ensures faults { faults self.new ≡ faults self.old };

    /// Takes back the link of the guest that came last, at the end of its connection. It takes no memory and cannot fail.
    fn back(&mut self, link: Self::Link)
        requires { lent self.old ≡ true }
        ensures told { told self.new ≡ option_map (came_back (Self.Link.carried link)) (told self.old) }
        ensures lent { lent self.new ≡ false }
        ensures faults { faults self.new ≡ faults self.old };
}

/// Guests whose links wait, and can be woken from another thread.
pub trait Wakes {
    /// What wakes them.
    type Waker: Wake + Sync + Drop;

    /// What wakes the link that is lent while it waits, for another thread.
    fn waker(&self) -> Self::Waker;
}
