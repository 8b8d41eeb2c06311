//! A dialer: one connection after another. What one tells of them is optional: memory tells it, sockets do not.

ghost use Rattle.std.specs.Prelude.{◌≡◌, ℕ, Bool, true, false, Option, IsTrue, is_some, IfOk, IfSome, OnErr};
ghost use Rattle.std.specs.Option.{option_map};
ghost use Rattle.gw_outside.specs.Faults.{HasCause};
ghost use Rattle.gw_links.specs.Links.{CarriedNothing};
ghost use Rattle.gw_links.specs.Dialers.{DialerTold, IsLeft, dialed, link_in, returned};

use crate::link::Link;
use gw_outside::Failed;
use std::sync::atomic::AtomicBool;

/// What a dialer answers that did not fail.
pub enum Next<L> {
    /// The next connection.
    Link(L),
    /// No connection is left.
    NoneLeft,
    /// It was told to stop before a connection came.
    Stopped,
}

/// What ends a wait of the link that a dialer has lent, from another thread. No clause speaks of it: how long a link waits is free.
pub trait Wake {
    /// The wait that is under way, or else the next one, ends at once. It does not block, and a wake that fails is none: the wait then
    /// ends as it would have without it.
    fn wake(&self);
}

/// What wakes nothing: of links that do not wait.
#[derive(Clone, Copy, Drop)]
pub struct NoWaker;

impl Wake for NoWaker {
    fn wake(&self) {}
}

/// Connections, of which at most one is lent at a time.
pub trait Dialer {
    /// What carries the bytes of a connection.
    type Link: Link;

    /// What wakes its links.
    type Waker: Wake + Sync + Drop;

    /// How many connections are left, and what each link that came back had carried, or `None` where it does not tell them.
    ghost told: { Self → Option DialerTold };

    /// Whether a link that it gave has not come back yet.
    ghost lent: { Self → Bool };

    /// How many calls of `next` have failed; it never falls.
    ghost faults: { Self → ℕ };

    /// The next connection, or that none is left. Where it has to wait it looks at `stop`, and is to answer `Stopped` soon behind
    /// the moment at which it sees it set, and only there: no clause can speak of the flag, so when a dialer stops is free. Behind
    /// `Stopped` it is as it was.
    ///
    /// # Errors
    /// `Failed` where the dialer failed: it gave no connection, and has as many left as before.
    fn next(&mut self, stop: &AtomicBool) -> Result<Next<Self::Link>, Failed>
        requires { lent self.old ≡ false }
        ensures left { IfOk result (λ next. IfSome (told self.old) (λ t. IsLeft t.left next)) }
        ensures told { told self.new ≡ option_map (dialed result) (told self.old) }
        ensures fresh { IfOk result (λ next. IfSome (link_in next) (λ l. CarriedNothing (Self.Link.carried l))) }
        ensures tells { IfOk result (λ next. IfSome (link_in next) (λ l. IsTrue (is_some (told self.old)) → IsTrue (is_some (Self.Link.carried l)))) }
        ensures lent { IfOk result (λ next. lent self.new ≡ is_some (link_in next)) }
        ensures lent_none { OnErr result (lent self.new ≡ false) }
        ensures cause { HasCause (faults self.old) (faults self.new) result };

    /// What wakes the link that is lent while it waits, for another thread.
    fn waker(&self) -> Self::Waker;

    /// Takes back the link that `next` gave last, at the end of its connection. It takes no memory and cannot fail.
    fn back(&mut self, link: Self::Link)
        requires { lent self.old ≡ true }
        ensures told { told self.new ≡ option_map (returned (Self.Link.carried link)) (told self.old) }
        ensures lent { lent self.new ≡ false }
        ensures faults { faults self.new ≡ faults self.old };
}
