//! A dialer in memory: it gives tapes in order, and keeps each one that comes back in its old place.

ghost use Rattle.std.specs.Prelude.{◌≡◌, ◌↔◌, [], ◌+◌, ◌-◌, ◌<◌, ◌≤◌, ◌++◌, ◌∷◌, IsTrue, Some, IfOk, IsSome, IfSome, slice_index_or, OnErr, Ok, true, false, is_ok, is_some, length, not, map};
ghost use Rattle.std.specs.List.{All};
ghost use Rattle.gw_outside.specs.Faults.{HasCause};
ghost use Rattle.gw_links.specs.Dialers.{IsLeft, dialed, link_in, returned};
ghost use Rattle.gw_links.specs.declared.dialer.Next.TheVariants as nexts;
ghost use Rattle.gw_link_fakes.specs.Dialing.{came_back, lent_out, new_dialer, told_of_dialer};
ghost use Rattle.gw_link_fakes.specs.Tallies.{fails};
ghost use Rattle.gw_link_fakes.specs.Tapes.{IsUnused, carried_of};

use crate::tally::Tally;
use crate::tape::MemTape;
use gw_fakes::Calls;
use gw_links::{Dialer, Next, NoWaker};
use gw_outside::Failed;
use std::alloc::Global;
use std::collections::VecDeque;
use std::marker::Model;
use std::sync::atomic::AtomicBool;

/// A dialer over tapes. Those that are left stand in front, and those that came back behind them, so that they are in
/// their old order again when all came back. It waits for nothing, and so it never stops.
#[derive(Drop)]
pub struct MemDialer {
    links: VecDeque<MemTape>,
    left: usize,
    is_lent: bool,
    tally: Tally,
}

impl Model for MemDialer {
    ghost use Rattle.std.specs.Prelude.{◌≡◌, ◌≤◌, ◌<◌, length, take, drop, true};
    ghost use Rattle.std.specs.VecDeque.{deque_capacity};
    ghost use Rattle.std.specs.List.{All};
    ghost use Rattle.gw_link_fakes.specs.Dialing.{Dialed};
    ghost use Rattle.gw_link_fakes.specs.Tapes.{IsUnused};

    ghost Value = { Dialed };

    ghost view = { λ d. record { left = take d.left d.links.items; back = drop d.left d.links.items; is_lent = d.is_lent; tally = d.tally } };

    ghost invariant = { λ d. (d.left ≤ length d.links.items) × (d.is_lent ≡ true → length d.links.items < deque_capacity d.links) × All IsUnused (take d.left d.links.items) };
}

impl MemDialer {
    /// A dialer that gives these links in order, and whose calls of `next` in `fail` fail.
    pub fn new(links: Vec<MemTape>, fail: Calls) -> MemDialer
        requires { All IsUnused links.items }
        ensures { result ≡ new_dialer links.items fail }
    {
        let left = links.len();
        MemDialer {
            links: VecDeque::from_vec(links),
            left,
            is_lent: false,
            tally: Tally::new(fail),
        }
    }

    /// A dialer that gives these links in order, and never fails.
    pub fn without_faults(alloc: Global, links: Vec<MemTape>) -> MemDialer
        requires { All IsUnused links.items }
        ensures { result ≡ new_dialer links.items [] }
    {
        MemDialer::new(links, Calls::from(Vec::new(alloc)))
    }

    /// The link that came back as this one of all, counted from 0, or `None` where so many have not come back.
    pub fn link(&self, place: usize) -> Option<&MemTape>
        ensures there { IsSome result ↔ (place < length self.now.back) }
        ensures value { IfSome result (λ link. link.now ≡ slice_index_or self.now.back place link.now) }
    {
        let place = self.left.checked_add(place)?;
        self.links.get(place)
    }
}

impl Dialer for MemDialer {
    type Link = MemTape;

    type Waker = NoWaker;

    ghost told = { λ d. Some (told_of_dialer d) };

    ghost lent = { λ d. d.is_lent };

    ghost faults = { λ d. d.tally.faults };

    fn next(&mut self, _stop: &AtomicBool) -> Result<Next<MemTape>, Failed>
        requires { self.old.is_lent ≡ false }
        ensures left { IfOk result (λ next. IsLeft (length self.old.left) next) }
        ensures told { Some (told_of_dialer self.new) ≡ Some (dialed result (told_of_dialer self.old)) }
        ensures fresh { IfOk result (λ next. IfSome (link_in next) IsUnused) }
        ensures lent { IfOk result (λ next. self.new.is_lent ≡ is_some (link_in next)) }
        ensures lent_none { OnErr result (self.new.is_lent ≡ false) }
        ensures cause { HasCause self.old.tally.faults self.new.tally.faults result }

        // Exactly the calls that are to fail do, and every other gives the next link, where one is left; none stops.
        ensures fails { is_ok result ≡ not (fails self.old.tally) }
        ensures after { self.new ≡ lent_out self.old }
        ensures first { IfOk result (λ next. IfSome (link_in next) (λ l. self.old.left ≡ l ∷ self.new.left)) }
        ensures goes_on { result ≡ Ok nexts.Stopped → ⊥ }
    {
        self.tally.meet()?;
        if self.left == 0 {
            return Ok(Next::NoneLeft);
        }
        let Some(link) = self.links.pop_front() else {
            unreachable!()
        };
        self.left -= 1;
        self.is_lent = true;
        Ok(Next::Link(link))
    }

    fn waker(&self) -> NoWaker {
        NoWaker
    }

    fn back(&mut self, link: MemTape)
        requires { self.old.is_lent ≡ true }
        ensures told { Some (told_of_dialer self.new) ≡ Some (returned (Some (carried_of link)) (told_of_dialer self.old)) }
        ensures lent { self.new.is_lent ≡ false }
        ensures faults { self.new.tally.faults ≡ self.old.tally.faults }
        ensures after { self.new ≡ came_back link self.old }
    {
        self.links.push_back_reserved(link);
        self.is_lent = false;
    }
}
