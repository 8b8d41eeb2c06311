//! A listener in memory: guests who come in order.

ghost use Rattle.std.specs.Prelude.{◌≡◌, [], ◌∷◌, Some, IfOk, IfSome, OnErr, true, false, is_some};
ghost use Rattle.std.specs.List.{All};
ghost use Rattle.gw_outside.specs.Faults.{HasCause};
ghost use Rattle.gw_links.specs.Links.{CarriedNothing};
ghost use Rattle.gw_guests.specs.Guests.{guest_in, turned_away};
ghost use Rattle.gw_guests.specs.Guests as trait_says;
ghost use Rattle.gw_guest_fakes.specs.Guests.{Guest, IsFresh, new_hall, told_of_hall, faults_of, arrived, came_back, sent_away};
ghost use Rattle.gw_link_fakes.specs.Tapes.{told_of, carried_of};

use crate::guest::MemGuest;
use gw_guests::{Arrived, Guests, Wakes};
use gw_links::NoWaker;
use gw_outside::Failed;
use std::alloc::{AllocError, Global};
use std::collections::VecDeque;
use std::marker::Model;
use std::sync::atomic::AtomicBool;

/// Guests who come in order; those that came back and those that were turned away are kept, each in order. Once all came it answers that it was told to
/// stop. It never fails.
#[derive(Drop)]
pub struct MemGuests {
    coming: VecDeque<MemGuest>,
    back: Vec<MemGuest>,
    away: Vec<MemGuest>,
    is_lent: bool,
}

impl Model for MemGuests {
    ghost use Rattle.std.specs.Prelude.{◌≡◌, ◌≤◌, ◌<◌, ◌+◌, length, true, vec_capacity};
    ghost use Rattle.std.specs.List.{All};
    ghost use Rattle.gw_guest_fakes.specs.Guests.{Hall, IsFresh};

    ghost Value = { Hall };

    ghost view = { λ h. record { coming = h.coming.items; back = h.back.items; away = h.away.items; is_lent = h.is_lent } };

    ghost invariant = { λ h. All IsFresh h.coming.items
        × (length h.coming.items + length h.back.items ≤ vec_capacity h.back)
        × (length h.coming.items + length h.away.items ≤ vec_capacity h.away)
        × (h.is_lent ≡ true → (length h.coming.items + length h.back.items < vec_capacity h.back) × (length h.coming.items + length h.away.items < vec_capacity h.away)) };
}

impl MemGuests {
    /// These guests come, in order.
    ///
    /// # Errors
    /// Want of memory for those that come back or are turned away.
    pub fn new(alloc: Global, guests: Vec<MemGuest>) -> Result<MemGuests, AllocError>
        requires { All IsFresh guests.items }
        ensures { IfOk result (λ h. h ≡ new_hall guests.items) }
    {
        let back = Vec::with_capacity(alloc, guests.len())?;
        let away = Vec::with_capacity(alloc, guests.len())?;
        Ok(MemGuests {
            coming: VecDeque::from_vec(guests),
            back,
            away,
            is_lent: false,
        })
    }

    /// Those that came back, in order.
    pub fn came_back(&self) -> &[MemGuest]
        ensures { result.now ≡ self.now.back }
    {
        self.back.as_slice()
    }

    /// Those that were turned away, in order.
    pub fn turned_away(&self) -> &[MemGuest]
        ensures { result.now ≡ self.now.away }
    {
        self.away.as_slice()
    }
}

impl Guests for MemGuests {
    type Link = MemGuest;

    ghost told = { λ h. Some (told_of_hall h) };

    ghost lent = { λ h. h.is_lent };

    ghost faults = { λ h. 0 };

    fn arrive(&mut self, _stop: &AtomicBool) -> Result<Arrived<MemGuest>, Failed>
        requires { self.old.is_lent ≡ false }
        ensures told { Some (told_of_hall self.new) ≡ Some (told_of_hall self.old) }
        ensures fresh { IfOk result (λ a. IfSome (guest_in a) (λ g. CarriedNothing (Some (carried_of g.tape)))) }
        ensures unfailed { IfOk result (λ a. IfSome (guest_in a) (λ g. faults_of g ≡ 0)) }
        ensures lent { IfOk result (λ a. self.new.is_lent ≡ is_some (guest_in a)) }
        ensures lent_none { OnErr result (self.new.is_lent ≡ false) }
        ensures cause { HasCause 0 0 result }

        // The next one comes, where one is left.
        ensures after { self.new ≡ arrived self.old }
        ensures first { IfOk result (λ a. IfSome (guest_in a) (λ g. self.old.coming ≡ g ∷ self.new.coming)) }
    {
        match self.coming.pop_front() {
            Some(guest) => {
                self.is_lent = true;
                Ok(Arrived::Guest(guest))
            }
            None => Ok(Arrived::Stopped),
        }
    }

    fn away(&mut self, link: MemGuest)
        requires { self.old.is_lent ≡ true }
        ensures told { Some (told_of_hall self.new) ≡ Some (turned_away (Some (told_of link.tape)) (faults_of link) (told_of_hall self.old)) }
        ensures lent { self.new.is_lent ≡ false }
        ensures after { self.new ≡ sent_away link self.old }
    {
        self.away.push_reserved(link);
        self.is_lent = false;
    }

    fn back(&mut self, link: MemGuest)
        requires { self.old.is_lent ≡ true }
        ensures told { Some (told_of_hall self.new) ≡ Some (trait_says.came_back (Some (carried_of link.tape)) (told_of_hall self.old)) }
        ensures lent { self.new.is_lent ≡ false }
        ensures after { self.new ≡ came_back link self.old }
    {
        self.back.push_reserved(link);
        self.is_lent = false;
    }
}

impl Wakes for MemGuests {
    type Waker = NoWaker;

    fn waker(&self) -> NoWaker {
        NoWaker
    }
}
