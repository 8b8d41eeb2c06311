//! The history that an opened outbox holds, and the list that an opened inbox holds. They take no memory, and stand in clauses alone.

ghost use Rattle.std.specs.Borrow.{ftrue};
ghost use Rattle.std.specs.Prelude.{List};
ghost use Rattle.session_model.specs.Journal.{History};
ghost use Rattle.session_model.specs.Inbox.{InboxRecord};

use jr_dated::Journal;
use jr_kept::{Inbox, Outbox};
use std::marker::{Model, PhantomData};

/// Which histories and which lists may be found of a value.
pub trait Finds<X> {
    ghost finds: { X → History → List InboxRecord → Type 0 };
}

/// A history and a list that were found. Only clauses read them.
#[derive(Drop)]
pub struct Found {
    marker: PhantomData<()>,
    pub ghost history: { History },
    pub ghost list: { List InboxRecord },
}

impl Model for Found {
    ghost also_owns = { λ _. ftrue };
}

impl Found {
    /// A history and a list that may be found of a value.
    pub fn of<X, M: Finds<X>>(x: &X) -> Found
        requires some { ∥ ((h : History) × (list : List InboxRecord) × M.finds x.now h list) ∥₁ }
        ensures finds { M.finds x.now result.history result.list }
    {
        let _ = x;
        Found {
            marker: PhantomData,
        }
    }
}

/// A history that an outbox holds, and no list.
pub struct OfOutbox;

impl<J: Journal> Finds<Outbox<J>> for OfOutbox {
    ghost use Rattle.std.specs.Prelude.{◌≡◌, []};
    ghost use Rattle.jr_kept.specs.Outbox.{HoldsBox};

    ghost finds = { λ box h list. HoldsBox box h [] × (list ≡ []) };
}

/// A list that an inbox holds, with no history.
pub struct OfInbox;

impl<J: Journal> Finds<Inbox<J>> for OfInbox {
    ghost use Rattle.std.specs.Prelude.{◌≡◌, [], false};
    ghost use Rattle.jr_kept.specs.Inbox.{HoldsBox};

    ghost finds = { λ box h list. HoldsBox box list [] × (h ≡ record { made = []; finished = false }) };
}
