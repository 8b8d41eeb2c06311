//! The history that is told of an outbox, and the records whose adding failed. They take no memory, and stand in clauses alone.
ghost use Rattle.std.specs.Borrow.{ftrue};
ghost use Rattle.std.specs.Prelude.{List};
ghost use Rattle.session_model.specs.Journal.{History, OutboxRecord};

use std::marker::{Model, PhantomData};

/// Which histories may be told of a value, and which records as refused.
pub trait Says<X> {
    ghost says: { X → History → List OutboxRecord → Type 0 };
}

/// A history, and the records that were refused behind it. Only clauses read them.
#[derive(Drop)]
pub struct Told {
    marker: PhantomData<()>,
    pub ghost history: { History },
    pub ghost refused: { List OutboxRecord },
}

impl Model for Told {
    ghost also_owns = { λ _. ftrue };
}

impl Told {
    /// One of the histories that may be told of a value, with what may be told as refused.
    pub fn of<X, M: Says<X>>(x: &X) -> Told
        requires found { ∥ ((h : History) × (refused : List OutboxRecord) × M.says x.now h refused) ∥₁ }
        ensures says { M.says x.now result.history result.refused }
    {
        let _ = x;
        Told {
            marker: PhantomData,
        }
    }
}

// It owns nothing.
unsafe impl Send for Told {}

unsafe impl Sync for Told {}
