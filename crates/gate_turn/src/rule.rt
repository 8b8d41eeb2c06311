//! The rule of the lock's words, and what a pass knows.
use crate::logged::Logged;
use atomic_table::TableRule;
use std::marker::{Model, PhantomData};
use std::snapshot::Snapshot;

/// What a pass knows. It stands in clauses alone: no value of it is made.
pub struct View;

impl Model for View {
    ghost use Rattle.std.specs.Prelude.{List, []};
    ghost use Rattle.gate_turn.specs.Views.{Part};

    ghost Value = { List Part };

    ghost view = { λ _. [] };
}

/// The rule of the turn lock. Its key is the value as the lock was made.
pub struct Turning<T> {
    value: PhantomData<T>,
}

impl<T: Logged> TableRule<Option<T>, View, Snapshot<T>> for Turning<T> {
    ghost use Rattle.std.specs.Prelude.{[], ◌∷◌};
    ghost use Rattle.gate_turn.specs.Views.{new_part};
    ghost use Rattle.gate_turn.specs.Rule.{Turns};

    ghost holds = { λ key. Turns T.tells (T.tells key.value) };

    ghost first = { λ key. new_part 1 1 (T.tells key.value) ∷ [] };
}
