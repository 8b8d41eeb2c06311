//! What each kind of step on the lock's words tells its pass.
ghost use Rattle.gate_turn.specs.Steps.{Drew, Noted, LookedAt, Served, Published, GaveOn};

use crate::logged::Logged;
use crate::rule::View;
use atomic_table::{Join, Play, Split};

/// The first pass is split, which makes one more.
pub(crate) struct MakesOne;

impl Split<View> for MakesOne {
    ghost use Rattle.gate_turn.specs.Steps.{split_left, split_right};

    ghost left = { split_left };

    ghost right = { split_right };
}

/// A pass that came back is joined into the last one.
pub(crate) struct TakesIn;

impl Join<View> for TakesIn {
    ghost use Rattle.std.specs.Prelude.{[], ◌++◌};

    ghost both = { λ v w. v ++ w };

    ghost spent = { [] };
}

/// A ticket is drawn.
pub(crate) struct Draws;

impl<T> Play<Option<T>, View> for Draws {
    ghost then = { Drew };
}

/// It is noted whether somebody may sleep.
pub(crate) struct Notes;

impl<T> Play<Option<T>, View> for Notes {
    ghost then = { Noted };
}

/// The ticket that is served is read.
pub(crate) struct Waits;

impl<T: Logged> Play<Option<T>, View> for Waits {
    ghost then = { Served T.tells };
}

/// The number of entries is stored.
pub(crate) struct Publishes;

impl<T: Logged> Play<Option<T>, View> for Publishes {
    ghost then = { Published T.tells };
}

/// The next ticket is served.
pub(crate) struct GivesOn;

impl<T: Logged> Play<Option<T>, View> for GivesOn {
    ghost then = { GaveOn T.tells };
}

/// The number of entries is read.
pub(crate) struct Looks;

impl<T> Play<Option<T>, View> for Looks {
    ghost then = { LookedAt };
}
