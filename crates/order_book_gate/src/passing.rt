//! One pass, in and out of a list of passes.
ghost use Rattle.std.specs.Prelude.{◌≡◌, ◌≢◌, ℕ, None, IfSome};
ghost use Rattle.gate_turn.specs.Listed.{pass_at};

use gate_senders::Kept;
use gate_turn::{Pass, Passes};
use jr_dated::Journal;

/// The list that has a pass of the number 1 alone, if it is there.
pub(crate) fn alone<J: Journal>(pass: Option<Pass<Kept<J>>>) -> Passes<Kept<J>>
    requires number { IfSome pass (λ p. p.number ≡ 1) }
    ensures there { pass_at result 1 ≡ pass }
    ensures others { (n : ℕ) → n ≢ 1 → pass_at result n ≡ None }
{
    match pass {
        None => Passes::new(),
        Some(pass) => {
            let mut passes = Passes::new();
            passes.give(pass);
            passes
        }
    }
}
