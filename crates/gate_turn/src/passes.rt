//! The passes of one lock, while nobody uses them.
ghost use Rattle.gate_turn.specs.Places.{InPlace};

use crate::pass::Pass;

/// A list of passes, with a place of its own for each number from 1 to 18, so that none of its calls takes memory.
#[derive(Drop)]
pub struct Passes<T> {
    places: [Option<Pass<T>>; 18],
    ghost in_place: { InPlace places },
}

impl<T> Passes<T> {
    ghost use Rattle.std.specs.Prelude.{◌≡◌, ℕ, ◌≢◌, None, Some, IfSome};
    ghost use Rattle.gate_turn.specs.Listed.{pass_at};

    /// The empty list.
    pub fn new() -> Passes<T>
        ensures empty { (n : ℕ) → pass_at result n ≡ None }
    {
        Passes {
            places: [
                None, None, None, None, None, None, None, None, None, None, None, None, None, None,
                None, None, None, None,
            ],
        }
    }

    /// The pass of that number, taken out, or None where the list has none.
    pub fn take(&mut self, number: u16) -> Option<Pass<T>>
        ensures exact { result ≡ pass_at self.old number }
        ensures number { IfSome result (λ p. p.number ≡ number) }
        ensures gone { pass_at self.new number ≡ None }
        ensures others { (n : ℕ) → n ≢ number → pass_at self.new n ≡ pass_at self.old n }
    {
        if number < 1 || number > 18 {
            return None;
        }
        self.places[usize::from(number) - 1].take()
    }

    /// Puts a pass into its place.
    pub fn give(&mut self, pass: Pass<T>)
        requires free { pass_at self.old pass.number ≡ None }
        ensures there { pass_at self.new pass.number ≡ Some pass }
        ensures others { (n : ℕ) → n ≢ pass.number → pass_at self.new n ≡ pass_at self.old n }
    {
        let place = usize::from(pass.number) - 1;
        self.places[place] = Some(pass);
    }
}
