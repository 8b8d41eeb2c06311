//! One sender: how far its plan and its entries agree.

use plan_values::Plan;

/// How far the plan of a sender and its entries agree.
#[derive(Clone, Copy)]
pub struct Front {
    /// How many payloads at the front of the plan were sent, each at its place.
    pub places: u64,
    /// Whether nothing else was sent.
    pub is_open: bool,
}

impl Front {
    ghost use Rattle.std.specs.Prelude.{◌≡◌, ℕ, ◌+◌, ◌<◌, ◌≤◌, ◌^◌, List, [], ◌∷◌, ◌++◌, true, false, IsTrue, IsFalse, slice_get, Some};
    ghost use Rattle.plan_values.specs.Plans.{payloads_of};
    ghost use Rattle.plan_outbox.specs.Progress.{IsFront, IsLeft, StandsBy};

    /// That of a sender that sent nothing.
    pub fn new() -> Front
        ensures places { result.places ≡ 0 }
        ensures all { result.is_open ≡ true }
    {
        Front {
            places: 0,
            is_open: true,
        }
    }

    /// Whether the plan has this payload next.
    #[tactic(auto, using(crate::proofs::Agreeing::not_past))]
    fn is_next(self, plan: &Plan, payload: &[u8]) -> bool
        ensures yes { IsTrue result → slice_get (payloads_of plan.now) self.places ≡ Some payload.now }
        ensures no { IsFalse result → slice_get (payloads_of plan.now) self.places ≡ Some payload.now → ⊥ }
        ensures few { IsTrue result → self.places + 1 < 2 ^ 64 }
    {
        self.places < plan.len() && plan.payload(self.places + 1) == payload
    }

    /// That behind one more entry of the sender, with this payload.
    pub fn behind(self, plan: &Plan, payload: &[u8]) -> Front
        ensures front { (sent : List (List ℕ)) → IsFront (payloads_of plan.now) sent self → IsFront (payloads_of plan.now) (sent ++ payload.now ∷ []) result }
    {
        if !self.is_open {
            return self;
        }
        if self.is_next(plan, payload) {
            Front {
                places: self.places + 1,
                is_open: true,
            }
        } else {
            Front {
                places: self.places,
                is_open: false,
            }
        }
    }

    /// Takes one more line of the sender, and says whether it may stand.
    pub fn take(&mut self, finished: bool) -> bool
        ensures taken { IsTrue result → (f : _) (taken : ℕ) → IsLeft f finished taken self.old → IsLeft f finished (taken + 1) self.new × StandsBy f finished taken }
        ensures past { IsFalse result → (f : _) (taken : ℕ) → IsLeft f finished taken self.old → (taken ≡ f.places) × (f.is_open ≡ true → finished ≡ true) }
    {
        if self.places > 0 {
            self.places -= 1;
            return true;
        }
        self.is_open && !finished
    }
}
