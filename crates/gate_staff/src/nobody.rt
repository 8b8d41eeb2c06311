//! The producers of an end where nobody puts messages in beside the connections.
ghost use Rattle.std.specs.Prelude.{⊤, true, [], None};
ghost use Rattle.gate_turn.specs.Views.{new_part, nothing};

use crate::door::Door;
use crate::fault::StaffFault;
use crate::producers::Producers;
use gate_senders::Gate;
use jr_dated::Journal;
use std::alloc::Global;
use std::sync::Wait;

/// Nobody: no passes, and nothing to do.
#[derive(Clone, Copy, Drop)]
pub struct Nobody {
    pub alloc: Global,
}

impl<J: Journal + Send> Producers<J> for Nobody {
    type Producer = ();

    ghost count = { λ _. 0 };

    ghost part = { λ _ n. new_part n 0 nothing };

    ghost has = { λ lock senders _. ⊤ };

    ghost stands = { λ _. ⊤ };

    ghost plan = { λ _ n. [] };

    ghost done = { λ _. true };

    ghost why = { λ _. None };

    ghost admitted = { λ _. ⊤ };

    ghost did = { λ lock senders before now. ⊤ };

    ghost gave = { λ _ now given. ⊤ };

    ghost ready = { λ lock senders producer. ⊤ };

    ghost worked = { λ lock senders before after. ⊤ };

    ghost let_in = { λ producer. ⊤ };

    fn give(&mut self) -> Vec<()> {
        Vec::new(self.alloc)
    }

    fn produce<D: Door, R: Wait>(_producer: &mut (), _gate: &Gate<J>, _door: &D, _rt: &R) {}

    fn conclude<R: Wait>(&mut self, _producers: &mut Vec<()>, _gate: &Gate<J>, _rt: &R) {}

    fn is_kept_back(&self) -> bool {
        false
    }

    fn fault(&self) -> Option<StaffFault> {
        None
    }
}
