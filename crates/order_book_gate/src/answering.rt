//! How a book desk answers messages: it takes each as an order, and sends the book's reports on all of them.
ghost use Rattle.std.specs.Prelude.{◌≡◌, ◌≢◌, ℕ, ◌≤◌, true, false, ◌↔◌, List, ◌++◌, Err, OnOk};
ghost use Rattle.jr_boxes.specs.declared.faults.SubmitFault.{SubmitFault};
ghost use Rattle.jr_boxes.specs.declared.faults.SubmitFault.TheVariants as submit;
ghost use Rattle.gate_senders.specs.Gate.{senders_of};
ghost use Rattle.gate_staff.specs.Business.{lock_of, AllStay, Answered, ShownByOne, StandsOn};

use crate::book_desk::BookDesk;
use crate::orders::take_orders;
use gate_senders::Gate;
use gate_staff::OpenDoor;
use jr_boxes::SubmitFault;
use jr_dated::Journal;
use sbe_value::{Bytes, Payloads};
use std::sync::Wait;

/// Whether it is the refusal that the outbox is closed.
fn is_closed(fault: SubmitFault) -> bool
    ensures { (result ≡ true) ↔ (fault ≡ submit.Closed) }
{
    match fault {
        SubmitFault::Closed => true,
        SubmitFault::Broken => false,
        SubmitFault::Full { .. } => false,
        SubmitFault::Memory => false,
        SubmitFault::Fault => false,
    }
}

impl<J: Journal> BookDesk<J> {
    ghost use Rattle.order_gate.specs.Reported.{Finishing};
    ghost use Rattle.order_gate.specs.Desks.{known_of, IsReady};
    ghost use Rattle.order_book_gate.specs.Desk.{part_of, plan_of, HasPass, IsAble, SameBut, StandsBehind, Took};

    /// Takes messages as orders, one after another, and sends the book's reports on them, which are gathered first.
    fn answer_each<R: Wait>(
        &mut self,
        payloads: &[Bytes],
        gate: &Gate<J>,
        rt: &R,
    ) -> Result<(), SubmitFault>
        requires able { IsAble (lock_of gate.now) (senders_of gate.now) self.old }
        ensures took { Took (lock_of gate.now) (senders_of gate.now) payloads.now self.old self.new result }
    {
        let form = &self.form;
        let Ok(reports) = take_orders(self.alloc, &form.plan, &mut self.book, payloads) else {
            return Err(SubmitFault::Memory);
        };
        self.desk.send_all(gate, reports.as_slice(), &OpenDoor, rt)
    }

    /// Adds the Finish; where it stands already there is nothing to add.
    fn finish<R: Wait>(&mut self, gate: &Gate<J>, rt: &R) -> Result<(), SubmitFault>
        requires able { IsAble (lock_of gate.now) (senders_of gate.now) self.old }
        requires unmet { self.old.met ≡ false }
        ensures own { HasPass (lock_of gate.now) self.new }
        ensures same { (self.new.form ≡ self.old.form) × (self.new.counted ≡ self.old.counted) }
        ensures finished { Finishing (part_of self.old 1) (part_of self.new 1) result }
        ensures met { OnOk result (self.new.met ≡ true) }
    {
        let answer = self.desk.finish(gate, rt);
        if answer.is_ok() {
            self.met = true;
        }
        answer
    }

    /// Answers messages, and adds the Finish where the peer has finished. Where nothing was counted yet, or the outbox is closed, it does
    /// nothing.
    pub(crate) fn answer_call<R: Wait>(
        &mut self,
        payloads: &Payloads,
        finished: bool,
        gate: &Gate<J>,
        rt: &R,
    ) -> Result<(), SubmitFault>
        requires own { HasPass (lock_of gate.now) self.old }
        requires few { 1 ≤ senders_of gate.now }
        ensures own { HasPass (lock_of gate.now) self.new }
        ensures same { plan_of self.new ≡ plan_of self.old }
        ensures stays { AllStay 1 (part_of self.old) (part_of self.new) }
        ensures stands { (l : List (List ℕ)) → StandsBehind self.old l → StandsOn result (StandsBehind self.new (l ++ payloads.now)) }
        ensures answered { (l : List (List ℕ)) → StandsBehind self.old l
            → Answered (λ n. plan_of self.old n (l ++ payloads.now)) 1 (part_of self.old) (part_of self.new) finished result }
        ensures refused { (f : SubmitFault) → result ≡ Err f → f ≢ submit.Memory → ShownByOne 1 (part_of self.old) (part_of self.new) f }
    {
        if self.met || !self.counted {
            return Ok(());
        }
        if let Err(fault) = self.answer_each(payloads.as_slice(), gate, rt) {
            self.met = is_closed(fault);
            return Err(fault);
        }
        if finished {
            self.finish(gate, rt)
        } else {
            Ok(())
        }
    }
}
