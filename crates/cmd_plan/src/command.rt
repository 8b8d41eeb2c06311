//! The whole of `plan`: SCHEMA first, then the messages.

ghost use Rattle.std.specs.Prelude.{◌≡◌, ◌≤◌, ◌+◌, ℕ, List, Some, Ok};
ghost use Rattle.gw_outside.specs.Faults.{HasRisen};
ghost use Rattle.schema_toml.specs.Faults.{text_limit};
ghost use Rattle.schema_load.specs.Load.{plan_of_text};
ghost use Rattle.sbe_layout.specs.declared.plan.Plan as plans;
ghost use Rattle.cmd_base.specs.Texts.{ReadsWithin};
ghost use Rattle.cmd_by_schema.specs.Outcomes.{Judges, StopsAtSchema};
ghost use Rattle.cmd_plan.specs.Promise.{Gave, outcome_of};

use cmd_base::begin;
use cmd_by_schema::{Outcome, Text, plan_from};
use gw_outside::{Sink, Source};
use plan_lines::{Form, PlanEnd, Wrong, plan_messages};
use std::alloc::Global;
use std::sync::Wait;

/// The devices of a run.
pub struct PlanDevices<S, K> {
    pub schema: S,
    /// TEXT.
    pub messages: S,
    pub out: K,
}

/// How the reading of a text ends a run.
fn outcome_of(end: PlanEnd) -> Outcome<Wrong>
    ensures { result ≡ outcome_of end }
{
    match end {
        PlanEnd::Done => Outcome::Done,
        PlanEnd::Input => Outcome::InputFault { text: Text::Lines },
        PlanEnd::Output => Outcome::OutputFault,
        PlanEnd::Refused { line, wrong } => Outcome::Refused { line, wrong },
        PlanEnd::Memory => Outcome::Memory,
    }
}

/// `plan`: the lines that give the messages of TEXT to senders, by SCHEMA, up to the first line that is refused. OUT is begun once SCHEMA was
/// read.
pub fn run_plan<R: Wait, S: Source, K: Sink>(
    rt: &R,
    alloc: Global,
    form: Form,
    devices: &mut PlanDevices<S, K>,
) -> Outcome<Wrong>
    ensures verdict { (text : List ℕ) → S.left devices.old.schema ≡ Some text → Judges result (plan_of_text text) }
    ensures gave { (text messages : List ℕ) → S.left devices.old.schema ≡ Some text → S.left devices.old.messages ≡ Some messages → (plan : plans.Plan) → plan_of_text text ≡ Ok plan
        → Gave plan form messages (K.taken devices.old.out) (K.taken devices.new.out) result }
    ensures spared { StopsAtSchema result → devices.new.out ≡ devices.old.out }
    ensures schema_first { StopsAtSchema result → devices.new.messages ≡ devices.old.messages }
    ensures within { ReadsWithin (S.left devices.old.schema) (S.left devices.new.schema) (text_limit + 1) }
    ensures schema_counted { S.faults devices.old.schema ≤ S.faults devices.new.schema }
    ensures messages_counted { S.faults devices.old.messages ≤ S.faults devices.new.messages }
    ensures out_counted { K.faults devices.old.out ≤ K.faults devices.new.out }
    ensures schema_unread { result ≡ Outcome.InputFault Text.Schema → HasRisen (S.faults devices.old.schema) (S.faults devices.new.schema) }
    ensures messages_unread { result ≡ Outcome.InputFault Text.Lines → HasRisen (S.faults devices.old.messages) (S.faults devices.new.messages) }
    ensures unwritten { result ≡ Outcome.OutputFault → HasRisen (K.faults devices.old.out) (K.faults devices.new.out) }
{
    let plan = match plan_from(alloc, &mut devices.schema) {
        Ok(plan) => plan,
        Err(outcome) => return outcome,
    };
    let Ok(()) = begin(&mut devices.out) else {
        return Outcome::OutputFault;
    };
    let end = plan_messages(
        rt,
        alloc,
        &plan,
        form,
        &mut devices.messages,
        &mut devices.out,
    );
    outcome_of(end)
}
