//! The whole of `delivered`: SCHEMA first, then the lines.

ghost use Rattle.std.specs.Prelude.{◌≡◌, ◌≤◌, ◌+◌, ℕ, List, Some, Ok};
ghost use Rattle.gw_outside.specs.Faults.{HasRisen};
ghost use Rattle.schema_toml.specs.Faults.{text_limit};
ghost use Rattle.schema_load.specs.Load.{plan_of_text};
ghost use Rattle.sbe_layout.specs.declared.plan.Plan as plans;
ghost use Rattle.cmd_base.specs.Texts.{ReadsWithin};
ghost use Rattle.cmd_by_schema.specs.Outcomes.{Judges, StopsAtSchema};
ghost use Rattle.cmd_delivered.specs.Promise.{Gave, outcome_of};

use cmd_base::begin;
use cmd_by_schema::{Outcome, Text, plan_from};
use conn_told::{ToldEnd, Wrong, tell_lines};
use gw_outside::{Sink, Source};
use std::alloc::Global;
use std::sync::Wait;

/// The devices of a run.
pub struct DeliveredDevices<S, K> {
    pub schema: S,
    /// The lines of OUT.
    pub lines: S,
    pub out: K,
}

/// How the telling of lines ends a run.
fn outcome_of(end: ToldEnd) -> Outcome<Wrong>
    ensures { result ≡ outcome_of end }
{
    match end {
        ToldEnd::Done => Outcome::Done,
        ToldEnd::Input => Outcome::InputFault { text: Text::Lines },
        ToldEnd::Output => Outcome::OutputFault,
        ToldEnd::Refused { line, wrong } => Outcome::Refused { line, wrong },
        ToldEnd::Memory => Outcome::Memory,
    }
}

/// `delivered`: the messages that lines of OUT tell of, as text by SCHEMA, up to the first line that is refused. OUT is begun once SCHEMA
/// was read.
pub fn run_delivered<R: Wait, S: Source, K: Sink>(
    rt: &R,
    alloc: Global,
    devices: &mut DeliveredDevices<S, K>,
) -> Outcome<Wrong>
    ensures verdict { (text : List ℕ) → S.left devices.old.schema ≡ Some text → Judges result (plan_of_text text) }
    ensures gave { (text lines : List ℕ) → S.left devices.old.schema ≡ Some text → S.left devices.old.lines ≡ Some lines → (plan : plans.Plan) → plan_of_text text ≡ Ok plan
        → Gave plan lines (K.taken devices.old.out) (K.taken devices.new.out) result }
    ensures spared { StopsAtSchema result → devices.new.out ≡ devices.old.out }
    ensures schema_first { StopsAtSchema result → devices.new.lines ≡ devices.old.lines }
    ensures within { ReadsWithin (S.left devices.old.schema) (S.left devices.new.schema) (text_limit + 1) }
    ensures schema_counted { S.faults devices.old.schema ≤ S.faults devices.new.schema }
    ensures lines_counted { S.faults devices.old.lines ≤ S.faults devices.new.lines }
    ensures out_counted { K.faults devices.old.out ≤ K.faults devices.new.out }
    ensures schema_unread { result ≡ Outcome.InputFault Text.Schema → HasRisen (S.faults devices.old.schema) (S.faults devices.new.schema) }
    ensures lines_unread { result ≡ Outcome.InputFault Text.Lines → HasRisen (S.faults devices.old.lines) (S.faults devices.new.lines) }
    ensures unwritten { result ≡ Outcome.OutputFault → HasRisen (K.faults devices.old.out) (K.faults devices.new.out) }
{
    let plan = match plan_from(alloc, &mut devices.schema) {
        Ok(plan) => plan,
        Err(outcome) => return outcome,
    };
    let Ok(()) = begin(&mut devices.out) else {
        return Outcome::OutputFault;
    };
    outcome_of(tell_lines(rt, alloc, &plan, &mut devices.lines, &mut devices.out))
}
