//! The plan of a schema.

ghost use Rattle.std.specs.Prelude.{◌≡◌, ◌≤◌, ◌+◌, ℕ, List, Some, Ok, IfOk, IfErr, IsErrOf};
ghost use Rattle.gw_outside.specs.Faults.{HasRisen};
ghost use Rattle.schema_toml.specs.Faults.{text_limit};
ghost use Rattle.schema_load.specs.Load.{plan_of_text};
ghost use Rattle.sbe_layout.specs.Legal.{LegalPlan};
ghost use Rattle.cmd_base.specs.Texts.{ReadsWithin};
ghost use Rattle.cmd_by_schema.specs.Outcomes.{IsRefusal, Judges};

use crate::outcome::{Outcome, Text};
use cmd_base::{Status, read_config};
use gw_outside::Source;
use sbe_layout::Plan;
use std::alloc::Global;

/// The plan of the schema that a source gives.
///
/// # Errors
/// `Config` with the fault of the text, `InputFault` where the source failed, and `Memory`.
pub fn plan_from<S: Source, W>(alloc: Global, schema: &mut S) -> Result<Plan, Outcome<W>>
    ensures legal { IfOk result LegalPlan }
    ensures ok { IfOk result (λ plan. (text : List ℕ) → S.left schema.old ≡ Some text → plan_of_text text ≡ Ok plan) }
    ensures refused { IfErr result (λ outcome. (text : List ℕ) → S.left schema.old ≡ Some text → Judges outcome (plan_of_text text)) }
    ensures within { ReadsWithin (S.left schema.old) (S.left schema.new) (text_limit + 1) }
    ensures counted { S.faults schema.old ≤ S.faults schema.new }
    ensures fault { IsErrOf result (Outcome.InputFault Text.Schema) → HasRisen (S.faults schema.old) (S.faults schema.new) }
    ensures refusal { IfErr result IsRefusal }
{
    match read_config::<S, Plan>(alloc, (), schema) {
        Ok(plan) => Ok(plan),
        Err(Status::Config(fault)) => Err(Outcome::Config(fault)),
        Err(Status::InputFault) => Err(Outcome::InputFault { text: Text::Schema }),
        // No status but want of memory is left.
        Err(_) => Err(Outcome::Memory),
    }
}
