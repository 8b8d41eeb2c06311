//! The whole of `show`: SCHEMA first, then where JOURNAL ends, where that is needed, then its records.

ghost use Rattle.std.specs.Prelude.{◌≡◌, ◌≤◌, ◌+◌, ℕ, List, true, false, Some, Ok, IfOk, IfErr, IsErrOf};
ghost use Rattle.gw_outside.specs.Faults.{HasRisen};
ghost use Rattle.sbe_layout.specs.Legal.{LegalPlan};
ghost use Rattle.sbe_layout.specs.declared.plan.Plan as plans;
ghost use Rattle.schema_toml.specs.Faults.{text_limit};
ghost use Rattle.schema_load.specs.Load.{plan_of_text};
ghost use Rattle.cmd_base.specs.Texts.{ReadsWithin};
ghost use Rattle.jr_shown.specs.Shown.{NeedsNoEnd, TellsAhead};
ghost use Rattle.cmd_show.specs.Promise.{Gave, GaveFollowing, IsRefusal, Judges, SparesOut, StopsAtSchema, StopsAhead};

use crate::follow::follow_records;
use crate::outcome::{Origin, Outcome};
use crate::stream::{show_records, unread};
use cmd_by_schema::{Outcome as Unplanned, plan_from};
use gw_growing::Growing;
use gw_outside::{Sink, Source};
use jr_shown::{Choice, start_of};
use sbe_layout::Plan;
use std::alloc::Global;
use std::sync::Wait;

/// The devices of a run.
pub struct ShowDevices<S, K> {
    /// SCHEMA.
    pub schema: S,
    /// JOURNAL, for where it ends.
    pub ahead: S,
    /// JOURNAL, from its beginning again.
    pub journal: S,
    pub out: K,
}

/// The plan of the schema that a source gives.
///
/// # Errors
/// `Config` with the fault of the text, `InputFault` where the source failed, and `Memory`.
fn plan_of<S: Source>(alloc: Global, schema: &mut S) -> Result<Plan, Outcome>
    ensures legal { IfOk result LegalPlan }
    ensures ok { IfOk result (λ plan. (text : List ℕ) → S.left schema.old ≡ Some text → plan_of_text text ≡ Ok plan) }
    ensures refused { IfErr result (λ outcome. (text : List ℕ) → S.left schema.old ≡ Some text → Judges outcome (plan_of_text text)) }
    ensures within { ReadsWithin (S.left schema.old) (S.left schema.new) (text_limit + 1) }
    ensures counted { S.faults schema.old ≤ S.faults schema.new }
    ensures fault { IsErrOf result (Outcome.InputFault Origin.Schema) → HasRisen (S.faults schema.old) (S.faults schema.new) }
    ensures refusal { IfErr result IsRefusal }
{
    match plan_from::<S, ()>(alloc, schema) {
        Ok(plan) => Ok(plan),
        Err(Unplanned::Config(fault)) => Err(Outcome::Config(fault)),
        Err(Unplanned::InputFault { .. }) => Err(Outcome::InputFault {
            origin: Origin::Schema,
        }),
        // No outcome but want of memory is left.
        Err(_) => Err(Outcome::Memory),
    }
}

/// `show`: the records of JOURNAL that are chosen, by SCHEMA, and where they end. JOURNAL is read up to its closed byte, or to where it is
/// damaged, and no lock is taken; another process may write it meanwhile. OUT is begun once the header was read.
#[tactic(auto, using(crate::proofs::Judging::late_still, crate::proofs::Judging::refusal_still, crate::proofs::Judging::unread_still, crate::proofs::Judging::late_schema, crate::proofs::Judging::unread_ahead, crate::proofs::Judging::unread_cause, crate::proofs::Judging::unread_output))]
pub fn run_show<R: Wait, S: Source, K: Sink>(
    rt: &R,
    alloc: Global,
    choice: Choice,
    devices: &mut ShowDevices<S, K>,
) -> Outcome
    ensures verdict { (text : List ℕ) → S.left devices.old.schema ≡ Some text → Judges result (plan_of_text text) }
    ensures gave { (text ahead image : List ℕ) (plan : plans.Plan) → S.left devices.old.schema ≡ Some text → plan_of_text text ≡ Ok plan
        → TellsAhead choice.begin (S.left devices.old.ahead) ahead → S.left devices.old.journal ≡ Some image
        → Gave (record { plan = plan; choice = choice; ahead = ahead; image = image }) (K.taken devices.old.out) (K.taken devices.new.out) result }
    ensures schema_first { StopsAtSchema result → (devices.new.ahead ≡ devices.old.ahead) × (devices.new.journal ≡ devices.old.journal) }
    ensures ahead_first { StopsAhead result → devices.new.journal ≡ devices.old.journal }
    ensures spared { SparesOut result → devices.new.out ≡ devices.old.out }
    ensures still { (at : ℕ) → result ≡ Outcome.Changed at → ⊥ }
    ensures not_ahead { NeedsNoEnd choice.begin → devices.new.ahead ≡ devices.old.ahead }
    ensures within { ReadsWithin (S.left devices.old.schema) (S.left devices.new.schema) (text_limit + 1) }
    ensures schema_counted { S.faults devices.old.schema ≤ S.faults devices.new.schema }
    ensures ahead_counted { S.faults devices.old.ahead ≤ S.faults devices.new.ahead }
    ensures journal_counted { S.faults devices.old.journal ≤ S.faults devices.new.journal }
    ensures out_counted { K.faults devices.old.out ≤ K.faults devices.new.out }
    ensures schema_unread { result ≡ Outcome.InputFault Origin.Schema → HasRisen (S.faults devices.old.schema) (S.faults devices.new.schema) }
    ensures ahead_unread { result ≡ Outcome.InputFault Origin.Ahead → HasRisen (S.faults devices.old.ahead) (S.faults devices.new.ahead) }
    ensures journal_unread { result ≡ Outcome.InputFault Origin.Journal → HasRisen (S.faults devices.old.journal) (S.faults devices.new.journal) }
    ensures unwritten { result ≡ Outcome.OutputFault → HasRisen (K.faults devices.old.out) (K.faults devices.new.out) }
{
    let plan = match plan_of(alloc, &mut devices.schema) {
        Ok(plan) => plan,
        Err(outcome) => return outcome,
    };
    let start = match start_of(rt, alloc, choice.begin, &mut devices.ahead) {
        Ok(start) => start,
        Err(fault) => return unread(Origin::Ahead, fault),
    };
    show_records(
        rt,
        alloc,
        &plan,
        choice,
        start,
        &mut devices.journal,
        &mut devices.out,
    )
}

/// The devices of a run that follows a journal.
pub struct FollowDevices<S, G, K> {
    /// SCHEMA.
    pub schema: S,
    /// JOURNAL, for where it ends.
    pub ahead: S,
    /// JOURNAL, looked at time and again.
    pub journal: G,
    pub out: K,
}

/// `show --follow`: the records of JOURNAL that are chosen, by SCHEMA, as they stand and as they come, until COUNT of them were shown. Behind each
/// look all lines of the records that stood there are pushed. No lock is taken. OUT is begun once the header was read.
#[tactic(auto, using(crate::proofs::Judging::refusal_still, crate::proofs::Judging::unread_still, crate::proofs::Judging::following_schema, crate::proofs::Judging::unread_ahead, crate::proofs::Judging::unread_cause, crate::proofs::Judging::unread_output))]
pub fn run_follow<R: Wait, S: Source, G: Growing, K: Sink>(
    rt: &R,
    alloc: Global,
    choice: Choice,
    devices: &mut FollowDevices<S, G, K>,
) -> Outcome
    ensures verdict { (text : List ℕ) → S.left devices.old.schema ≡ Some text → Judges result (plan_of_text text) }
    ensures gave { (text ahead image : List ℕ) (plan : plans.Plan) → S.left devices.old.schema ≡ Some text → plan_of_text text ≡ Ok plan
        → TellsAhead choice.begin (S.left devices.old.ahead) ahead → G.told devices.new.journal ≡ Some image → G.has_changed devices.new.journal ≡ false
        → GaveFollowing (record { plan = plan; choice = choice; ahead = ahead; image = image }) (K.taken devices.old.out) (K.taken devices.new.out) result }
    ensures changed { (at : ℕ) → result ≡ Outcome.Changed at → G.has_changed devices.new.journal ≡ true }
    ensures schema_first { StopsAtSchema result → (devices.new.ahead ≡ devices.old.ahead) × (devices.new.journal ≡ devices.old.journal) }
    ensures ahead_first { StopsAhead result → devices.new.journal ≡ devices.old.journal }
    ensures spared { SparesOut result → devices.new.out ≡ devices.old.out }
    ensures not_ahead { NeedsNoEnd choice.begin → devices.new.ahead ≡ devices.old.ahead }
    ensures within { ReadsWithin (S.left devices.old.schema) (S.left devices.new.schema) (text_limit + 1) }
    ensures schema_counted { S.faults devices.old.schema ≤ S.faults devices.new.schema }
    ensures ahead_counted { S.faults devices.old.ahead ≤ S.faults devices.new.ahead }
    ensures journal_counted { G.faults devices.old.journal ≤ G.faults devices.new.journal }
    ensures out_counted { K.faults devices.old.out ≤ K.faults devices.new.out }
    ensures schema_unread { result ≡ Outcome.InputFault Origin.Schema → HasRisen (S.faults devices.old.schema) (S.faults devices.new.schema) }
    ensures ahead_unread { result ≡ Outcome.InputFault Origin.Ahead → HasRisen (S.faults devices.old.ahead) (S.faults devices.new.ahead) }
    ensures journal_unread { result ≡ Outcome.InputFault Origin.Journal → HasRisen (G.faults devices.old.journal) (G.faults devices.new.journal) }
    ensures unwritten { result ≡ Outcome.OutputFault → HasRisen (K.faults devices.old.out) (K.faults devices.new.out) }
{
    let plan = match plan_of(alloc, &mut devices.schema) {
        Ok(plan) => plan,
        Err(outcome) => return outcome,
    };
    let start = match start_of(rt, alloc, choice.begin, &mut devices.ahead) {
        Ok(start) => start,
        Err(fault) => return unread(Origin::Ahead, fault),
    };
    follow_records(
        rt,
        alloc,
        &plan,
        choice,
        start,
        &mut devices.journal,
        &mut devices.out,
    )
}
