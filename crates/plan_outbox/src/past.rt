//! The first line of a text that does not go on from an outbox.

ghost use Rattle.std.specs.Prelude.{◌≡◌, ◌≤◌, ℕ, false, List, map, length, Err, IfOk, IfNone, IfSome, OnOk, IsErrOf};
ghost use Rattle.gw_outside.specs.Faults.{HasRisen};
ghost use Rattle.session_model.specs.Journal.{History};
ghost use Rattle.jr_dated.specs.declared.faults.FetchFault.TheVariants as fetch;
ghost use Rattle.jr_kept.specs.Outbox.{StandsFor, journal_of, is_broken, faults_of};
ghost use Rattle.plan_values.specs.Plans.{payloads_of};
ghost use Rattle.plan_text.specs.Plans.{HasPlans};
ghost use Rattle.plan_outbox.specs.Behind.{GoesOnFrom, IsPastAt};
ghost use Rattle.plan_outbox.specs.Progress.{WasRead};

use crate::fronts::fronts_of;
use crate::lines::first_line_past;
use jr_dated::{FetchFault, Journal};
use jr_kept::Outbox;
use plan_values::Plan;
use std::alloc::Global;

/// The number, from 1 on, of the first line of a text whose payload may not stand in its sender's plan beside this outbox; none where the
/// plans of the text go on from it. What they are compared with is what each entry's read gives now.
///
/// # Errors
/// Those of reading an entry; the outbox holds what it held.
pub fn first_past<J: Journal>(
    alloc: Global,
    text: &[u8],
    plans: &[Plan],
    outbox: &mut Outbox<J>,
) -> Result<Option<u64>, FetchFault>
    requires sound { is_broken outbox.old ≡ false }
    requires planned { HasPlans (length plans.now) text.now (map payloads_of plans.now) }
    ensures goes_on { IfOk result (λ o. IfNone o (J.is_told (journal_of outbox.old) → (h : History) → StandsFor outbox.old h → GoesOnFrom (map payloads_of plans.now) h)) }
    ensures past { IfOk result (λ o. IfSome o (λ line. J.is_told (journal_of outbox.old) → (h : History) → StandsFor outbox.old h → IsPastAt h (length plans.now) text.now line)) }
    ensures whole { result ≡ Err fetch.Broken → ⊥ }
    ensures changed { (at : ℕ) → result ≡ Err (fetch.Changed at) → J.is_told (journal_of outbox.old) → ⊥ }
    ensures cause { IsErrOf result fetch.Fault → HasRisen (faults_of outbox.old) (faults_of outbox.new) }
    ensures sound { OnOk result (is_broken outbox.new ≡ false) }
    ensures read { WasRead outbox.old outbox.new }
    ensures quiet { OnOk result (faults_of outbox.new ≡ faults_of outbox.old) }
{
    let mut fronts = fronts_of(alloc, plans, outbox)?;
    let finished = outbox.closed();
    Ok(first_line_past(text, fronts.as_mut_slice(), finished))
}
