//! OUT is gone on with.

ghost use Rattle.std.specs.Prelude.{◌≡◌, ◌≤◌, ℕ, false, List, take, Some, None, Err, IfOk, IfSome, IfNone, IsSomeAnd, OnOk, OnErr, IsErrOf};
ghost use Rattle.std.specs.Option.{ForSome, option_map};
ghost use Rattle.conn_tail.specs.Tails.{HasTail};
ghost use Rattle.gw_outside.specs.Faults.{HasRisen};
ghost use Rattle.jr_dated.specs.Dated.{Dated};
ghost use Rattle.jr_dated.specs.Journals.{Unchanged};
ghost use Rattle.conn_out.specs.Messages.{messages_in};
ghost use Rattle.conn_out.specs.Projections.{Projects, ProjectsOn, Tells, IsLastTold, number_of};
ghost use Rattle.conn_out.specs.Laws.{AreRising, AreMessages};
ghost use Rattle.conn_out.specs.declared.fault.OutFault.TheVariants as faults;

use crate::behind::{place_behind, tell_from};
use crate::fault::{OutFault, no_tail};
use conn_tail::{Tail, cut_tail};
use gw_appended::Appended;
use jr_dated::Journal;
use std::alloc::Global;

/// The number of the last message of which a file of lines tells, 0 where it tells of none.
fn number_of(last: Option<u64>) -> u64
    ensures { result ≡ number_of last }
{
    last.unwrap_or(0)
}

/// Takes from the end of OUT what is no whole line, and answers how it ends then; None where it keeps nothing, and is left as it is.
fn cut_out<A: Appended>(alloc: Global, out: &mut A) -> Result<Option<Tail>, OutFault>
    ensures tail { IfOk result (λ o. IfSome o (λ tail. ForSome (A.taken out.old) (λ content. HasTail content tail.whole tail.last))) }
    ensures cut { IfOk result (λ o. IfSome o (λ tail. A.taken out.new ≡ option_map (take tail.whole) (A.taken out.old))) }
    ensures kept { IfOk result (λ o. IfNone o (A.keeps ≡ false)) }
    ensures none { IfOk result (λ o. IfNone o (A.taken out.new ≡ A.taken out.old)) }
    ensures err { OnErr result (A.taken out.new ≡ A.taken out.old) }
    ensures counted { A.faults out.old ≤ A.faults out.new }
    ensures output { IsErrOf result faults.Output → HasRisen (A.faults out.old) (A.faults out.new) }
    ensures journal { IsErrOf result faults.Journal → ⊥ }
    ensures short { IsErrOf result faults.Short → A.taken out.old ≡ None }
    ensures changed { (at : ℕ) → result ≡ Err (faults.Changed at) → ⊥ }
{
    match cut_tail(alloc, out) {
        Ok(tail) => Ok(tail),
        Err(fault) => Err(no_tail(fault)),
    }
}

/// Goes on with OUT: takes from its end what is no whole line, and tells of the messages of an inbox that come behind the last one of which it told.
/// Answers that one's number, 0 where it told of none; None where OUT keeps nothing, and is left as it is. The journal is only read.
///
/// # Errors
/// `Output` where OUT failed, and `Short` where it ended before its length, which one that tells its content never does; `Journal` where the journal
/// failed, and `Changed` where it gave another record than was written, which one that tells its content never does; and `Memory`. OUT, where it told of the first messages, tells
/// of as many or more of the first then, so that it can be gone on with again.
pub fn go_on<J: Journal, A: Appended>(
    alloc: Global,
    journal: &mut J,
    out: &mut A,
) -> Result<Option<u64>, OutFault>
    requires sound { J.is_broken journal.old ≡ false }
    ensures projects { IfOk result (λ o. IfSome o (λ _. (content : List ℕ) (h : List Dated) (k : ℕ) → A.taken out.old ≡ Some content
        → J.is_told journal.old → J.stands journal.old h → AreRising 1 (messages_in h) → AreMessages (messages_in h)
        → Projects content (take k (messages_in h)) → IsSomeAnd (A.taken out.new) (λ new. Tells new (messages_in h)))) }
    ensures last { IfOk result (λ o. IfSome o (λ number. ForSome (A.taken out.old) (λ content. IsLastTold content number))) }
    ensures kept { IfOk result (λ o. IfNone o (A.keeps ≡ false)) }
    ensures none { IfOk result (λ o. IfNone o (A.taken out.new ≡ A.taken out.old)) }
    ensures err { OnErr result ((content : List ℕ) (h : List Dated) (k : ℕ) → A.taken out.old ≡ Some content
        → J.is_told journal.old → J.stands journal.old h → AreRising 1 (messages_in h) → AreMessages (messages_in h)
        → Projects content (take k (messages_in h)) → IsSomeAnd (A.taken out.new) (λ new. ProjectsOn new k (messages_in h))) }
    ensures sound { OnOk result (J.is_broken journal.new ≡ false) }
    ensures told { J.is_told journal.old → J.is_told journal.new }
    ensures unchanged { Unchanged J.stands J.leaves journal.old journal.new }
    ensures sizes { (J.count journal.new ≡ J.count journal.old) × (J.size journal.new ≡ J.size journal.old) }
    ensures same { (J.moment journal.new ≡ J.moment journal.old) × (J.limits journal.new ≡ J.limits journal.old) }
    ensures counted { (A.faults out.old ≤ A.faults out.new) × (J.faults journal.old ≤ J.faults journal.new) }
    ensures output { IsErrOf result faults.Output → HasRisen (A.faults out.old) (A.faults out.new) }
    ensures journal { IsErrOf result faults.Journal → HasRisen (J.faults journal.old) (J.faults journal.new) }
    ensures short { IsErrOf result faults.Short → A.taken out.old ≡ None }
    ensures changed { (at : ℕ) → result ≡ Err (faults.Changed at) → J.is_told journal.old → ⊥ }
{
    let Some(tail) = cut_out(alloc, out)? else {
        return Ok(None);
    };
    let last = number_of(tail.last);
    let from = place_behind(journal, last)?;
    tell_from(alloc, journal, from, out)?;
    Ok(Some(last))
}
