//! A hand: a desk, and what it answers by.
ghost use Rattle.std.specs.Prelude.{◌≡◌, ◌≢◌, ℕ, ◌+◌, ◌%◌, ◌<◌, ◌≤◌, length, slice_index_or, All, None, Some, IfSome, IfNone, IfOk, OnOk};
ghost use Rattle.jr_boxes.specs.declared.faults.SubmitFault.TheVariants as submit;
ghost use Rattle.gate_turn.specs.Rule.{In};
ghost use Rattle.gate_turn.specs.Listed.{pass_at};
ghost use Rattle.gate_senders.specs.Gate.{senders_of};
ghost use Rattle.gate_staff.specs.Business.{lock_of};
ghost use Rattle.order_gate.specs.Desks.{IsQuiet, HasNone, HasMet, IsAnswer, HasNumber, IsSeated, Counted, AreNew, with_pass, without_pass};
ghost use Rattle.order_desk.specs.Schema.{IsVersion};

use crate::call::Call;
use crate::desk::Desk;
use crate::form::Form;
use crate::terms::Terms;
use gate_senders::{Gate, Kept};
use gate_staff::Door;
use gate_turn::Passes;
use jr_boxes::SubmitFault;
use jr_dated::Journal;
use sbe_value::Payloads;
use std::alloc::{AllocError, Global};
use std::sync::Wait;

/// A desk, and what it answers by.
#[derive(Drop)]
pub struct Hand<J: Journal, D> {
    pub(crate) alloc: Global,
    pub(crate) desk: Desk<J>,
    pub(crate) form: Form,
    /// The reference price, in ten-thousandths.
    pub(crate) reference: i64,
    /// How many desks there are.
    pub(crate) desks: u16,
    /// How many messages were applied, modulo the desks.
    pub(crate) turn: u16,
    /// What is asked before each submit.
    pub(crate) door: D,
}

/// Whose turn it is behind so many more messages.
fn turn_behind(turn: u16, count: usize, desks: u16) -> u16
    requires some { 0 < desks }
    requires most { count ≤ 512 }
    ensures { result ≡ (turn + count) % desks }
{
    ((u64::from(turn) + count as u64) % u64::from(desks)) as u16
}

impl<J: Journal, D> Hand<J, D> {
    ghost use Rattle.order_gate.specs.Desks.{IsSeated, IsAble, Worked, Counted, HasNumber, with_pass, without_pass};

    /// Counts the entries that the outbox has of it: they are owed.
    fn count<R: Wait>(&mut self, gate: &Gate<J>, rt: &R)
        requires seated { IsSeated (lock_of gate.now) self.old.desk }
        ensures counted { Counted (lock_of gate.now) self.old self.new }
    {
        self.desk.count(gate, rt);
        self.turn = 0;
    }

    /// Answers its share of the messages.
    pub(crate) fn answer<R: Wait>(&mut self, payloads: &Payloads, gate: &Gate<J>, rt: &R)
    where
        D: Door,
        requires able { IsAble (lock_of gate.now) (senders_of gate.now) self.old }
        requires most { length payloads.now ≤ 512 }
        ensures worked { Worked (lock_of gate.now) (senders_of gate.now) payloads.now self.old self.new }
    {
        let form = &self.form;
        let call = Call {
            plan: &form.plan,
            reference: self.reference,
            desks: self.desks,
            turn: self.turn,
            payloads,
        };
        self.desk
            .answer_share(self.alloc, gate, &call, &self.door, rt);
        self.turn = turn_behind(self.turn, payloads.len(), self.desks);
    }

    /// Puts its pass into its place.
    fn lend(&mut self, passes: &mut Passes<Kept<J>>)
        requires numbered { HasNumber self.old.desk.number self.old }
        requires free { pass_at passes.old self.old.desk.number ≡ None }
        ensures lent { self.new ≡ without_pass self.old }
        ensures there { pass_at passes.new self.old.desk.number ≡ self.old.desk.pass }
        ensures others { (n : ℕ) → n ≢ self.old.desk.number → pass_at passes.new n ≡ pass_at passes.old n }
    {
        if let Some(pass) = self.desk.pass.take() {
            passes.give(pass);
        }
    }

    /// Takes the pass of its number.
    fn regain(&mut self, passes: &mut Passes<Kept<J>>)
        ensures back { self.new ≡ with_pass (pass_at passes.old self.old.desk.number) self.old }
        ensures others { (n : ℕ) → n ≢ self.old.desk.number → pass_at passes.new n ≡ pass_at passes.old n }
    {
        self.desk.pass = passes.take(self.desk.number);
    }
}

/// Counts the entries that the outbox has of each.
pub(crate) fn count_each<J: Journal, D, R: Wait>(hands: &mut [Hand<J, D>], gate: &Gate<J>, rt: &R)
    requires seated { All (λ h. IsSeated (lock_of gate.now) h.desk) hands.old }
    ensures long { length hands.new ≡ length hands.old }
    ensures each { (i : ℕ) (h : Hand _ _ _) → i < length hands.old → Counted (lock_of gate.now) (slice_index_or hands.old i h) (slice_index_or hands.new i h) }
{
    for place in 0..hands.len() {
        hands[place].count(gate, rt);
    }
}

/// Puts the hand of a desk behind those of the desks before it. It has no pass yet, and owes nothing.
#[tactic(auto, using(crate::proofs::Lending::one_new))]
fn add_hand<J: Journal, D: Drop>(
    alloc: Global,
    hands: &mut Vec<Hand<J, D>>,
    number: u16,
    terms: Terms,
    door: D,
) -> Result<(), AllocError>
    requires version { IsVersion terms.version }
    requires before { AreNew terms hands.old.items }
    requires number { number ≡ length hands.old.items + 1 }
    ensures long { OnOk result (length hands.new.items ≡ length hands.old.items + 1) }
    ensures are_new { OnOk result (AreNew terms hands.new.items) }
{
    let form = Form::new(alloc, terms.version)?;
    hands.push(Hand {
        alloc,
        desk: Desk {
            number,
            pass: None,
            owed: 0,
            made: 0,
            refused: None,
        },
        form,
        reference: terms.reference,
        desks: terms.desks,
        turn: 0,
        door,
    })?;
    Ok(())
}

/// The hands of all desks, in their order.
pub(crate) fn new_hands<J: Journal, D: Copy + Drop>(
    alloc: Global,
    terms: Terms,
    door: D,
) -> Result<Vec<Hand<J, D>>, AllocError>
    requires version { IsVersion terms.version }
    ensures long { IfOk result (λ hands. length hands.items ≡ terms.desks) }
    ensures are_new { IfOk result (λ hands. AreNew terms hands.items) }
{
    let mut hands = Vec::new(alloc);
    for place in 0..terms.desks {
        add_hand(alloc, &mut hands, place + 1, terms, door)?;
    }
    Ok(hands)
}

/// Takes the passes of all out, into their places.
pub(crate) fn passes_of_all<J: Journal, D>(hands: &mut [Hand<J, D>]) -> Passes<Kept<J>>
    requires numbered { (i : ℕ) (h : Hand _ _ _) → i < length hands.old → HasNumber (i + 1) (slice_index_or hands.old i h) }
    ensures long { length hands.new ≡ length hands.old }
    ensures each { (i : ℕ) (h : Hand _ _ _) → i < length hands.old → slice_index_or hands.new i h ≡ without_pass (slice_index_or hands.old i h) }
    ensures passes { (i : ℕ) (h : Hand _ _ _) → i < length hands.old → pass_at result (i + 1) ≡ (slice_index_or hands.old i h).desk.pass }
    ensures others { (n : ℕ) → ¬ In (length hands.old) n → pass_at result n ≡ None }
{
    let mut passes = Passes::new();
    for place in 0..hands.len() {
        hands[place].lend(&mut passes);
    }
    passes
}

/// Gives each the pass of its number.
pub(crate) fn give_to_all<J: Journal, D>(hands: &mut [Hand<J, D>], passes: Passes<Kept<J>>)
    requires numbered { (i : ℕ) (h : Hand _ _ _) → i < length hands.old → (slice_index_or hands.old i h).desk.number ≡ i + 1 }
    ensures long { length hands.new ≡ length hands.old }
    ensures each { (i : ℕ) (h : Hand _ _ _) → i < length hands.old → slice_index_or hands.new i h ≡ with_pass (pass_at passes (i + 1)) (slice_index_or hands.old i h) }
{
    let mut passes = passes;
    for place in 0..hands.len() {
        hands[place].regain(&mut passes);
    }
}

/// The refusal of the lowest that met another than that the outbox is closed.
fn graver_refusal<J: Journal, D>(hands: &[Hand<J, D>]) -> Option<SubmitFault>
    ensures some { IfSome result (λ f. HasMet hands.now f × (f ≢ submit.Closed)) }
    ensures none { IfNone result (All IsQuiet hands.now) }
{
    for hand in hands {
        if let Some(fault) = hand.desk.refused {
            if fault != SubmitFault::Closed {
                return Some(fault);
            }
        }
    }
    None
}

/// The refusal of the lowest that met one.
fn lowest_refusal<J: Journal, D>(hands: &[Hand<J, D>]) -> Option<SubmitFault>
    ensures some { IfSome result (λ f. HasMet hands.now f) }
    ensures none { IfNone result (All HasNone hands.now) }
{
    for hand in hands {
        if let Some(fault) = hand.desk.refused {
            return Some(fault);
        }
    }
    None
}

/// The refusal of the lowest that met one. That the outbox is closed comes behind all others.
///
/// # Errors
/// That refusal.
pub(crate) fn answer_of_all<J: Journal, D>(hands: &[Hand<J, D>]) -> Result<(), SubmitFault>
    ensures answer { IsAnswer hands.now result }
{
    if let Some(fault) = graver_refusal(hands) {
        return Err(fault);
    }
    match lowest_refusal(hands) {
        Some(fault) => Err(fault),
        None => Ok(()),
    }
}
