//! What a sender is to send.
ghost use Rattle.std.specs.List.{AllByRecursion};
ghost use Rattle.std.specs.Prelude.{◌≡◌, ◌↔◌, ◌+◌, ◌-◌, ◌≤◌, true, false, [], ◌∷◌, ◌++◌, All, length, take, drop, slice_get, Some, IsTrue, IfOk, IfErr, OnErr};
ghost use Rattle.fixp_msgs.specs.Payload.{IsApplication};

use fixp_msgs::is_application;
use sbe_value::{Bytes, Payloads};
use std::alloc::{AllocError, Global};

/// The payloads that a sender is to send, in order. Each is that of an application message.
#[derive(Drop)]
pub struct Plan {
    payloads: Payloads,
    ghost applications: { ∥ All IsApplication payloads ∥₁ },
}

impl Plan {
    ghost use Rattle.plan_values.specs.Plans.{payloads_of};

    /// The plan of these payloads.
    ///
    /// # Errors
    ///
    /// The payloads come back exactly where one of them is not that of an application message.
    pub fn of(payloads: Payloads) -> Result<Plan, Payloads>
        ensures ok { IfOk result (λ plan. payloads_of plan ≡ payloads) }
        ensures all { IfOk result (λ _. All IsApplication payloads) }
        ensures refused { IfErr result (λ back. (back ≡ payloads) × (All IsApplication payloads → ⊥)) }
    {
        if are_applications(payloads.as_slice()) {
            Ok(Plan { payloads })
        } else {
            Err(payloads)
        }
    }

    /// The plan of no payloads.
    pub fn new(alloc: Global) -> Plan
        ensures none { payloads_of result ≡ [] }
    {
        Plan {
            payloads: Payloads::new(alloc),
        }
    }

    /// Adds a payload at the end where it is that of an application message, and says whether it is.
    ///
    /// # Errors
    ///
    /// Want of memory, which leaves the plan as it was.
    pub fn add(&mut self, payload: Bytes) -> Result<bool, AllocError>
        ensures added { IfOk result (λ is. is ≡ true → (payloads_of self.new ≡ payloads_of self.old ++ payload ∷ []) × IsApplication payload) }
        ensures refused { IfOk result (λ is. is ≡ false → (payloads_of self.new ≡ payloads_of self.old) × (IsApplication payload → ⊥)) }
        ensures err { OnErr result (payloads_of self.new ≡ payloads_of self.old) }
    {
        if !is_application(payload.as_slice()) {
            return Ok(false);
        }
        self.payloads.push(payload)?;
        Ok(true)
    }

    /// How many there are.
    pub fn len(&self) -> u64
        ensures value { result ≡ length (payloads_of self.now) }
    {
        self.payloads.len() as u64
    }

    /// The payload of a number, from 1 on.
    pub fn payload(&self, number: u64) -> &[u8]
        requires least { 1 ≤ number }
        requires within { number ≤ length (payloads_of self.now) }
        ensures value { slice_get (payloads_of self.now) (number - 1) ≡ Some result.now }
        ensures application { IsApplication result.now }
    {
        let payload = self.payloads.as_slice()[number as usize - 1].as_slice();
        // It is one, as the type says; the test tells its frame.
        if !is_application(payload) {
            unreachable!()
        }
        payload
    }

    /// The payloads behind the first `done`, so many.
    pub fn piece(&self, done: u64, count: u64) -> &[Bytes]
        requires within { done + count ≤ length (payloads_of self.now) }
        ensures value { result.now ≡ take count (drop done (payloads_of self.now)) }
        ensures applications { AllByRecursion IsApplication result.now }
    {
        let (_, behind) = self.payloads.as_slice().split_at(done as usize);
        let (piece, _) = behind.split_at(count as usize);
        // Each is one, as the type says; the test tells its frame.
        if !are_applications(piece) {
            unreachable!()
        }
        piece
    }

    /// The payloads, in order.
    pub fn into_payloads(self) -> Payloads
        ensures value { result ≡ payloads_of self }
    {
        self.payloads
    }
}

/// Whether each is the payload of an application message.
fn are_applications(payloads: &[Bytes]) -> bool
    ensures exact { IsTrue result ↔ All IsApplication payloads.now }
{
    payloads
        .iter()
        .all(|payload| is_application(payload.as_slice()))
}
