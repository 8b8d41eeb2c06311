//! The whole of `datagram`: CONFIG first, then the datagrams, then their deliveries.

ghost use Rattle.std.specs.Prelude.{◌≡◌, ◌≤◌, ◌+◌, ℕ, List, Some, Ok, IfOk, IfErr, IsErrOf};
ghost use Rattle.gw_outside.specs.Faults.{HasRisen};
ghost use Rattle.schema_toml.specs.Faults.{text_limit};
ghost use Rattle.schema_toml.specs.declared.fault.ConfigFault.{ConfigFault};
ghost use Rattle.cmd_base.specs.Texts.{ReadsWithin};
ghost use Rattle.cmd_datagram.specs.declared.script.Script.{Script};
ghost use Rattle.cmd_datagram.specs.Script.{IsScript, script_of_text};
ghost use Rattle.cmd_datagram.specs.Promise.{Gave, IsEnd, IsRefusal, Judges};
ghost use Rattle.cmd_datagram.specs.Delivered.{ArePacked, payloads_of};
ghost use Rattle.fixp_datagram.specs.Packing.{cut};

use crate::delivering::{GiveFault, give_all};
use crate::outcome::Outcome;
use crate::packing::{datagrams, payloads};
use crate::script::Script;
use cmd_base::{Status, begin, read_config};
use fixp_datagram::cut_is_written;
use gw_outside::{Sink, Source};
use sbe_value::Payloads;
use std::alloc::{AllocError, Global};

/// The devices of a run.
pub struct DatagramDevices<S, K> {
    pub config: S,
    pub out: K,
}

/// The script that a source gives.
///
/// # Errors
/// `Config` with the fault of the text, `InputFault` where the source failed, and `Memory`.
fn script_from<S: Source>(alloc: Global, config: &mut S) -> Result<Script, Outcome>
    ensures valid { IfOk result IsScript }
    ensures ok { IfOk result (λ script. (text : List ℕ) → S.left config.old ≡ Some text → script_of_text text ≡ Ok script) }
    ensures refused { IfErr result (λ outcome. (text : List ℕ) → S.left config.old ≡ Some text → Judges outcome (script_of_text text)) }
    ensures within { ReadsWithin (S.left config.old) (S.left config.new) (text_limit + 1) }
    ensures counted { S.faults config.old ≤ S.faults config.new }
    ensures fault { IsErrOf result Outcome.InputFault → HasRisen (S.faults config.old) (S.faults config.new) }
    ensures refusal { IfErr result IsRefusal }
{
    match read_config::<S, Script>(alloc, (), config) {
        Ok(script) => Ok(script),
        Err(Status::Config(fault)) => Err(Outcome::Config(fault)),
        Err(Status::InputFault) => Err(Outcome::InputFault),
        // No status but want of memory is left.
        Err(_) => Err(Outcome::Memory),
    }
}

/// The datagrams that a script's messages are packed into.
fn packed(alloc: Global, script: &Script) -> Result<Payloads, AllocError>
    requires { IsScript script.now }
    ensures { IfOk result (λ ds. ArePacked ds (cut script.now.per (payloads_of script.now.messages))) }
{
    let payloads = payloads(alloc, script.messages)?;
    datagrams(alloc, script.per, &payloads)
}

/// Packs the messages of a script, delivers the listed datagrams, and gives the lines.
#[tactic(auto, using(crate::proofs::Giving::gave_none))]
fn run_script<K: Sink>(alloc: Global, script: &Script, out: &mut K) -> Outcome
    requires { IsScript script.now }
    ensures gave { Gave script.now (K.taken out.old) (K.taken out.new) result }
    ensures ends { IsEnd result }
    ensures never_falls { K.faults out.old ≤ K.faults out.new }
    ensures unwritten { result ≡ Outcome.OutputFault → HasRisen (K.faults out.old) (K.faults out.new) }
{
    let Ok(datagrams) = packed(alloc, script) else {
        return Outcome::Memory;
    };
    // The world's datagrams are those that were packed.
    cut_is_written();
    match give_all(alloc, script, &datagrams, out) {
        Ok(()) => Outcome::Done,
        Err(GiveFault::Output) => Outcome::OutputFault,
        Err(GiveFault::Memory) => Outcome::Memory,
    }
}

/// `datagram`: packs the messages of the script in CONFIG into datagrams, delivers the listed ones to a receiver, and gives OUT the
/// lines of what each delivery makes, and at the end the number that the receiver waits for. OUT is begun once CONFIG was read.
#[tactic(auto, using(crate::proofs::Giving::gave_behind, crate::proofs::Giving::gave_refused, crate::proofs::Giving::gave_unbegun))]
pub fn run_datagram<S: Source, K: Sink>(
    alloc: Global,
    devices: &mut DatagramDevices<S, K>,
) -> Outcome
    ensures verdict { (text : List ℕ) → S.left devices.old.config ≡ Some text → Judges result (script_of_text text) }
    ensures gave { (text : List ℕ) → S.left devices.old.config ≡ Some text → (script : Script) → script_of_text text ≡ Ok script
        → Gave script (K.taken devices.old.out) (K.taken devices.new.out) result }
    ensures refused { (fault : ConfigFault) → result ≡ Outcome.Config fault → devices.new.out ≡ devices.old.out }
    ensures left { result ≡ Outcome.InputFault → devices.new.out ≡ devices.old.out }
    ensures within { ReadsWithin (S.left devices.old.config) (S.left devices.new.config) (text_limit + 1) }
    ensures never_falls { (S.faults devices.old.config ≤ S.faults devices.new.config) × (K.faults devices.old.out ≤ K.faults devices.new.out) }
    ensures unread { result ≡ Outcome.InputFault → HasRisen (S.faults devices.old.config) (S.faults devices.new.config) }
    ensures unwritten { result ≡ Outcome.OutputFault → HasRisen (K.faults devices.old.out) (K.faults devices.new.out) }
{
    let script = match script_from(alloc, &mut devices.config) {
        Ok(script) => script,
        Err(outcome) => return outcome,
    };
    let Ok(()) = begin(&mut devices.out) else {
        return Outcome::OutputFault;
    };
    run_script(alloc, &script, &mut devices.out)
}
