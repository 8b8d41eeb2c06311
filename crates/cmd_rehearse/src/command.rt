//! The whole of `rehearse`: CONFIG first, then the run, then the lines.

ghost use Rattle.std.specs.Prelude.{◌≡◌, ◌≤◌, ◌+◌, ℕ, List, Some, Ok, IfOk, IfErr, IsErrOf};
ghost use Rattle.gw_outside.specs.Faults.{HasRisen};
ghost use Rattle.schema_toml.specs.Faults.{text_limit};
ghost use Rattle.schema_toml.specs.declared.fault.ConfigFault.{ConfigFault};
ghost use Rattle.cmd_base.specs.Texts.{ReadsWithin};
ghost use Rattle.cmd_script.specs.Script.{IsScript, script_of_text};
ghost use Rattle.cmd_rehearse.specs.Promise.{Gave, IsEnd, IsRefusal, Judges};
ghost use Rattle.cmd_script.specs.declared.script.Script.{Script};
ghost use Rattle.cmd_rehearse.specs.Lines.{summary_lines};
ghost use Rattle.gw_rehearse.specs.Summaries.{summary_of};
ghost use Rattle.gw_rehearse.specs.Totals.{IsRehearsed};

use crate::lines::summary_lines;
use crate::outcome::Outcome;
use cmd_base::{TextFault, begin, read_text};
use cmd_script::{Script, read_script};
use gw_outside::{Sink, Source, push_all};
use gw_rehearse::{Rehearsal, RehearseFault, Watch, rehearse};
use schema_toml::TEXT_LIMIT;
use std::alloc::{AllocError, Global};
use std::sync::Wait;
use std::thread::Threads;

/// The devices of a run.
pub struct RehearseDevices<S, K> {
    pub config: S,
    pub out: K,
}

/// The script that a source gives.
///
/// # Errors
/// `Config` with the fault of the text, `InputFault` where the source failed, and `Memory`.
fn script_from<S: Source>(alloc: Global, config: &mut S) -> Result<Script, Outcome>
    ensures valid { IfOk result IsScript }
    ensures ok { IfOk result (λ script. (text : List ℕ) → S.left config.old ≡ Some text → script_of_text text ≡ Ok script) }
    ensures refused { IfErr result (λ outcome. (text : List ℕ) → S.left config.old ≡ Some text → Judges outcome (script_of_text text)) }
    ensures within { ReadsWithin (S.left config.old) (S.left config.new) (text_limit + 1) }
    ensures counted { S.faults config.old ≤ S.faults config.new }
    ensures fault { IsErrOf result Outcome.InputFault → HasRisen (S.faults config.old) (S.faults config.new) }
    ensures refusal { IfErr result IsRefusal }
{
    let text = match read_text(alloc, config, TEXT_LIMIT) {
        Ok(text) => text,
        Err(TextFault::Source) => return Err(Outcome::InputFault),
        Err(TextFault::Memory) => return Err(Outcome::Memory),
    };
    match read_script(alloc, text.as_slice()) {
        Ok(script) => Ok(script),
        Err(fault) if fault.is_memory() => Err(Outcome::Memory),
        Err(fault) => Err(Outcome::Config(fault)),
    }
}

/// The lines of what stands behind a rehearsal.
///
/// # Errors
/// Want of memory.
fn lines_of(alloc: Global, rehearsal: &Rehearsal) -> Result<Vec<u8>, AllocError>
    ensures { IfOk result (λ lines. lines.items ≡ summary_lines (summary_of rehearsal.now.initiator) (summary_of rehearsal.now.acceptor)) }
{
    let initiator = rehearsal.initiator.summary(alloc)?;
    let acceptor = rehearsal.acceptor.summary(alloc)?;
    summary_lines(alloc, &initiator, &acceptor)
}

/// Gives the lines of what stands behind a rehearsal of a script.
#[tactic(auto, using(crate::proofs::Giving::keeps_self))]
fn give<K: Sink>(alloc: Global, script: &Script, rehearsal: &Rehearsal, out: &mut K) -> Outcome
    requires rehearsed { IsRehearsed script.now rehearsal.now }
    ensures gave { Gave script.now (K.taken out.old) (K.taken out.new) result }
    ensures ends { IsEnd result }
    ensures never_falls { K.faults out.old ≤ K.faults out.new }
    ensures unwritten { result ≡ Outcome.OutputFault → HasRisen (K.faults out.old) (K.faults out.new) }
{
    let Ok(lines) = lines_of(alloc, rehearsal) else {
        return Outcome::Memory;
    };
    match push_all(out, lines.as_slice()) {
        Ok(()) => Outcome::Done,
        Err(_) => Outcome::OutputFault,
    }
}

/// Runs a script, and gives the lines.
#[tactic(auto, using(crate::proofs::Giving::keeps_self))]
pub(crate) fn run_script<W: Watch, R: Threads + Wait + Sync, K: Sink>(
    rt: &R,
    alloc: Global,
    script: &Script,
    out: &mut K,
    watch: &mut W,
) -> Outcome
    requires { IsScript script.now }
    ensures gave { Gave script.now (K.taken out.old) (K.taken out.new) result }
    ensures ends { IsEnd result }
    ensures never_falls { K.faults out.old ≤ K.faults out.new }
    ensures unwritten { result ≡ Outcome.OutputFault → HasRisen (K.faults out.old) (K.faults out.new) }
{
    match rehearse(alloc, script, watch, rt) {
        Ok(rehearsal) => give(alloc, script, &rehearsal, out),
        Err(
            RehearseFault::Undrained {
                initiator_next,
                acceptor_next,
            },
        ) => Outcome::Undrained {
            initiator_next,
            acceptor_next,
        },
        Err(RehearseFault::Memory) => Outcome::Memory,
    }
}

/// `rehearse`: runs the script in CONFIG over two ends in memory, and gives OUT the lines of what both hold behind it. OUT is begun
/// before the run, which may be long, and of which the watch is told how far it is.
#[tactic(auto, using(crate::proofs::Giving::gave_behind, crate::proofs::Giving::gave_refused, crate::proofs::Giving::gave_unbegun))]
pub fn run_rehearsal<W: Watch, R: Threads + Wait + Sync, S: Source, K: Sink>(
    rt: &R,
    alloc: Global,
    devices: &mut RehearseDevices<S, K>,
    watch: &mut W,
) -> Outcome
    ensures verdict { (text : List ℕ) → S.left devices.old.config ≡ Some text → Judges result (script_of_text text) }
    ensures gave { (text : List ℕ) → S.left devices.old.config ≡ Some text → (script : Script) → script_of_text text ≡ Ok script → Gave script (K.taken devices.old.out) (K.taken devices.new.out) result }
    ensures refused { (fault : ConfigFault) → result ≡ Outcome.Config fault → devices.new.out ≡ devices.old.out }
    ensures left { result ≡ Outcome.InputFault → devices.new.out ≡ devices.old.out }
    ensures within { ReadsWithin (S.left devices.old.config) (S.left devices.new.config) (text_limit + 1) }
    ensures never_falls { (S.faults devices.old.config ≤ S.faults devices.new.config) × (K.faults devices.old.out ≤ K.faults devices.new.out) }
    ensures unread { result ≡ Outcome.InputFault → HasRisen (S.faults devices.old.config) (S.faults devices.new.config) }
    ensures unwritten { result ≡ Outcome.OutputFault → HasRisen (K.faults devices.old.out) (K.faults devices.new.out) }
{
    let script = match script_from(alloc, &mut devices.config) {
        Ok(script) => script,
        Err(outcome) => return outcome,
    };
    let Ok(()) = begin(&mut devices.out) else {
        return Outcome::OutputFault;
    };
    run_script(rt, alloc, &script, &mut devices.out, watch)
}
