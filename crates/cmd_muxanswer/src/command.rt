//! The whole of `muxanswer`: CONFIG first, then the conversation.

ghost use Rattle.std.specs.Prelude.{◌≡◌, ◌+◌, ◌≤◌, ◌⊎◌, ℕ, List, Some, Ok, IfOk, IfErr, IsErr, IsErrOf};
ghost use Rattle.gw_outside.specs.Faults.{HasRisen};
ghost use Rattle.schema_toml.specs.Faults.{text_limit};
ghost use Rattle.schema_toml.specs.declared.fault.ConfigFault.{ConfigFault};
ghost use Rattle.cmd_base.specs.Order.{HasGiven};
ghost use Rattle.cmd_base.specs.Texts.{ReadsWithin};
ghost use Rattle.cmd_muxanswer.specs.Sessions.{AreSessions, sessions_of_text};
ghost use Rattle.cmd_muxanswer.specs.Promise.{GaveBy, IsRefusal, Judges};
ghost use Rattle.cmd_muxanswer.specs.Devices.{KeepsBehindConfig, KeepsOutputs, content_of};

use crate::conversation::converse;
use crate::outcome::Outcome;
use crate::sessions::Sessions;
use cmd_base::{Status, read_config};
use gw_outside::{Sink, Source};
use std::alloc::Global;
use std::sync::Wait;

/// The devices of a run.
pub struct MuxDevices<S, K> {
    pub config: S,
    pub input: S,
    pub wire: K,
    pub out: K,
}

/// The sessions that a source gives.
///
/// # Errors
/// `Config` with the fault of the text, `InputFault` where the source failed, and `Memory`.
fn sessions_from<S: Source>(alloc: Global, config: &mut S) -> Result<Sessions, Outcome>
    ensures valid { IfOk result AreSessions }
    ensures ok { IfOk result (λ sessions. (text : List ℕ) → S.left config.old ≡ Some text → sessions_of_text text ≡ Ok sessions) }
    ensures refused { IfErr result (λ outcome. (text : List ℕ) → S.left config.old ≡ Some text → Judges outcome (sessions_of_text text)) }
    ensures within { ReadsWithin (S.left config.old) (S.left config.new) (text_limit + 1) }
    ensures counted { S.faults config.old ≤ S.faults config.new }
    ensures fault { IsErrOf result Outcome.InputFault → HasRisen (S.faults config.old) (S.faults config.new) }
    ensures refusal { IfErr result IsRefusal }
{
    match read_config::<S, Sessions>(alloc, (), config) {
        Ok(sessions) => Ok(sessions),
        Err(Status::Config(fault)) => Err(Outcome::Config(fault)),
        Err(Status::InputFault) => Err(Outcome::InputFault),
        // No status but want of memory is left.
        Err(_) => Err(Outcome::Memory),
    }
}

/// `muxanswer`: several acceptors' sessions over the recorded bytes of one client. Each frame is answered by the session that the last
/// Context before it names, as `answer` has it; WIRE has the replies, each behind a Context where another session wrote before, and OUT the
/// lines of all sessions, each behind its session's number.
pub fn run_muxanswer<R: Wait, S: Source, K: Sink>(
    rt: &R,
    alloc: Global,
    devices: &mut MuxDevices<S, K>,
) -> Outcome
    ensures verdict { (text : List ℕ) → S.left devices.old.config ≡ Some text → Judges result (sessions_of_text text) }
    ensures gave { (text input : List ℕ) → S.left devices.old.config ≡ Some text → S.left devices.old.input ≡ Some input
        → GaveBy (sessions_of_text text) input (content_of S.left K.taken devices.old) (content_of S.left K.taken devices.new) result }
    ensures refused { (fault : ConfigFault) → result ≡ Outcome.Config fault → KeepsBehindConfig devices.old devices.new }
    ensures spared { result ≡ Outcome.InputFault → KeepsOutputs devices.old devices.new ⊎ HasGiven (S.left devices.old.input) (S.left devices.new.input) }
    ensures within { ReadsWithin (S.left devices.old.config) (S.left devices.new.config) (text_limit + 1) }
    ensures inputs_counted { (S.faults devices.old.config ≤ S.faults devices.new.config) × (S.faults devices.old.input ≤ S.faults devices.new.input) }
    ensures outputs_counted { (K.faults devices.old.wire ≤ K.faults devices.new.wire) × (K.faults devices.old.out ≤ K.faults devices.new.out) }
    ensures unread { result ≡ Outcome.InputFault → (HasRisen (S.faults devices.old.config) (S.faults devices.new.config) × KeepsBehindConfig devices.old devices.new)
        ⊎ HasRisen (S.faults devices.old.input) (S.faults devices.new.input) }
    ensures unwritten { result ≡ Outcome.OutputFault → HasRisen (K.faults devices.old.wire) (K.faults devices.new.wire) ⊎ HasRisen (K.faults devices.old.out) (K.faults devices.new.out) }
{
    match sessions_from(alloc, &mut devices.config) {
        Ok(sessions) => converse(
            rt,
            alloc,
            sessions,
            &mut devices.input,
            &mut devices.wire,
            &mut devices.out,
        ),
        Err(outcome) => outcome,
    }
}
