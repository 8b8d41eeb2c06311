//! The whole of `answer`: CONFIG first, then the conversation.

ghost use Rattle.std.specs.Prelude.{◌≡◌, ◌+◌, ℕ, List, Some, IsErr};
ghost use Rattle.schema_toml.specs.Faults.{text_limit};
ghost use Rattle.schema_toml.specs.declared.fault.ConfigFault.{ConfigFault};
ghost use Rattle.cmd_config.specs.Settings.{settings_of_text};
ghost use Rattle.cmd_base.specs.Texts.{Judges, ReadsWithin};
ghost use Rattle.cmd_base.specs.Causes.{NoneFell, IsCaused, faults_of};
ghost use Rattle.cmd_base.specs.Contents.{content_of};
ghost use Rattle.cmd_base.specs.Order.{IsOfStreams, KeepsBehindConfig, KeepsDisks, StopsAtConfig, FailsInOrder, SparesOutputs};
ghost use Rattle.cmd_answer.specs.Promise.{GaveBy};

use crate::acceptor::converse;
use cmd_base::{Outside, Status, read_config};
use cmd_config::Settings;
use gw_outside::{Disk, Sink, Source};
use std::alloc::Global;
use std::sync::Wait;

/// `answer`: the acceptor's session over recorded bytes.
pub fn answer<R: Wait, S: Source, K: Sink, D: Disk>(
    rt: &R,
    alloc: Global,
    outside: &mut Outside<S, K, D>,
) -> Status
    ensures config_verdict { (text : List ℕ) → S.left outside.old.config ≡ Some text → Judges result (settings_of_text text) }
    ensures answer_output { (text input : List ℕ) → S.left outside.old.config ≡ Some text → S.left outside.old.input ≡ Some input →
        GaveBy (settings_of_text text) input (content_of S.left K.taken outside.old) (content_of S.left K.taken outside.new) result }
    ensures spared { result ≡ Status.InputFault → SparesOutputs S.left outside.old outside.new }
    ensures untouched_by_answer { KeepsDisks outside.old outside.new }
    ensures refused { (fault : ConfigFault) → result ≡ Status.Config fault → KeepsBehindConfig outside.old outside.new }
    ensures config_first { (text : List ℕ) → S.left outside.old.config ≡ Some text → IsErr (settings_of_text text) → StopsAtConfig S.faults outside.old outside.new result }
    ensures unread { result ≡ Status.InputFault → FailsInOrder S.faults outside.old outside.new }
    ensures within { ReadsWithin (S.left outside.old.config) (S.left outside.new.config) (text_limit + 1) }
    ensures none_fell { NoneFell (faults_of S.faults K.faults D.faults outside.old) (faults_of S.faults K.faults D.faults outside.new) }
    ensures cause { IsCaused (faults_of S.faults K.faults D.faults outside.old) (faults_of S.faults K.faults D.faults outside.new) result }
    ensures ends { IsOfStreams result }
{
    match read_config::<S, Settings>(alloc, (), &mut outside.config) {
        Ok(settings) => converse(
            rt,
            alloc,
            settings,
            &mut outside.input,
            &mut outside.wire,
            &mut outside.out,
        ),
        Err(status) => status,
    }
}
