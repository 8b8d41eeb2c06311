//! The whole of `decode`: CONFIG first, then the frames.

ghost use Rattle.std.specs.Prelude.{◌≡◌, ◌+◌, ℕ, List, Some, IsErr};
ghost use Rattle.schema_toml.specs.Faults.{text_limit};
ghost use Rattle.schema_toml.specs.declared.fault.ConfigFault.{ConfigFault};
ghost use Rattle.schema_load.specs.Load.{plan_of_text};
ghost use Rattle.cmd_base.specs.Texts.{Judges, ReadsWithin};
ghost use Rattle.cmd_base.specs.Causes.{NoneFell, IsCaused, faults_of};
ghost use Rattle.cmd_base.specs.Order.{IsOfStreams, KeepsBehindConfig, KeepsDisks, StopsAtConfig, FailsInOrder, SparesOutputs};
ghost use Rattle.cmd_codec.specs.Decodes.{GaveText};

use crate::shown::Shown;
use crate::stream::print_frames;
use cmd_base::{Outside, Status, read_config};
use gw_outside::{Disk, Sink, Source};
use sbe_layout::Plan;
use std::alloc::Global;
use std::sync::Wait;

/// `decode`: recorded frames as text, whose values are shown so.
pub fn decode<R: Wait, S: Source, K: Sink, D: Disk>(
    rt: &R,
    alloc: Global,
    shown: Shown,
    outside: &mut Outside<S, K, D>,
) -> Status
    ensures config_verdict { (text : List ℕ) → S.left outside.old.config ≡ Some text → Judges result (plan_of_text text) }
    ensures decode_output { (text input : List ℕ) → S.left outside.old.config ≡ Some text → S.left outside.old.input ≡ Some input →
        GaveText shown (plan_of_text text) input (K.taken outside.old.out) (K.taken outside.new.out) result }
    ensures spared { result ≡ Status.InputFault → SparesOutputs S.left outside.old outside.new }
    ensures untouched_by_decode { (outside.new.wire ≡ outside.old.wire) × KeepsDisks outside.old outside.new }
    ensures refused { (fault : ConfigFault) → result ≡ Status.Config fault → KeepsBehindConfig outside.old outside.new }
    ensures config_first { (text : List ℕ) → S.left outside.old.config ≡ Some text → IsErr (plan_of_text text) → StopsAtConfig S.faults outside.old outside.new result }
    ensures unread { result ≡ Status.InputFault → FailsInOrder S.faults outside.old outside.new }
    ensures within { ReadsWithin (S.left outside.old.config) (S.left outside.new.config) (text_limit + 1) }
    ensures none_fell { NoneFell (faults_of S.faults K.faults D.faults outside.old) (faults_of S.faults K.faults D.faults outside.new) }
    ensures cause { IsCaused (faults_of S.faults K.faults D.faults outside.old) (faults_of S.faults K.faults D.faults outside.new) result }
    ensures ends { IsOfStreams result }
{
    match read_config::<S, Plan>(alloc, (), &mut outside.config) {
        Ok(plan) => print_frames(
            rt,
            alloc,
            shown,
            &plan,
            &mut outside.input,
            &mut outside.out,
        ),
        Err(status) => status,
    }
}
