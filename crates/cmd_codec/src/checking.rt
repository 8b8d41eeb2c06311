//! The whole of `check`: CONFIG first, then the layout.

ghost use Rattle.std.specs.Prelude.{◌≡◌, ◌+◌, ℕ, List, Some, IsErr};
ghost use Rattle.schema_toml.specs.Faults.{text_limit};
ghost use Rattle.schema_toml.specs.declared.fault.ConfigFault.{ConfigFault};
ghost use Rattle.schema_load.specs.Load.{plan_of_text};
ghost use Rattle.cmd_base.specs.Texts.{Judges, ReadsWithin};
ghost use Rattle.cmd_base.specs.Causes.{NoneFell, IsCaused, faults_of};
ghost use Rattle.cmd_base.specs.Order.{IsOfStreams, KeepsBehindConfig, KeepsDisks, StopsAtConfig, FailsInOrder};
ghost use Rattle.cmd_codec.specs.Layouts.{GaveLayout};

use crate::layout::print_layout;
use cmd_base::{Outside, Status, read_config};
use gw_outside::{Disk, Sink, Source};
use sbe_schema::Checked;
use std::alloc::Global;

/// `check`: the layout of a schema.
pub fn check<S: Source, K: Sink, D: Disk>(alloc: Global, outside: &mut Outside<S, K, D>) -> Status
    ensures config_verdict { (text : List ℕ) → S.left outside.old.config ≡ Some text → Judges result (plan_of_text text) }
    ensures check_output { (text : List ℕ) → S.left outside.old.config ≡ Some text → GaveLayout (plan_of_text text) (K.taken outside.old.out) (K.taken outside.new.out) result }
    ensures spared { result ≡ Status.InputFault → outside.new.out ≡ outside.old.out }
    ensures untouched_by_check { (outside.new.input ≡ outside.old.input) × (outside.new.wire ≡ outside.old.wire) × KeepsDisks outside.old outside.new }
    ensures refused { (fault : ConfigFault) → result ≡ Status.Config fault → KeepsBehindConfig outside.old outside.new }
    ensures config_first { (text : List ℕ) → S.left outside.old.config ≡ Some text → IsErr (plan_of_text text) → StopsAtConfig S.faults outside.old outside.new result }
    ensures unread { result ≡ Status.InputFault → FailsInOrder S.faults outside.old outside.new }
    ensures within { ReadsWithin (S.left outside.old.config) (S.left outside.new.config) (text_limit + 1) }
    ensures none_fell { NoneFell (faults_of S.faults K.faults D.faults outside.old) (faults_of S.faults K.faults D.faults outside.new) }
    ensures cause { IsCaused (faults_of S.faults K.faults D.faults outside.old) (faults_of S.faults K.faults D.faults outside.new) result }
    ensures ends { IsOfStreams result }
{
    match read_config::<S, Checked>(alloc, (), &mut outside.config) {
        Ok(schema) => print_layout(alloc, &schema, &mut outside.out),
        Err(status) => status,
    }
}
