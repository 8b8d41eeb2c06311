//! How an end tells the numbers that an idempotent flow applied: one message for each run of consecutive ones.

ghost use Rattle.std.specs.Prelude.{◌≡◌, ℕ, Option, ◌+◌, ◌*◌, ◌<◌, ◌≤◌, ◌^◌, ◌++◌, ◌∷◌, [], length, take};
ghost use Rattle.flow_idem.specs.Runs.{runs_of};
ghost use Rattle.fixp_replies.specs.Events.{applied_runs, turn_ended};
ghost use Rattle.fixp_replies.specs.Facts.{around_of};
ghost use Rattle.fixp_machine.specs.Machine.{bytes_of, sent_at};
ghost use Rattle.fixp_machine.specs.Sound.{Sound, HeldFits};

use crate::output::Output;
use crate::sound::finish_turn;
use crate::writing::{write_message, write_place};
use fixp_msgs::Range;
use fixp_replies::{Around, Facts, Outgoing};
use fixp_shake::EndConfig;
use flow_idem::Applied;

/// Writes that a run was applied.
fn append_run(config: &EndConfig, output: &mut Output, run: Range)
    requires credentials { length config.now.credentials ≤ 2048 }
    requires count { run.count < 2 ^ 32 }
    requires room { length output.old + 64 ≤ 5242880 }
    ensures bytes { output.new ≡ output.old ++ bytes_of (applied_runs (run ∷ [])) }
    ensures short { length output.new ≤ length output.old + 64 }
{
    let message = Outgoing::Applied {
        from: run.from,
        count: run.count as u32,
    };
    write_message(config, output, message);
}

/// Writes each run that is to be told.
fn append_runs(config: &EndConfig, output: &mut Output, applied: &Applied)
    requires credentials { length config.now.credentials ≤ 2048 }
    requires room { length output.old + 64 * length applied.now.untold ≤ 5100000 }
    ensures bytes { output.new ≡ output.old ++ bytes_of (applied_runs (runs_of applied.now.untold)) }
    ensures short { length output.new ≤ length output.old + 64 * length applied.now.untold }
{
    for place in 0..applied.run_count() {
        append_run(config, output, applied.run(place));
    }
}

/// Writes each run that is to be told at the moment `now`, and keeps the moment of the last frame written.
fn write_runs(
    config: &EndConfig,
    output: &mut Output,
    last_sent: &mut u64,
    applied: &Applied,
    now: u64,
)
    requires credentials { length config.now.credentials ≤ 2048 }
    requires room { length output.old + 64 * length applied.now.untold ≤ 5100000 }
    ensures bytes { output.new ≡ output.old ++ bytes_of (applied_runs (runs_of applied.now.untold)) }
    ensures sent { last_sent.new ≡ sent_at last_sent.old (bytes_of (applied_runs (runs_of applied.now.untold))) now }
    ensures within { last_sent.old ≤ now → last_sent.new ≤ now }
    ensures short { length output.new ≤ length output.old + 64 * length applied.now.untold }
{
    let before = output.unsent().len();
    append_runs(config, output, applied);
    if before < output.unsent().len() {
        *last_sent = now;
    }
}

/// Writes what the end of a turn tells at the moment `now`, and keeps the moment of the last frame written.
pub fn write_turn(
    around: &Around<'_>,
    facts: &mut Facts,
    applied: &Applied,
    output: &mut Output,
    last_sent: &mut u64,
)
    requires sound { Sound around.now.config.now facts.old }
    requires room { length output.old + 64 * length applied.now.untold ≤ 5100000 }
    ensures bytes { output.new ≡ output.old ++ bytes_of (turn_ended (around_of around.now) facts.old (runs_of applied.now.untold)).written }
    ensures sent { last_sent.new ≡ sent_at last_sent.old (bytes_of (turn_ended (around_of around.now) facts.old (runs_of applied.now.untold)).written) around.now.moment }
    ensures within { last_sent.old ≤ around.now.moment → last_sent.new ≤ around.now.moment }
    ensures next { facts.new ≡ (turn_ended (around_of around.now) facts.old (runs_of applied.now.untold)).next }
    ensures sound { Sound around.now.config.now facts.new }
    ensures recorded { facts.new.recorded ≡ facts.old.recorded }
    ensures fits { (held : Option ℕ) → HeldFits held facts.old → HeldFits held facts.new }
    ensures serving { facts.new.connection.serving ≡ facts.old.connection.serving }
    ensures short { length output.new ≤ length output.old + 64 * (length applied.now.untold + 1) }
{
    write_runs(around.config, output, last_sent, applied, around.moment);
    let closing = finish_turn(around, facts);
    write_place(around.config, output, last_sent, &closing, around.moment);
}
