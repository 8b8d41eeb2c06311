//! The steps of a script.

ghost use Rattle.std.specs.Prelude.{◌≡◌, ◌≤◌, IfOk};
ghost use Rattle.toml.specs.View.{view};
ghost use Rattle.toml_walk.specs.Reading.{Reads};
ghost use Rattle.toml_walk.specs.Keys.{required};
ghost use Rattle.cmd_script.specs.Script.{count_of, step_by, stop_keys};

use cmd_config::Range;
use fixp_shake::Role;
use gw_fakes::Pick;
use lists::List;
use sbe_value::Path;
use std::alloc::Global;
use toml::Value;
use toml_walk::{Reader, TomlFault, deny_unknown_keys, natural_at, required};

/// The number of messages or rounds of a step, or of calls of a disk.
pub const COUNT: Range = Range {
    least: 0,
    greatest: 1_000_000,
};

/// The words of what a step does.
pub const ACTION_WORDS: &[&str] = &["burst", "rounds", "cut", "stop"];

/// The words of the end that a stop is of.
pub const END_WORDS: &[&str] = &["initiator", "acceptor"];

/// The words of what a stop leaves.
pub const PICK_WORDS: &[&str] = &["old", "kept", "noise"];

/// A step of a rehearsal.
#[derive(Clone, Copy, Drop)]
pub enum Step {
    /// Each sender submits its next messages, `count` of them or what is left, and then so many rounds run.
    Burst { count: u32, rounds: u32 },
    /// So many rounds run.
    Rounds { count: u32 },
    /// The connection is cut, and the next round begins a new one.
    Cut,
    /// The connection is cut, and an end goes on from its journals; of each of the two, `after` more calls of the disk pass, those of the opening
    /// among them. It is stopped at the first call that fails, or at the end of the next step, and goes on from what `pick` leaves.
    Stop { end: Role, after: u32, pick: Pick },
}

/// Steps in order.
pub type Steps = List<Step>;

/// What a step does.
#[derive(Clone, Copy)]
pub enum Action {
    Burst,
    Rounds,
    Cut,
    Stop,
}

/// The words of what a step does.
struct Actions;

impl Reader for Actions {
    type Parent = ();

    type Made = Action;

    ghost use Rattle.cmd_script.specs.Script.{action_of};

    ghost spelled = { λ _. action_of };

    fn read(alloc: Global, _parent: (), value: &Value) -> Result<Action, TomlFault> {
        match value.as_str() {
            Some("burst") => Ok(Action::Burst),
            Some("rounds") => Ok(Action::Rounds),
            Some("cut") => Ok(Action::Cut),
            Some("stop") => Ok(Action::Stop),
            Some(_) => Err(TomlFault::Range(Path::new(alloc))),
            None => Err(TomlFault::WrongKind(Path::new(alloc))),
        }
    }
}

/// The words of an end.
struct Ends;

impl Reader for Ends {
    type Parent = ();

    type Made = Role;

    ghost use Rattle.cmd_script.specs.Script.{end_of};

    ghost spelled = { λ _. end_of };

    fn read(alloc: Global, _parent: (), value: &Value) -> Result<Role, TomlFault> {
        match value.as_str() {
            Some("initiator") => Ok(Role::Initiator),
            Some("acceptor") => Ok(Role::Acceptor),
            Some(_) => Err(TomlFault::Range(Path::new(alloc))),
            None => Err(TomlFault::WrongKind(Path::new(alloc))),
        }
    }
}

/// The words of what a stop leaves.
struct Picks;

impl Reader for Picks {
    type Parent = ();

    type Made = Pick;

    ghost use Rattle.cmd_script.specs.Script.{pick_of};

    ghost spelled = { λ _. pick_of };

    fn read(alloc: Global, _parent: (), value: &Value) -> Result<Pick, TomlFault> {
        match value.as_str() {
            Some("old") => Ok(Pick::Old),
            Some("kept") => Ok(Pick::Kept),
            Some("noise") => Ok(Pick::Noise),
            Some(_) => Err(TomlFault::Range(Path::new(alloc))),
            None => Err(TomlFault::WrongKind(Path::new(alloc))),
        }
    }
}

/// The number at a key of a step: messages, rounds, or calls of a disk.
fn count_at(alloc: Global, keys: &Value, key: &str) -> Result<u32, TomlFault>
    ensures { Reads result (required key.now count_of (view keys.now)) }
{
    let count = natural_at(alloc, keys, key, COUNT.least, COUNT.greatest)?;
    Ok(count as u32)
}

/// The other keys of a stop.
fn read_stop(alloc: Global, keys: &Value) -> Result<Step, TomlFault>
    ensures { Reads result (stop_keys (view keys.now)) }
{
    let end = required::<Ends>(alloc, (), keys, "end")?;
    let after = count_at(alloc, keys, "after")?;
    let pick = required::<Picks>(alloc, (), keys, "pick")?;
    deny_unknown_keys(alloc, keys, &["do", "end", "after", "pick"])?;
    Ok(Step::Stop { end, after, pick })
}

/// The other keys of a step, by what it does.
fn read_step(alloc: Global, action: Action, keys: &Value) -> Result<Step, TomlFault>
    ensures { Reads result (step_by action (view keys.now)) }
{
    match action {
        Action::Burst => {
            let count = count_at(alloc, keys, "count")?;
            let rounds = count_at(alloc, keys, "rounds")?;
            deny_unknown_keys(alloc, keys, &["do", "count", "rounds"])?;
            Ok(Step::Burst { count, rounds })
        }
        Action::Rounds => {
            let count = count_at(alloc, keys, "count")?;
            deny_unknown_keys(alloc, keys, &["do", "count"])?;
            Ok(Step::Rounds { count })
        }
        Action::Cut => {
            deny_unknown_keys(alloc, keys, &["do"])?;
            Ok(Step::Cut)
        }
        Action::Stop => read_stop(alloc, keys),
    }
}

/// The steps of a list.
pub(crate) struct StepReader;

impl Reader for StepReader {
    type Parent = ();

    type Made = Step;

    ghost use Rattle.cmd_script.specs.Script.{step_of};

    ghost spelled = { λ _. step_of };

    fn read(alloc: Global, _parent: (), keys: &Value) -> Result<Step, TomlFault> {
        if !keys.is_table() {
            return Err(TomlFault::WrongKind(Path::new(alloc)));
        }
        let action = required::<Actions>(alloc, (), keys, "do")?;
        read_step(alloc, action, keys)
    }
}
