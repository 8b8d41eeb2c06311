//! The script itself: its keys, with what is asked of several of them.

ghost use Rattle.std.specs.Prelude.{◌≡◌, ◌<◌, ◌≤◌, nat_le, codes, length, IfOk, Err};
ghost use Rattle.std.specs.List.{AllByRecursion};
ghost use Rattle.toml.specs.View.{view};
ghost use Rattle.toml_walk.specs.Keys.{required};
ghost use Rattle.toml_walk.specs.Reading.{Reads};
ghost use Rattle.schema_toml.specs.Faults.{Tells, text_limit};
ghost use Rattle.cmd_config.specs.Settings.{ensure_in_range};
ghost use Rattle.fixp_datagram.specs.Packing.{cut_count};
ghost use Rattle.fixp_datagram.specs.Receiving.{IsCarried};
ghost use Rattle.cmd_datagram.specs.Script.{IsNumberOf, IsScript, deliver_of, flow_of, script_of, script_of_document, script_of_text};

use cmd_base::Configured;
use cmd_config::Range;
use fixp_msgs::Flow;
use lists::List;
use sbe_value::Path;
use schema_toml::{ConfigFault, TEXT_LIMIT};
use std::alloc::Global;
use toml::Value;
use toml_walk::{
    Reader, TomlFault, deny_unknown_keys, list_or_empty, natural_at, out_of_range, read_document,
    read_natural, required,
};

/// How many messages there are.
pub const MESSAGES: Range = Range {
    least: 0,
    greatest: 10_000,
};

/// How many of them a datagram has.
pub const PER: Range = Range {
    least: 1,
    greatest: 64,
};

/// How many datagrams are delivered.
pub const DELIVERIES: Range = Range {
    least: 0,
    greatest: 100_000,
};

/// The words of the flows that are carried in datagrams.
pub const FLOW_WORDS: &[&str] = &["recoverable", "idempotent"];

/// Numbers of datagrams, from 1, in the order in which they are delivered.
pub type Deliveries = List<u64>;

/// A script: the values of all its keys.
#[derive(Debug, Drop)]
pub struct Script {
    /// The flow that carries the messages: recoverable or idempotent.
    pub flow: Flow,
    /// How many messages there are, 0 to 10,000.
    pub messages: u64,
    /// How many of them a datagram has, 1 to 64; the last has what is left.
    pub per: u64,
    /// Which datagrams are delivered, at most 100,000.
    pub deliver: Deliveries,
}

/// How many datagrams so many messages make, with `per` of them each and what is left in the last.
pub fn datagram_count(per: u64, messages: u64) -> u64
    requires per { (1 ≤ per) × (per ≤ 64) }
    requires messages { messages ≤ 10000 }
    ensures { result ≡ cut_count per messages }
{
    (messages + (per - 1)) / per
}

/// The flows that are carried in datagrams.
struct Flows;

impl Reader for Flows {
    type Parent = ();

    type Made = Flow;

    ghost use Rattle.cmd_datagram.specs.Script.{flow_of};

    ghost spelled = { λ _. flow_of };

    fn read(alloc: Global, _parent: (), value: &Value) -> Result<Flow, TomlFault> {
        match value.as_str() {
            Some("recoverable") => Ok(Flow::Recoverable),
            Some("idempotent") => Ok(Flow::Idempotent),
            Some(_) => Err(TomlFault::Range(Path::new(alloc))),
            None => Err(TomlFault::WrongKind(Path::new(alloc))),
        }
    }
}

/// The numbers of datagrams, of which there are so many.
struct Numbers;

impl Reader for Numbers {
    type Parent = u64;

    type Made = u64;

    ghost use Rattle.toml_walk.specs.Values.{natural_of};

    ghost spelled = { λ datagrams. natural_of 1 datagrams };

    fn read(alloc: Global, datagrams: u64, value: &Value) -> Result<u64, TomlFault> {
        read_natural(alloc, value, 1, datagrams)
    }
}

/// Checks that at most so many datagrams are delivered as may be.
///
/// # Errors
/// `Range` at `deliver` where they are more.
fn ensure_few(alloc: Global, deliver: &[u64]) -> Result<(), TomlFault>
    ensures { Reads result (ensure_in_range (codes "deliver") (nat_le (length deliver.now) 100000)) }
{
    if deliver.len() as u64 <= DELIVERIES.greatest {
        Ok(())
    } else {
        Err(out_of_range(alloc, "deliver"))
    }
}

/// Which of so many datagrams are delivered, none where the key is absent.
#[tactic(auto, using(crate::proofs::Readings::deliver_each))]
fn read_deliver(alloc: Global, datagrams: u64, keys: &Value) -> Result<Deliveries, TomlFault>
    ensures value { Reads result (deliver_of datagrams (view keys.now)) }
    ensures each { IfOk result (λ deliver. AllByRecursion (IsNumberOf datagrams) deliver) }
{
    let deliver = list_or_empty::<Numbers>(alloc, datagrams, keys, "deliver")?;
    ensure_few(alloc, deliver.as_slice())?;
    Ok(List::from(deliver))
}

/// The flow that carries the messages.
#[tactic(auto, using(crate::proofs::Readings::flow_carried))]
fn read_flow(alloc: Global, keys: &Value) -> Result<Flow, TomlFault>
    ensures value { Reads result (required (codes "flow") flow_of (view keys.now)) }
    ensures carried { IfOk result IsCarried }
{
    required::<Flows>(alloc, (), keys, "flow")
}

fn read_table(alloc: Global, keys: &Value) -> Result<Script, TomlFault>
    ensures value { Reads result (script_of (view keys.now)) }
    ensures valid { IfOk result IsScript }
{
    let flow = read_flow(alloc, keys)?;
    let messages = natural_at(alloc, keys, "messages", MESSAGES.least, MESSAGES.greatest)?;
    let per = natural_at(alloc, keys, "per", PER.least, PER.greatest)?;
    let deliver = read_deliver(alloc, datagram_count(per, messages), keys)?;
    deny_unknown_keys(alloc, keys, &["flow", "messages", "per", "deliver"])?;
    Ok(Script {
        flow,
        messages,
        per,
        deliver,
    })
}

/// The script that a document is.
fn read_keys(alloc: Global, text: &[u8]) -> Result<Script, TomlFault>
    ensures value { Reads result (script_of_document text.now) }
    ensures valid { IfOk result IsScript }
{
    let keys = read_document(alloc, text)?;
    read_table(alloc, &keys)
}

/// The script that a text is.
///
/// # Errors
/// `TooLong` exactly where the text is longer than `TEXT_LIMIT`, and else the first fault in the order in which
/// its keys are visited: at a number of `deliver` that names no datagram, at `deliver` where there are more than 100,000.
pub fn read_script(alloc: Global, text: &[u8]) -> Result<Script, ConfigFault>
    ensures exact { Tells result (script_of_text text.now) }
    ensures too_long { text_limit < length text.now → result ≡ Err ConfigFault.TooLong }
    ensures valid { IfOk result IsScript }
{
    if text.len() > TEXT_LIMIT {
        return Err(ConfigFault::TooLong);
    }
    match read_keys(alloc, text) {
        Ok(script) => Ok(script),
        Err(fault) => Err(ConfigFault::Toml(fault)),
    }
}

impl Configured for Script {
    ghost use Rattle.schema_toml.specs.Faults.{of_text};
    ghost use Rattle.cmd_datagram.specs.Script.{IsScript, script_of_document};
    ghost use Rattle.cmd_datagram.specs.declared.script.Script as scripts;

    type For = ();

    ghost Told = { scripts.Script };

    ghost told = { λ script. script };

    ghost reading = { λ _ text. of_text (script_of_document text) };

    ghost is_valid = { IsScript };

    fn read(alloc: Global, _wanted: (), text: &[u8]) -> Result<Script, ConfigFault> {
        read_script(alloc, text)
    }
}
