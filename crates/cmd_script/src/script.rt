//! The script itself: its keys, with what is asked of several of them.

ghost use Rattle.std.specs.Prelude.{◌≡◌, ◌<◌, ◌≤◌, length, replicate, All, IfOk, Err, true, false};
ghost use Rattle.toml.specs.View.{view};
ghost use Rattle.toml_walk.specs.Reading.{Reads};
ghost use Rattle.schema_toml.specs.Faults.{Tells, text_limit};
ghost use Rattle.cmd_config.specs.Settings.{IsLinkInRange, ensure_in_range, is_none, version_of};
ghost use Rattle.cmd_script.specs.Script.{IsCount, IsLoadInRange, IsScript, allows_desks, allows_messages, link_of, load_of, messages_of, script_of, script_of_document, script_of_text, steps_of};

use crate::steps::{StepReader, Steps};
use cmd_config::{
    DESKS, Flows, KEEPALIVE, Link, ORDER_VERSION, REFERENCE, Range, SENDERS, SESSION_VERSION,
    Sessions, read_credentials,
};
use fixp_msgs::Flow;
use lists::List;
use schema_toml::{ConfigFault, TEXT_LIMIT};
use std::alloc::{AllocError, Global};
use toml::Value;
use toml_walk::{
    TomlFault, deny_unknown_keys, list_or_empty, natural_at, natural_or, out_of_range,
    read_document, required,
};

/// The messages of each sender, and of all senders together at most.
pub const MESSAGES: Range = Range {
    least: 0,
    greatest: 100_000,
};

/// A number for each sender, from sender 1 on.
pub type Counts = List<u64>;

/// What the two ends send.
#[derive(Drop)]
pub struct Load {
    /// How many messages each sender of the initiator sends: 1 to 16 senders, at most 100,000 messages in all.
    pub messages: Counts,
    /// How many desks the acceptor has, 0 to 16.
    pub desks: u8,
    /// The version of the order schema by which the initiator writes, 1 or 2.
    pub initiator_version: u8,
    /// The version of the order schema by which the desks read and write, 1 or 2.
    pub desk_version: u8,
    /// The mantissa of the reference price, 1 to 10^15.
    pub reference: u64,
}

/// A script: the values of all its keys.
#[derive(Drop)]
pub struct Script {
    /// The session, its flows and credentials.
    pub link: Link,
    /// What the two ends send.
    pub load: Load,
    /// What happens, in order.
    pub steps: Steps,
}

/// Checks a condition on the value at a key.
///
/// # Errors
/// `Range` at that key where it is not met.
fn ensure_in_range(alloc: Global, key: &str, holds: bool) -> Result<(), TomlFault>
    ensures value { Reads result (ensure_in_range key.now holds) }
    ensures met { IfOk result (λ _. holds ≡ true) }
{
    if holds {
        Ok(())
    } else {
        Err(out_of_range(alloc, key))
    }
}

/// Whether a flow is none.
fn is_none(flow: Flow) -> bool
    ensures { result ≡ is_none flow }
{
    matches!(flow, Flow::None)
}

/// Whether each of so many senders may send so many messages.
fn allows_messages(senders: u64, messages: u64) -> bool
    requires senders { senders ≤ 16 }
    requires messages { messages ≤ 100000 }
    ensures { result ≡ allows_messages senders messages }
{
    senders * messages <= MESSAGES.greatest
}

/// Whether there may be so many desks.
fn allows_desks(server: Flow, desks: u64) -> bool
    ensures { result ≡ allows_desks server desks }
{
    if desks == 0 {
        is_none(server)
    } else {
        !is_none(server)
    }
}

/// The keys of the session itself but its schema's version, which is that of a text without the key.
fn read_link(alloc: Global, keys: &Value) -> Result<Link, TomlFault>
    ensures value { Reads result (link_of (view keys.now)) }
    ensures range { IfOk result IsLinkInRange }
    ensures client { IfOk result (λ link. is_none link.client_flow ≡ false) }
{
    let session = required::<Sessions>(alloc, (), keys, "session")?;
    let keepalive = natural_at(
        alloc,
        keys,
        "keepalive",
        KEEPALIVE.least,
        KEEPALIVE.greatest,
    )?;
    let client = required::<Flows>(alloc, (), keys, "client_flow")?;
    ensure_in_range(alloc, "client_flow", !is_none(client))?;
    let server = required::<Flows>(alloc, (), keys, "server_flow")?;
    let credentials = read_credentials(alloc, keys)?;
    Ok(Link {
        session,
        keepalive: keepalive as u32,
        client_flow: client,
        server_flow: server,
        credentials,
        version: 1,
    })
}

/// The same number for each of some senders.
fn replicated(alloc: Global, senders: u64, messages: u64) -> Result<Counts, AllocError>
    requires senders { senders ≤ 16 }
    ensures { IfOk result (λ counts. counts ≡ replicate senders messages) }
{
    Ok(List::from(vec![in alloc; messages; senders as usize]?))
}

/// How many messages each sender sends.
fn read_messages(alloc: Global, keys: &Value) -> Result<Counts, TomlFault>
    ensures value { Reads result (messages_of (view keys.now)) }
    ensures some { IfOk result (λ counts. (1 ≤ length counts) × (length counts ≤ 16)) }
    ensures each { IfOk result (λ counts. All IsCount counts) }
{
    let senders = natural_at(alloc, keys, "senders", 1, SENDERS.greatest)?;
    let messages = natural_at(alloc, keys, "messages", MESSAGES.least, MESSAGES.greatest)?;
    ensure_in_range(alloc, "messages", allows_messages(senders, messages))?;
    Ok(replicated(alloc, senders, messages)?)
}

/// The keys of what the two ends send.
fn read_load(alloc: Global, server: Flow, keys: &Value) -> Result<Load, TomlFault>
    ensures value { Reads result (load_of server (view keys.now)) }
    ensures range { IfOk result IsLoadInRange }
    ensures desks { IfOk result (λ load. allows_desks server load.desks ≡ true) }
{
    let messages = read_messages(alloc, keys)?;
    let desks = natural_at(alloc, keys, "desks", DESKS.least, DESKS.greatest)?;
    ensure_in_range(alloc, "desks", allows_desks(server, desks))?;
    let (least, greatest) = (ORDER_VERSION.least, ORDER_VERSION.greatest);
    let initiator_version = natural_at(alloc, keys, "initiator_version", least, greatest)?;
    let desk_version = natural_at(alloc, keys, "desk_version", least, greatest)?;
    let (least, greatest) = (REFERENCE.least, REFERENCE.greatest);
    let reference = natural_or(alloc, keys, "reference", least, greatest, 1_000_000)?;
    Ok(Load {
        messages,
        desks: desks as u8,
        initiator_version: initiator_version as u8,
        desk_version: desk_version as u8,
        reference,
    })
}

/// The steps, none where the key is absent.
fn read_steps(alloc: Global, keys: &Value) -> Result<Steps, TomlFault>
    ensures { Reads result (steps_of (view keys.now)) }
{
    Ok(List::from(list_or_empty::<StepReader>(alloc, (), keys, "step")?))
}

/// The version of the session schema, 1 where the key is absent.
fn read_version(alloc: Global, keys: &Value) -> Result<u16, TomlFault>
    ensures value { Reads result (version_of (view keys.now)) }
    ensures range { IfOk result (λ version. version ≤ 1) }
{
    let (least, greatest) = (SESSION_VERSION.least, SESSION_VERSION.greatest);
    let version = natural_or(alloc, keys, "session_version", least, greatest, 1)?;
    Ok(version as u16)
}

fn read_table(alloc: Global, keys: &Value) -> Result<Script, TomlFault>
    ensures value { Reads result (script_of (view keys.now)) }
    ensures valid { IfOk result IsScript }
{
    let mut link = read_link(alloc, keys)?;
    let load = read_load(alloc, link.server_flow, keys)?;
    let steps = read_steps(alloc, keys)?;
    link.version = read_version(alloc, keys)?;
    deny_unknown_keys(
        alloc,
        keys,
        &[
            "session",
            "keepalive",
            "client_flow",
            "server_flow",
            "credentials",
            "senders",
            "messages",
            "desks",
            "initiator_version",
            "desk_version",
            "reference",
            "step",
            "session_version",
        ],
    )?;
    Ok(Script { link, load, steps })
}

/// The script that a document is.
fn read_keys(alloc: Global, text: &[u8]) -> Result<Script, TomlFault>
    ensures value { Reads result (script_of_document text.now) }
    ensures valid { IfOk result IsScript }
{
    let keys = read_document(alloc, text)?;
    read_table(alloc, &keys)
}

/// The script that a text is.
///
/// # Errors
/// `TooLong` exactly where the text is longer than `TEXT_LIMIT`, and else the first fault in the order in which
/// its keys are visited; a condition on several keys is out of range at the last of them.
pub fn read_script(alloc: Global, text: &[u8]) -> Result<Script, ConfigFault>
    ensures exact { Tells result (script_of_text text.now) }
    ensures too_long { text_limit < length text.now → result ≡ Err ConfigFault.TooLong }
    ensures valid { IfOk result IsScript }
{
    if text.len() > TEXT_LIMIT {
        return Err(ConfigFault::TooLong);
    }
    match read_keys(alloc, text) {
        Ok(script) => Ok(script),
        Err(fault) => Err(ConfigFault::Toml(fault)),
    }
}
