//! The configuration of a session for a purpose: its keys, with what the purpose asks
//! of several of them.

ghost use Rattle.std.specs.Prelude.{◌≡◌, ◌<◌, ◌≤◌, true, IsTrue, codes, [], length, IfOk, Err};
ghost use Rattle.toml_walk.specs.Keys.{get_or_default, deny_unknown_keys};
ghost use Rattle.toml.specs.View.{view};
ghost use Rattle.toml_walk.specs.Reading.{Reads};
ghost use Rattle.schema_toml.specs.Faults.{Tells, text_limit};
ghost use Rattle.cmd_config.specs.Laws.{KeepsRole};
ghost use Rattle.cmd_config.specs.Settings.{IsLinkInRange, IsTradeInRange, allows_book, allows_desks, allows_senders, book_of, configuration_of, configuration_of_document, configuration_of_text, credentials_of, ensure_in_range, known_keys, link_of, trade_of, version_of};

use crate::limits::{DESKS, KEEPALIVE, ORDER_VERSION, REFERENCE, SENDERS, SESSION_VERSION};
use crate::purpose::{
    Purpose, allows_client, allows_server, is_accept, is_none, own_flow, role_of,
};
use crate::readers::{Credentials, Flows, Sessions, Switches};
use fixp_msgs::Flow;
use sbe_value::Bytes;
use schema_toml::{ConfigFault, TEXT_LIMIT};
use std::alloc::Global;
use toml::Value;
use toml_walk::{
    TomlFault, deny_unknown_keys, get_or_default, natural_at, natural_or, out_of_range,
    read_document, required,
};

/// What a configuration says of the session itself.
#[derive(Drop)]
pub struct Link {
    /// The 16 bytes of the session's UUID.
    pub session: [u8; 16],
    /// The own heartbeat interval, 100 to 60,000 milliseconds.
    pub keepalive: u32,
    /// The flow that the client sends.
    pub client_flow: Flow,
    /// The flow that the server sends.
    pub server_flow: Flow,
    /// The credentials that a client gives, at most 2,048 bytes.
    pub credentials: Bytes,
    /// The version of the session schema that the end speaks, 0 or 1.
    pub version: u16,
}

/// What a configuration says of those who send and of their orders.
#[derive(Clone, Copy)]
pub struct Trade {
    /// How many senders there are, 0 to 16.
    pub senders: u8,
    /// How many desks there are, 0 to 16.
    pub desks: u8,
    /// The version of the order schema, 1 or 2.
    pub order_version: u8,
    /// The mantissa of the reference price, 1 to 10^15.
    pub reference: u64,
    /// Whether the one desk keeps a book of orders in place of the reference price.
    pub book: bool,
}

/// A configuration: the values of all its keys.
#[derive(Drop)]
pub struct Configuration {
    /// The session, its flows and credentials.
    pub link: Link,
    /// The senders, the desks and their orders.
    pub trade: Trade,
}

/// Checks a condition on the value at a key.
///
/// # Errors
/// `Range` at that key where it is not met.
fn ensure_in_range(alloc: Global, key: &str, holds: bool) -> Result<(), TomlFault>
    ensures value { Reads result (ensure_in_range key.now holds) }
    ensures met { IfOk result (λ _. holds ≡ true) }
{
    if holds {
        Ok(())
    } else {
        Err(out_of_range(alloc, key))
    }
}

/// Whether there may be so many senders of a flow.
fn allows_senders(own: Flow, senders: u64) -> bool
    ensures { result ≡ allows_senders own senders }
{
    if is_none(own) {
        senders == 0
    } else {
        senders != 0
    }
}

/// Whether there may be so many desks for a purpose.
fn allows_desks(purpose: Purpose, server: Flow, has_senders_key: bool, desks: u64) -> bool
    ensures { result ≡ allows_desks purpose server has_senders_key desks }
{
    desks == 0 || (is_accept(purpose) && !has_senders_key && !is_none(server))
}

/// Whether so many desks may keep a book, where one is asked for.
fn allows_book(desks: u8, book: bool) -> bool
    ensures { result ≡ allows_book desks book }
{
    !book || desks == 1
}

/// The credentials, at most 2,048 bytes; none where the key is absent.
///
/// # Errors
/// `WrongKind` and `Range` with the key, and `Memory`.
#[tactic(auto, using(crate::proofs::Readings::credentials_le))]
pub fn read_credentials(alloc: Global, keys: &Value) -> Result<Bytes, TomlFault>
    ensures value { Reads result (get_or_default (codes "credentials") [] credentials_of (view keys.now)) }
    ensures short { IfOk result (λ bytes. length bytes ≤ 2048) }
{
    get_or_default::<Credentials>(alloc, (), keys, "credentials", Bytes::new(alloc))
}

/// The keys of the session itself but its schema's version, which is that of a text without the key.
fn read_link(alloc: Global, purpose: Purpose, keys: &Value) -> Result<Link, TomlFault>
    ensures value { Reads result (link_of purpose (view keys.now)) }
    ensures range { IfOk result IsLinkInRange }
{
    let session = required::<Sessions>(alloc, (), keys, "session")?;
    let keepalive = natural_at(
        alloc,
        keys,
        "keepalive",
        KEEPALIVE.least,
        KEEPALIVE.greatest,
    )?;
    let client = required::<Flows>(alloc, (), keys, "client_flow")?;
    ensure_in_range(alloc, "client_flow", allows_client(purpose, client))?;
    let server = required::<Flows>(alloc, (), keys, "server_flow")?;
    ensure_in_range(alloc, "server_flow", allows_server(purpose, server))?;
    let credentials = read_credentials(alloc, keys)?;
    Ok(Link {
        session,
        keepalive: keepalive as u32,
        client_flow: client,
        server_flow: server,
        credentials,
        version: 1,
    })
}

/// The keys of senders, desks and orders but that of a book.
fn read_trade(
    alloc: Global,
    purpose: Purpose,
    client: Flow,
    server: Flow,
    keys: &Value,
) -> Result<Trade, TomlFault>
    ensures value { Reads result (trade_of purpose client server (view keys.now)) }
    ensures range { IfOk result IsTradeInRange }
{
    let has_senders_key = keys.get("senders").is_some();
    let senders = natural_or(alloc, keys, "senders", SENDERS.least, SENDERS.greatest, 1)?;
    let own = own_flow(role_of(purpose), client, server);
    ensure_in_range(alloc, "senders", allows_senders(own, senders))?;
    let desks = natural_or(alloc, keys, "desks", DESKS.least, DESKS.greatest, 0)?;
    ensure_in_range(
        alloc,
        "desks",
        allows_desks(purpose, server, has_senders_key, desks),
    )?;
    let order_version = natural_or(
        alloc,
        keys,
        "order_version",
        ORDER_VERSION.least,
        ORDER_VERSION.greatest,
        1,
    )?;
    let reference = natural_or(
        alloc,
        keys,
        "reference",
        REFERENCE.least,
        REFERENCE.greatest,
        1_000_000,
    )?;
    Ok(Trade {
        senders: senders as u8,
        desks: desks as u8,
        order_version: order_version as u8,
        reference,
        book: false,
    })
}

/// The session of an end that speaks this version.
fn with_version(link: Link, version: u16) -> Link
    ensures { result ≡ record link { version = version } }
{
    let Link {
        session,
        keepalive,
        client_flow,
        server_flow,
        credentials,
        ..
    } = link;
    Link {
        session,
        keepalive,
        client_flow,
        server_flow,
        credentials,
        version,
    }
}

/// The version of the session schema, 1 where the key is absent.
fn read_version(alloc: Global, keys: &Value) -> Result<u16, TomlFault>
    ensures value { Reads result (version_of (view keys.now)) }
    ensures range { IfOk result (λ version. version ≤ 1) }
{
    let version = natural_or(
        alloc,
        keys,
        "session_version",
        SESSION_VERSION.least,
        SESSION_VERSION.greatest,
        1,
    )?;
    Ok(version as u16)
}

/// Whether a book is kept, false where the key is absent or not known.
fn read_book(alloc: Global, purpose: Purpose, desks: u8, keys: &Value) -> Result<bool, TomlFault>
    ensures value { Reads result (book_of purpose desks (view keys.now)) }
    ensures range { IfOk result (λ book. IsTrue (allows_book desks book)) }
{
    if !is_accept(purpose) {
        return Ok(false);
    }
    let book = get_or_default::<Switches>(alloc, (), keys, "book", false)?;
    ensure_in_range(alloc, "book", allows_book(desks, book))?;
    Ok(book)
}

/// Refuses what is no key of a configuration for this purpose; that of a book is known to `accept` alone.
fn deny_others(alloc: Global, purpose: Purpose, keys: &Value) -> Result<(), TomlFault>
    ensures { Reads result (deny_unknown_keys (known_keys purpose) (view keys.now)) }
{
    if is_accept(purpose) {
        deny_unknown_keys(
            alloc,
            keys,
            &[
                "session",
                "keepalive",
                "client_flow",
                "server_flow",
                "credentials",
                "senders",
                "desks",
                "order_version",
                "reference",
                "session_version",
                "book",
            ],
        )
    } else {
        deny_unknown_keys(
            alloc,
            keys,
            &[
                "session",
                "keepalive",
                "client_flow",
                "server_flow",
                "credentials",
                "senders",
                "desks",
                "order_version",
                "reference",
                "session_version",
            ],
        )
    }
}

/// What a table of keys configures for a purpose.
///
/// # Errors
/// The first fault in the order in which its keys are visited; a condition on several keys is out of range at the later of them.
pub fn read_table(alloc: Global, purpose: Purpose, keys: &Value) -> Result<Configuration, TomlFault>
    ensures value { Reads result (configuration_of purpose (view keys.now)) }
    ensures link { IfOk result (λ c. IsLinkInRange c.link) }
    ensures trade { IfOk result (λ c. IsTradeInRange c.trade) }
{
    let link = read_link(alloc, purpose, keys)?;
    let trade = read_trade(alloc, purpose, link.client_flow, link.server_flow, keys)?;
    let version = read_version(alloc, keys)?;
    let book = read_book(alloc, purpose, trade.desks, keys)?;
    deny_others(alloc, purpose, keys)?;
    Ok(Configuration {
        link: with_version(link, version),
        trade: Trade { book, ..trade },
    })
}

/// The configuration that a document is.
#[tactic(auto, using(crate::proofs::Kept::read_keeps_role))]
pub fn read_keys(alloc: Global, purpose: Purpose, text: &[u8]) -> Result<Configuration, TomlFault>
    ensures value { Reads result (configuration_of_document purpose text.now) }
    ensures link { IfOk result (λ c. IsLinkInRange c.link) }
    ensures trade { IfOk result (λ c. IsTradeInRange c.trade) }
    ensures role { IfOk result (KeepsRole purpose) }
{
    let keys = read_document(alloc, text)?;
    read_table(alloc, purpose, &keys)
}

/// What a text configures for a purpose.
///
/// # Errors
/// `TooLong` exactly where the text is longer than `TEXT_LIMIT`, and else the first fault in the order in which
/// its keys are visited; a condition on several keys is out of range at the later of them.
pub fn read_configuration(
    alloc: Global,
    purpose: Purpose,
    text: &[u8],
) -> Result<Configuration, ConfigFault>
    ensures exact { Tells result (configuration_of_text purpose text.now) }
    ensures too_long { text_limit < length text.now → result ≡ Err ConfigFault.TooLong }
    ensures link { IfOk result (λ c. IsLinkInRange c.link) }
    ensures trade { IfOk result (λ c. IsTradeInRange c.trade) }
    ensures role { IfOk result (KeepsRole purpose) }
{
    if text.len() > TEXT_LIMIT {
        return Err(ConfigFault::TooLong);
    }
    match read_keys(alloc, purpose, text) {
        Ok(configuration) => Ok(configuration),
        Err(fault) => Err(ConfigFault::Toml(fault)),
    }
}
