//! The settings of `answer`: what the acceptor over recorded bytes takes of its
//! configuration.

ghost use Rattle.std.specs.Prelude.{◌≡◌, ◌<◌, length, IfOk, Err};
ghost use Rattle.toml_walk.specs.Reading.{Reads};
ghost use Rattle.schema_toml.specs.Faults.{Tells, text_limit};
ghost use Rattle.cmd_config.specs.Settings.{IsInRange, settings_of_document, settings_of_text};

use crate::configuration::{Configuration, Link, read_keys};
use crate::purpose::Purpose;
use sbe_value::Bytes;
use schema_toml::{ConfigFault, TEXT_LIMIT};
use std::alloc::Global;
use toml_walk::TomlFault;

/// What a configuration says of the session.
#[derive(Drop)]
pub struct Settings {
    /// The 16 bytes of the session's UUID.
    pub session: [u8; 16],
    /// The own heartbeat interval, 100 to 60,000 milliseconds.
    pub keepalive: u32,
    /// The credentials that a client has to give, at most 2,048 bytes.
    pub credentials: Bytes,
    /// The version of the session schema that the acceptor speaks, 0 or 1.
    pub version: u16,
}

fn read_answer(alloc: Global, text: &[u8]) -> Result<Settings, TomlFault>
    ensures value { Reads result (settings_of_document text.now) }
    ensures range { IfOk result IsInRange }
{
    let Configuration { link, .. } = read_keys(alloc, Purpose::Recorded, text)?;
    let Link {
        session,
        keepalive,
        credentials,
        version,
        ..
    } = link;
    Ok(Settings {
        session,
        keepalive,
        credentials,
        version,
    })
}

/// What a text configures for `answer`.
///
/// # Errors
/// `TooLong` exactly where the text is longer than `TEXT_LIMIT`, and else the first fault in the order in which
/// its keys are visited.
pub fn read_settings(alloc: Global, text: &[u8]) -> Result<Settings, ConfigFault>
    ensures exact { Tells result (settings_of_text text.now) }
    ensures too_long { text_limit < length text.now → result ≡ Err ConfigFault.TooLong }
    ensures range { IfOk result IsInRange }
{
    if text.len() > TEXT_LIMIT {
        return Err(ConfigFault::TooLong);
    }
    match read_answer(alloc, text) {
        Ok(settings) => Ok(settings),
        Err(fault) => Err(ConfigFault::Toml(fault)),
    }
}
