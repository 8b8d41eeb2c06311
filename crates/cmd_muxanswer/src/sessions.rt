//! CONFIG of `muxanswer`: each session, and what is asked of them together.

ghost use Rattle.std.specs.Prelude.{◌≡◌, ℕ, ◌<◌, ◌≤◌, ◌&&◌, nat_le, [], codes, length, false, Some, None, IfOk, IfErr, Err};
ghost use Rattle.toml.specs.View.{view};
ghost use Rattle.schema_toml.specs.Faults.{Tells, text_limit};
ghost use Rattle.toml_walk.specs.Reading.{IsFault, Reads, is_memory};
ghost use Rattle.routes.specs.Identifiers.{EachOnce};
ghost use Rattle.cmd_config.specs.Settings.{ensure_in_range};
ghost use Rattle.cmd_muxanswer.specs.Sessions.{AreSessions, identifiers, repeated_behind, repeated_fault, sessions_of, sessions_of_document, sessions_of_text};

use cmd_base::Configured;
use cmd_config::{Configuration, Link, Purpose, Settings, read_table};
use routes::{Routes, RoutesFault};
use sbe_value::{Path, Step};
use schema_toml::{ConfigFault, TEXT_LIMIT};
use std::alloc::{AllocError, Global};
use std::marker::Model;
use toml::Value;
use toml_walk::{
    Reader, TomlFault, deepened, deny_unknown_keys, out_of_range, read_document, required_list,
    under_key,
};

/// The most sessions on one transport.
pub const MOST_SESSIONS: usize = 64;

/// One session of a transport. Contracts see its settings, which are within their ranges.
#[derive(Drop)]
pub struct OneSession {
    settings: Settings,
}

impl Model for OneSession {
    ghost use Rattle.cmd_config.specs.declared.settings.Settings as values;
    ghost use Rattle.cmd_config.specs.Settings.{IsInRange};

    ghost Value = { values.Settings };

    ghost view = { λ s. s.settings };

    ghost invariant = { λ s. IsInRange s.settings };
}

impl OneSession {
    ghost use Rattle.cmd_config.specs.Settings.{IsInRange};

    /// Its identifier.
    pub fn id(&self) -> [u8; 16]
        ensures { result ≡ self.now.session }
    {
        self.settings.session
    }

    /// Its settings as values of their own.
    ///
    /// # Errors
    /// Want of memory.
    pub fn settings(&self, alloc: Global) -> Result<Settings, AllocError>
        ensures value { IfOk result (λ s. s ≡ self.now) }
        ensures range { IfOk result IsInRange }
    {
        Ok(Settings {
            session: self.settings.session,
            keepalive: self.settings.keepalive,
            credentials: self.settings.credentials.copy(alloc)?,
            version: self.settings.version,
        })
    }
}

/// Tables of sessions.
struct Tables;

impl Reader for Tables {
    type Parent = ();

    type Made = OneSession;

    ghost use Rattle.cmd_muxanswer.specs.Sessions.{session_of};

    ghost spelled = { λ _. session_of };

    fn read(alloc: Global, _parent: (), value: &Value) -> Result<OneSession, TomlFault> {
        if !value.is_table() {
            return Err(TomlFault::WrongKind(Path::new(alloc)));
        }
        let Configuration { link, .. } = read_table(alloc, Purpose::Recorded, value)?;
        let Link {
            session,
            keepalive,
            credentials,
            version,
            ..
        } = link;
        Ok(OneSession {
            settings: Settings {
                session,
                keepalive,
                credentials,
                version,
            },
        })
    }
}

/// The sessions of a transport: 1 to 64, no two with the same identifier. Contracts see the list of their settings, in the order of
/// CONFIG.
#[derive(Drop)]
pub struct Sessions {
    list: Vec<OneSession>,
    /// Their identifiers, in the same order.
    routes: Routes,
}

impl Model for Sessions {
    ghost use Rattle.std.specs.Prelude.{◌≡◌, List};
    ghost use Rattle.cmd_config.specs.declared.settings.Settings as values;
    ghost use Rattle.cmd_muxanswer.specs.Sessions.{AreSessions, identifiers};

    ghost Value = { List values.Settings };

    ghost view = { λ s. s.list.items };

    ghost invariant = { λ s. AreSessions s.list.items × (s.routes ≡ identifiers s.list.items) };
}

impl Sessions {
    ghost use Rattle.std.specs.Prelude.{IfSome, IfNone, slice_get, Some};
    ghost use Rattle.cmd_config.specs.Settings.{IsInRange};
    ghost use Rattle.routes.specs.Identifiers.{StandsAt};

    /// How many there are, 1 to 64.
    pub fn len(&self) -> usize
        ensures value { result ≡ length self.now }
        ensures few { result ≤ MOST_SESSIONS }
    {
        self.list.len()
    }

    /// The place of the session with this identifier, from 0, if there is one.
    pub fn find(&self, id: &[u8; 16]) -> Option<usize>
        ensures found { IfSome result (λ place. StandsAt (identifiers self.now) id.now place) }
        ensures none { IfNone result ((place : ℕ) → StandsAt (identifiers self.now) id.now place → ⊥) }
    {
        self.routes.find(id)
    }

    /// The identifier of the session at a place, which is below their number.
    pub fn id(&self, place: usize) -> [u8; 16]
        requires { place < length self.now }
        ensures { StandsAt (identifiers self.now) result place }
    {
        self.routes.id(place)
    }

    /// The settings of the session at a place, which is below their number, as values of their own.
    ///
    /// # Errors
    /// Want of memory.
    pub fn settings(&self, alloc: Global, place: usize) -> Result<Settings, AllocError>
        requires { place < length self.now }
        ensures value { IfOk result (λ s. slice_get self.now place ≡ Some s) }
        ensures range { IfOk result IsInRange }
    {
        self.list[place].settings(alloc)
    }
}

/// Checks that there are sessions, and no more than 64.
///
/// # Errors
/// `Range` at `session`.
fn ensure_some(alloc: Global, count: usize) -> Result<(), TomlFault>
    ensures value { Reads result (ensure_in_range (codes "session") (nat_le 1 count && nat_le count 64)) }
    ensures few { IfOk result (λ _. (1 ≤ count) × (count ≤ 64)) }
{
    if count >= 1 && count <= MOST_SESSIONS {
        Ok(())
    } else {
        Err(out_of_range(alloc, "session"))
    }
}

/// The fault of the session at a place whose identifier stands at an earlier place too.
fn repeated(alloc: Global, place: usize) -> TomlFault
    ensures { IsFault result (repeated_fault place) }
{
    let inner: Result<(), TomlFault> = Err(out_of_range(alloc, "session"));
    let at = match inner {
        Ok(()) => Ok(()),
        Err(fault) => Err(deepened(Step::At(place as u64), fault)),
    };
    match under_key(alloc, "session", at) {
        Ok(()) => TomlFault::Memory,
        Err(fault) => fault,
    }
}

/// The identifiers of some sessions.
fn ids_of(alloc: Global, list: &[OneSession]) -> Result<Vec<[u8; 16]>, AllocError>
    ensures { IfOk result (λ ids. ids.items ≡ identifiers list.now) }
{
    let mut ids = Vec::with_capacity(alloc, list.len())?;
    for session in list {
        ids.push(session.id())?;
    }
    Ok(ids)
}

/// The table of the sessions' identifiers.
///
/// # Errors
/// `Range` at the first identifier that stands at an earlier place too.
#[tactic(auto, using(crate::proofs::Repeated::repeated_first, crate::proofs::Repeated::repeated_none))]
fn routes_of(alloc: Global, list: &[OneSession]) -> Result<Routes, TomlFault>
    requires { length list.now ≤ MOST_SESSIONS }
    ensures once { IfOk result (λ _. EachOnce (identifiers list.now)) }
    ensures none { IfOk result (λ _. repeated_behind [] (identifiers list.now) ≡ None) }
    ensures repeated { IfErr result (λ fault. is_memory fault ≡ false → (place : ℕ) × (repeated_behind [] (identifiers list.now) ≡ Some place) × (fault ≡ repeated_fault place)) }
    ensures value { IfOk result (λ routes. routes ≡ identifiers list.now) }
{
    let Ok(ids) = ids_of(alloc, list) else {
        return Err(TomlFault::Memory);
    };
    match Routes::new(alloc, ids.as_slice()) {
        Ok(routes) => Ok(routes),
        Err(RoutesFault::Doubled { place }) => Err(repeated(alloc, place)),
        Err(RoutesFault::Memory) => Err(TomlFault::Memory),
    }
}

/// The sessions that a table of keys has.
fn read_keys(alloc: Global, keys: &Value) -> Result<Sessions, TomlFault>
    ensures { Reads result (sessions_of (view keys.now)) }
{
    let list = required_list::<Tables>(alloc, (), keys, "session")?;
    ensure_some(alloc, list.len())?;
    let routes = routes_of(alloc, list.as_slice())?;
    deny_unknown_keys(alloc, keys, &["session"])?;
    Ok(Sessions { list, routes })
}

/// The sessions that a document has.
fn read_sessions_of(alloc: Global, text: &[u8]) -> Result<Sessions, TomlFault>
    ensures { Reads result (sessions_of_document text.now) }
{
    let keys = read_document(alloc, text)?;
    read_keys(alloc, &keys)
}

/// The sessions that a text configures.
///
/// # Errors
/// `TooLong` exactly where the text is longer than `TEXT_LIMIT`, and else the first fault in the order in which its keys are visited:
/// those of the tables in order, then at `session` where there is none or more than 64, then at the first identifier that stands at an
/// earlier place too.
pub fn read_sessions(alloc: Global, text: &[u8]) -> Result<Sessions, ConfigFault>
    ensures exact { Tells result (sessions_of_text text.now) }
    ensures too_long { text_limit < length text.now → result ≡ Err ConfigFault.TooLong }
    ensures valid { IfOk result AreSessions }
{
    if text.len() > TEXT_LIMIT {
        return Err(ConfigFault::TooLong);
    }
    match read_sessions_of(alloc, text) {
        Ok(sessions) => Ok(sessions),
        Err(fault) => Err(ConfigFault::Toml(fault)),
    }
}

impl Configured for Sessions {
    ghost use Rattle.std.specs.Prelude.{List};
    ghost use Rattle.schema_toml.specs.Faults.{of_text};
    ghost use Rattle.cmd_muxanswer.specs.Sessions.{AreSessions, sessions_of_document};
    ghost use Rattle.cmd_config.specs.declared.settings.Settings as values;

    type For = ();

    ghost Told = { List values.Settings };

    ghost told = { λ sessions. sessions };

    ghost reading = { λ _ text. of_text (sessions_of_document text) };

    ghost is_valid = { AreSessions };

    fn read(alloc: Global, _wanted: (), text: &[u8]) -> Result<Sessions, ConfigFault> {
        read_sessions(alloc, text)
    }
}
