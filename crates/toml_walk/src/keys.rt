//! The keys of a table: what lies at one that has to be there, at one that may be absent, and keys that are not known.

ghost use Rattle.std.specs.Prelude.{◌≡◌, ◌≤◌, ℕ, List, [], ◌∷◌, IfOk, IfSome, Some, None, map, option_copied, option_map};
ghost use Rattle.sbe_value.specs.declared.path.Step.TheVariants.{Key};
ghost use Rattle.toml.specs.View.{view, table_view};
ghost use Rattle.toml_walk.specs.declared.fault.TomlFault.TheVariants.{Missing, Range};
ghost use Rattle.toml_walk.specs.Reading.{IsFault, Reads, under};
ghost use Rattle.toml_walk.specs.Keys.{get_or_default, is_among, deny_unknown_keys, optional, required, unknown_member};
ghost use Rattle.toml_walk.specs.Values.{name_of, natural_of, number_of, text_of};

use crate::fault::{TomlFault, deepened};
use crate::value::read_natural;
use sbe_value::{Bytes, Path, Step};
use std::alloc::{AllocError, Global};
use toml::{Table, Value};

/// The step to a key.
fn step_to(alloc: Global, key: &str) -> Result<Step, AllocError>
    ensures { IfOk result (λ step. step ≡ Key key.now) }
{
    Ok(Step::Key(Bytes::from_slice(alloc, key.as_bytes())?))
}

/// The path of a key.
fn path_to(alloc: Global, key: &str) -> Result<Path, AllocError>
    ensures { IfOk result (λ path. path ≡ Key key.now ∷ []) }
{
    let mut path = Path::new(alloc);
    path.push(step_to(alloc, key)?)?;
    Ok(path)
}

/// The fault of a key that has to be there and is absent.
pub fn missing(alloc: Global, key: &str) -> TomlFault
    ensures { IsFault result (Missing (Key key.now ∷ [])) }
{
    match path_to(alloc, key) {
        Ok(path) => TomlFault::Missing(path),
        Err(_) => TomlFault::Memory,
    }
}

/// The fault of a value at a key that breaks a condition.
pub fn out_of_range(alloc: Global, key: &str) -> TomlFault
    ensures { IsFault result (Range (Key key.now ∷ [])) }
{
    match path_to(alloc, key) {
        Ok(path) => TomlFault::Range(path),
        Err(_) => TomlFault::Memory,
    }
}

/// What was read from the value at a key, its fault with the path from the table.
pub fn under_key<T>(alloc: Global, key: &str, inner: Result<T, TomlFault>) -> Result<T, TomlFault>
    ensures { Reads result (under (Key key.now) inner) }
{
    match inner {
        Ok(value) => Ok(value),
        Err(fault) => match step_to(alloc, key) {
            Ok(step) => Err(deepened(step, fault)),
            Err(_) => Err(TomlFault::Memory),
        },
    }
}

/// The whole number at a key, from the least to the greatest.
pub fn natural_at(
    alloc: Global,
    keys: &Value,
    key: &str,
    least: u64,
    greatest: u64,
) -> Result<u64, TomlFault>
    ensures value { Reads result (required key.now (natural_of least greatest) (view keys.now)) }
    ensures range { IfOk result (λ n. (least ≤ n) × (n ≤ greatest)) }
{
    match keys.get(key) {
        Some(value) => under_key(alloc, key, read_natural(alloc, value, least, greatest)),
        None => Err(missing(alloc, key)),
    }
}

/// Whether a key is one of the known ones.
fn is_among(key: &str, known: &[&str]) -> bool
    ensures { result ≡ is_among key.now (map (λ k. k.now) known.now) }
{
    for one in known {
        if *one == key {
            return true;
        }
    }
    false
}

/// The first key of a table that is none of the known ones.
fn unknown_member<'a>(table: &'a Table, known: &[&str]) -> Option<&'a str>
    ensures { option_copied result ≡ unknown_member (map (λ k. k.now) known.now) (table_view table.now) }
{
    for (key, _value) in table.iter() {
        if !is_among(key.as_str(), known) {
            return Some(key.as_str());
        }
    }
    None
}

/// Checks that a table has no key but the known ones.
///
/// # Errors
/// `UnknownKey` of the least other key by its bytes.
pub fn deny_unknown_keys(alloc: Global, keys: &Value, known: &[&str]) -> Result<(), TomlFault>
    ensures { Reads result (deny_unknown_keys (map (λ k. k.now) known.now) (view keys.now)) }
{
    let Some(table) = keys.as_table() else {
        return Ok(());
    };
    match unknown_member(table, known) {
        Some(key) => match path_to(alloc, key) {
            Ok(path) => Err(TomlFault::UnknownKey(path)),
            Err(_) => Err(TomlFault::Memory),
        },
        None => Ok(()),
    }
}

/// The whole number at a key, from the least to the greatest, or the default where the key is absent.
pub fn natural_or(
    alloc: Global,
    keys: &Value,
    key: &str,
    least: u64,
    greatest: u64,
    default: u64,
) -> Result<u64, TomlFault>
    requires { (least ≤ default) × (default ≤ greatest) }
    ensures value { Reads result (get_or_default key.now default (natural_of least greatest) (view keys.now)) }
    ensures range { IfOk result (λ n. (least ≤ n) × (n ≤ greatest)) }
{
    match keys.get(key) {
        Some(value) => under_key(alloc, key, read_natural(alloc, value, least, greatest)),
        None => Ok(default),
    }
}
