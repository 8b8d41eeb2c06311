//! Readers of what lies at keys and in lists, by what a value spells.

ghost use Rattle.std.specs.Prelude.{◌≡◌, ◌≤◌, ℕ, List, [], ◌∷◌, IfOk, IfErr, Ok, Err, false, true};
ghost use Rattle.sbe_value.specs.declared.path.Step.TheVariants.{At};
ghost use Rattle.toml.specs.Data.{Data};
ghost use Rattle.toml.specs.View.{view, array_view};
ghost use Rattle.toml_walk.specs.Reading.{Read, Reads, is_memory, under};
ghost use Rattle.toml_walk.specs.Keys.{get_or_default, elements, list_of, optional, required};
ghost use Rattle.toml_walk.specs.Values.{name_of, number_of};

use crate::fault::{TomlFault, deepened};
use crate::keys::{missing, under_key};
use crate::value::{read_name, read_number};
use sbe_value::{Bytes, Path, Step};
use std::alloc::Global;
use toml::Value;

/// What a value by itself spells.
pub trait Reader {
    /// What the defaults inside depend on: what is known of the table around.
    type Parent: Copy;

    /// What is made of a value.
    type Made: Drop;

    /// What a value spells.
    ghost spelled: { Self.Parent → Data → Read Self.Made };

    /// Reads a value.
    ///
    /// # Errors
    /// The first fault in the order in which its keys are visited.
    fn read(alloc: Global, parent: Self::Parent, value: &Value) -> Result<Self::Made, TomlFault>
        ensures { Reads result (spelled parent (view value.now)) };
}

/// Names: 1 to 64 letters, digits or `_`, the first no digit.
pub struct Names;

impl Reader for Names {
    type Parent = ();

    type Made = Bytes;

    ghost use Rattle.toml_walk.specs.Values.{name_of};

    ghost spelled = { λ _. name_of };

    fn read(alloc: Global, _parent: (), value: &Value) -> Result<Bytes, TomlFault> {
        read_name(alloc, value)
    }
}

/// Numbers that `i128` holds.
pub struct Numbers;

impl Reader for Numbers {
    type Parent = ();

    type Made = i128;

    ghost use Rattle.toml_walk.specs.Values.{number_of};

    ghost spelled = { λ _. number_of };

    fn read(alloc: Global, _parent: (), value: &Value) -> Result<i128, TomlFault> {
        read_number(alloc, value)
    }
}

/// What lies at a key that has to be there.
///
/// # Errors
/// `Missing` where the key is absent, and the faults of what lies at it.
pub fn required<R: Reader>(
    alloc: Global,
    parent: R::Parent,
    keys: &Value,
    key: &str,
) -> Result<R::Made, TomlFault>
    ensures { Reads result (required key.now (R.spelled parent) (view keys.now)) }
{
    match keys.get(key) {
        Some(value) => under_key(alloc, key, R::read(alloc, parent, value)),
        None => Err(missing(alloc, key)),
    }
}

/// What lies at a key, or the default where the key is absent.
///
/// # Errors
/// The faults of what lies at the key.
pub fn get_or_default<R: Reader>(
    alloc: Global,
    parent: R::Parent,
    keys: &Value,
    key: &str,
    default: R::Made,
) -> Result<R::Made, TomlFault>
    ensures { Reads result (get_or_default key.now default (R.spelled parent) (view keys.now)) }
{
    match keys.get(key) {
        Some(value) => under_key(alloc, key, R::read(alloc, parent, value)),
        None => Ok(default),
    }
}

/// What lies at a key, if it is there.
///
/// # Errors
/// The faults of what lies at the key.
pub fn optional<R: Reader>(
    alloc: Global,
    parent: R::Parent,
    keys: &Value,
    key: &str,
) -> Result<Option<R::Made>, TomlFault>
    ensures { Reads result (optional key.now (R.spelled parent) (view keys.now)) }
{
    match keys.get(key) {
        Some(value) => Ok(Some(under_key(alloc, key, R::read(alloc, parent, value))?)),
        None => Ok(None),
    }
}

/// An element at a place of a list, its fault with the path from the list.
fn read_at<R: Reader>(
    alloc: Global,
    parent: R::Parent,
    at: u64,
    value: &Value,
) -> Result<R::Made, TomlFault>
    ensures { Reads result (under (At at) (R.spelled parent (view value.now))) }
{
    match R::read(alloc, parent, value) {
        Ok(made) => Ok(made),
        Err(fault) => Err(deepened(Step::At(at), fault)),
    }
}

/// A list.
///
/// # Errors
/// `WrongKind` with the empty path where the value is none, and the first fault of its elements.
pub fn read_list<R: Reader>(
    alloc: Global,
    parent: R::Parent,
    value: &Value,
) -> Result<Vec<R::Made>, TomlFault>
    ensures ok { IfOk result (λ list. list_of (R.spelled parent) (view value.now) ≡ Ok list.items) }
    ensures err { IfErr result (λ fault. is_memory fault ≡ false → list_of (R.spelled parent) (view value.now) ≡ Err fault) }
{
    let Some(values) = value.as_array() else {
        return Err(TomlFault::WrongKind(Path::new(alloc)));
    };
    let mut list = Vec::with_capacity(alloc, values.len())?;
    for value in values {
        let made = read_at::<R>(alloc, parent, list.len() as u64, value)?;
        if list.push(made).is_err() {
            return Err(TomlFault::Memory);
        }
    }
    Ok(list)
}

/// The list at a key that has to be there.
///
/// # Errors
/// `Missing` where the key is absent, `WrongKind` where no list lies at it, and the first fault of its elements.
pub fn required_list<R: Reader>(
    alloc: Global,
    parent: R::Parent,
    keys: &Value,
    key: &str,
) -> Result<Vec<R::Made>, TomlFault>
    ensures ok { IfOk result (λ list. required key.now (list_of (R.spelled parent)) (view keys.now) ≡ Ok list.items) }
    ensures err { IfErr result (λ fault. is_memory fault ≡ false → required key.now (list_of (R.spelled parent)) (view keys.now) ≡ Err fault) }
{
    match keys.get(key) {
        Some(value) => under_key(alloc, key, read_list::<R>(alloc, parent, value)),
        None => Err(missing(alloc, key)),
    }
}

/// The list at a key, empty where the key is absent.
///
/// # Errors
/// `WrongKind` where no list lies at the key, and the first fault of its elements.
pub fn list_or_empty<R: Reader>(
    alloc: Global,
    parent: R::Parent,
    keys: &Value,
    key: &str,
) -> Result<Vec<R::Made>, TomlFault>
    ensures ok { IfOk result (λ list. get_or_default key.now [] (list_of (R.spelled parent)) (view keys.now) ≡ Ok list.items) }
    ensures err { IfErr result (λ fault. is_memory fault ≡ false → get_or_default key.now [] (list_of (R.spelled parent)) (view keys.now) ≡ Err fault) }
{
    match keys.get(key) {
        Some(value) => under_key(alloc, key, read_list::<R>(alloc, parent, value)),
        None => Ok(Vec::new(alloc)),
    }
}
