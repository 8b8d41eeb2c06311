//! The verdict on a text: `Ok`, or its fault and the fault's path.

use sbe_value::{Path, text_of_path};
use schema_load::load;
use schema_toml::{ConfigFault, TomlFault};
use std::alloc::{AllocError, Global};

/// Adds a path behind a blank; nothing for the whole.
fn push_path(alloc: Global, line: &mut String, path: &Path) -> Result<(), AllocError> {
    let text = text_of_path(alloc, path)?;
    match str::from_utf8(text.as_slice()).unwrap_or("at no text") {
        "" => Ok(()),
        words => write!(line, " {words}"),
    }
}

/// The path of a fault; none where it names no place.
fn path_of(fault: &ConfigFault) -> Option<&Path> {
    match fault {
        ConfigFault::Toml(
            TomlFault::Missing(path)
            | TomlFault::WrongKind(path)
            | TomlFault::UnknownKey(path)
            | TomlFault::Range(path),
        ) => Some(path),
        ConfigFault::Schema(fault) => Some(&fault.path),
        ConfigFault::Toml(TomlFault::Text | TomlFault::Memory) | ConfigFault::TooLong => None,
    }
}

fn push_kind(line: &mut String, fault: &ConfigFault) -> Result<(), AllocError> {
    match fault {
        ConfigFault::Toml(TomlFault::Text) => line.push_str("Text"),
        ConfigFault::Toml(TomlFault::Memory) => line.push_str("Memory"),
        ConfigFault::Toml(TomlFault::Missing(_)) => line.push_str("Missing"),
        ConfigFault::Toml(TomlFault::WrongKind(_)) => line.push_str("WrongKind"),
        ConfigFault::Toml(TomlFault::UnknownKey(_)) => line.push_str("UnknownKey"),
        ConfigFault::Toml(TomlFault::Range(_)) => line.push_str("Range"),
        ConfigFault::Schema(fault) => write!(line, "{:?}", fault.kind),
        ConfigFault::TooLong => line.push_str("TooLong"),
    }
}

/// Adds a fault and its path, as `Range message[0].id`.
pub fn push_fault(alloc: Global, line: &mut String, fault: &ConfigFault) -> Result<(), AllocError> {
    push_kind(line, fault)?;
    match path_of(fault) {
        Some(path) => push_path(alloc, line, path),
        None => Ok(()),
    }
}

/// Adds the verdict on a text.
pub fn push_verdict(alloc: Global, line: &mut String, text: &[u8]) -> Result<(), AllocError> {
    match load(alloc, text) {
        Ok(_plan) => line.push_str("Ok"),
        Err(fault) => push_fault(alloc, line, &fault),
    }
}
