//! The table that a text is.

ghost use Rattle.std.specs.Prelude.{◌≡◌, IfOk, IfErr, Ok, Err, false};
ghost use Rattle.toml.specs.Parse.{parse_document};
ghost use Rattle.toml.specs.View.{view};
ghost use Rattle.toml_walk.specs.Reading.{is_memory};
ghost use Rattle.toml_walk.specs.Documents.{document_of, table_or_fault};

use crate::fault::TomlFault;
use std::alloc::Global;
use toml::Value;

/// The table that a text in UTF-8 is.
fn read_str(alloc: Global, text: &str) -> Result<Value, TomlFault>
    ensures ok { IfOk result (λ keys. table_or_fault (parse_document text.now) ≡ Ok (view keys)) }
    ensures err { IfErr result (λ fault. is_memory fault ≡ false → table_or_fault (parse_document text.now) ≡ Err fault) }
{
    match toml::table_from_str(alloc, text) {
        Ok(table) => Ok(Value::Table(table)),
        Err(error) if error.is_memory() => Err(TomlFault::Memory),
        Err(_) => Err(TomlFault::Text),
    }
}

/// The table that a text is.
///
/// # Errors
/// `Text` exactly where it is no TOML document in UTF-8, and want of memory.
pub fn read_document(alloc: Global, text: &[u8]) -> Result<Value, TomlFault>
    ensures ok { IfOk result (λ keys. document_of text.now ≡ Ok (view keys)) }
    ensures err { IfErr result (λ fault. is_memory fault ≡ false → document_of text.now ≡ Err fault) }
{
    match std::str::from_utf8(text) {
        Ok(text) => read_str(alloc, text),
        Err(_) => Err(TomlFault::Text),
    }
}
