//! The rules of schemas, in words: what a table has that breaks one, and what it may have.

use crate::table::{
    number_in, primitive_in, push_key_of, push_text_of, push_types, text_in, type_named,
};
use sbe_prim::{Primitive, can_hold, find_primitive, greatest, is_integral, least};
use sbe_schema::SchemaKind;
use std::alloc::AllocError;
use toml::Value;

/// The name and the meaning of a rule of schemas.
pub fn schema_fault(kind: SchemaKind) -> (&'static str, &'static str) {
    match kind {
        SchemaKind::DuplicateName => (
            "DuplicateName",
            "the name stands twice in its list or block, or is a primitive's",
        ),
        SchemaKind::DuplicateId => ("DuplicateId", "the id stands twice"),
        SchemaKind::UnknownType => (
            "UnknownType",
            "its type is neither a primitive nor a type of the schema, or a member's is a composite",
        ),
        SchemaKind::BadOffset => (
            "BadOffset",
            "the stated offset is below the end of what stands before it, or the field ends past 16384 bytes",
        ),
        SchemaKind::ShortLength => (
            "ShortLength",
            "the stated block length is below the end of the fields",
        ),
        SchemaKind::BadEnum => (
            "BadEnum",
            "an enum is of char, uint8 or uint16 and has values, each once and within its primitive",
        ),
        SchemaKind::BadSet => (
            "BadSet",
            "a set is of an unsigned primitive, and its bits are below the width, each once",
        ),
        SchemaKind::BadDimension => (
            "BadDimension",
            "a dimension is of uint8 or uint16, and holds the block length",
        ),
        SchemaKind::BadData => ("BadData", "a data length is of uint8, uint16 or uint32"),
        SchemaKind::IllegalExtension => (
            "IllegalExtension",
            "an older reader could not skip what came with this version",
        ),
        SchemaKind::OverLimit => (
            "OverLimit",
            "there are more elements, levels or bytes than are admitted, or a value that its type cannot hold",
        ),
        SchemaKind::Memory => ("Memory", "out of memory"),
    }
}

/// A table that breaks a rule: the list that it lies in, and the text of the schema.
#[derive(Clone, Copy)]
pub struct Broken<'a> {
    pub root: &'a Value,
    pub list: &'a str,
    pub table: &'a Value,
}

/// What a type holds, as far as the value of a constant depends on it.
#[derive(Clone, Copy)]
enum Held {
    /// A number of a primitive.
    Number(Primitive),
    /// At most so many characters.
    Characters(i128),
    /// Any number.
    Any,
}

/// What a type of the schema holds.
fn held_by(kind: &Value) -> Held {
    let length = number_in(kind, "length").unwrap_or(1);
    match primitive_in(kind, "prim") {
        Some(Primitive::Char) if length > 1 => Held::Characters(length),
        Some(prim) => Held::Number(prim),
        None => Held::Any,
    }
}

impl<'a> Broken<'a> {
    /// What the type of a field or a member holds; none where there is no such type.
    fn held(self) -> Option<Held> {
        let name = text_in(self.table, "type")?;
        match find_primitive(name.as_bytes()) {
            Some(prim) => Some(Held::Number(prim)),
            None => Some(held_by(type_named(self.root, name)?)),
        }
    }

    /// Adds what the value of a constant of this type is.
    fn push_held(self, line: &mut String) -> Result<(), AllocError> {
        match self.held() {
            Some(Held::Number(prim)) => push_range(line, prim),
            Some(Held::Characters(length)) => {
                write!(line, "a text of at most {length} characters")
            }
            Some(Held::Any) | None => line.push_str("a number"),
        }
    }

    /// Adds what stands at a key, and what is wrong with it.
    fn push_key_with(self, line: &mut String, key: &str, words: &str) -> Result<(), AllocError> {
        push_key_of(line, self.table, key)?;
        line.push_str(words)
    }

    /// Adds what is wrong with the value of a field or a member.
    fn push_value_fault(self, line: &mut String) -> Result<(), AllocError> {
        let is_constant = text_in(self.table, "presence") == Some("constant");
        match (is_constant, self.table.get("value")) {
            (true, None) => {
                line.push_str("it is constant and has no value, which has to be ")?;
                self.push_held(line)
            }
            (true, Some(_)) => {
                self.push_key_with(line, "value", " is not ")?;
                self.push_held(line)?;
                line.push_str(", which its type ")?;
                push_text_of(line, self.table, "type")?;
                line.push_str(" holds")
            }
            (false, _) => {
                self.push_key_with(
                    line,
                    "value",
                    " may stand there only with presence = \"constant\"",
                )
            }
        }
    }

    /// Adds which number of a type its primitive does not hold, or that it may not be an array.
    fn push_type_fault(self, line: &mut String) -> Result<(), AllocError> {
        let Some(prim) = primitive_in(self.table, "prim") else {
            return line.push_str(schema_fault(SchemaKind::OverLimit).1);
        };
        for key in ["null", "min", "max"] {
            if matches!(number_in(self.table, key), Some(number) if !can_hold(prim, number)) {
                self.push_key_with(line, key, " is not ")?;
                return push_range(line, prim);
            }
        }
        self.push_key_with(
            line,
            "length",
            " makes it an array, which has to be of char or uint8",
        )
    }

    /// Adds which limit is passed.
    fn push_limit(self, line: &mut String) -> Result<(), AllocError> {
        match self.list {
            "" => line.push_str("there are more than 1024 types, or more than 256 messages"),
            "fields" | "members" => self.push_value_fault(line),
            "type" => self.push_type_fault(line),
            _ => self.push_size(line),
        }
    }

    /// Adds which limit of a message or a group is passed.
    fn push_size(self, line: &mut String) -> Result<(), AllocError> {
        if matches!(number_in(self.table, "block_length"), Some(length) if length > 16_384) {
            return self.push_key_with(line, "block_length", " is above 16384");
        }
        if self.list == "groups" {
            return line.push_str("groups lie in one another more than 4 deep");
        }
        line.push_str("it has more than 1024 elements, or blocks of more than 16384 bytes together")
    }

    /// Adds what is wrong with the type of a field or a member.
    fn push_unknown_type(self, line: &mut String) -> Result<(), AllocError> {
        push_key_of(line, self.table, "type")?;
        let name = text_in(self.table, "type").unwrap_or("");
        if type_named(self.root, name).is_some() {
            line.push_str(" is a composite, and a member's is ")?;
        } else {
            line.push_str(" is none of ")?;
        }
        push_types(line, self.root)
    }

    /// Adds why a name may not stand there.
    fn push_name_fault(self, line: &mut String) -> Result<(), AllocError> {
        push_key_of(line, self.table, "name")?;
        let name = text_in(self.table, "name").unwrap_or("");
        if self.list == "type" && find_primitive(name.as_bytes()).is_some() {
            line.push_str(" is a primitive's")
        } else {
            line.push_str(" stands twice in its list or block")
        }
    }

    /// Adds what is wrong with an enum, or one of its values.
    fn push_enum_fault(self, line: &mut String) -> Result<(), AllocError> {
        if self.list == "values" {
            return self.push_key_with(
                line,
                "value",
                " stands twice, or is not within the primitive of the enum",
            );
        }
        match primitive_in(self.table, "prim") {
            Some(Primitive::Char | Primitive::UInt8 | Primitive::UInt16) => {
                line.push_str("it has no values, and an enum has one at least")
            }
            _ => {
                self.push_key_with(
                    line,
                    "prim",
                    " is not char, uint8 or uint16, of which an enum is",
                )
            }
        }
    }

    /// Adds what is wrong with a set, or one of its bits.
    fn push_set_fault(self, line: &mut String) -> Result<(), AllocError> {
        if self.list == "bits" {
            return self.push_key_with(
                line,
                "bit",
                " stands twice, or is not below the width of the set",
            );
        }
        self.push_key_with(
            line,
            "prim",
            " is not uint8, uint16, uint32 or uint64, of which a set is",
        )
    }

    /// Adds what is wrong with the version of an element.
    fn push_since_fault(self, line: &mut String) -> Result<(), AllocError> {
        let Some(since) = number_in(self.table, "since") else {
            return line.push_str(
                "it came with what holds it, and an older reader could not skip it here",
            );
        };
        push_key_of(line, self.table, "since")?;
        match number_in(self.root, "version") {
            Some(version) if since > version => {
                write!(line, " is above the version of the schema, {version}")
            }
            _ => line.push_str(
                " is not admitted here: an older reader could not skip what came with it",
            ),
        }
    }

    /// Adds what is wrong with the place of a field or a member.
    fn push_offset_fault(self, line: &mut String) -> Result<(), AllocError> {
        if self.table.get("offset").is_none() {
            return line.push_str("it ends past 16384 bytes");
        }
        self.push_key_with(
            line,
            "offset",
            " is below the end of what stands before it, or the field ends past 16384 bytes",
        )
    }

    /// Adds which rule a table breaks, what it has there, and what it may have.
    pub fn push(self, line: &mut String, kind: SchemaKind) -> Result<(), AllocError> {
        match kind {
            SchemaKind::DuplicateName => self.push_name_fault(line),
            SchemaKind::DuplicateId => { self.push_key_with(line, "id", " stands twice") }
            SchemaKind::UnknownType => self.push_unknown_type(line),
            SchemaKind::BadOffset => self.push_offset_fault(line),
            SchemaKind::ShortLength => {
                self.push_key_with(line, "block_length", " is below the end of its fields")
            }
            SchemaKind::BadEnum => self.push_enum_fault(line),
            SchemaKind::BadSet => self.push_set_fault(line),
            SchemaKind::BadData => {
                self.push_key_with(line, "length", " is not uint8, uint16 or uint32")
            }
            SchemaKind::IllegalExtension => self.push_since_fault(line),
            SchemaKind::OverLimit => self.push_limit(line),
            SchemaKind::BadDimension | SchemaKind::Memory => { line.push_str(schema_fault(kind).1) }
        }
    }
}

/// Adds which numbers a primitive holds.
fn push_range(line: &mut String, prim: Primitive) -> Result<(), AllocError> {
    if !is_integral(prim) {
        return line.push_str("a number");
    }
    let (least, greatest) = (least(prim), greatest(prim));
    write!(line, "a number from {least} to {greatest}")
}
