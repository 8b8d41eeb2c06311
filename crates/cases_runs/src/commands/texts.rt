//! The texts of all runs, which stand in files.

use cases_words::bytes;
use std::alloc::{AllocError, Global};
use std::fs::{self, Files};
use std::io;

/// The files that runs are over, and those of what they have to give.
const FILES: [&str; 10] = [
    "answer.toml",
    "client.hex",
    "wire.hex",
    "lines.txt",
    "schema.toml",
    "layout.txt",
    "orders.toml",
    "orders.hex",
    "cut.hex",
    "orders.txt",
];

/// What stands in a file.
#[derive(Drop)]
pub struct Text {
    name: &'static str,
    bytes: Vec<u8>,
}

/// Adds the bytes that the lines of a text spell in hexadecimal.
fn push_spelled(alloc: Global, all: &mut Vec<u8>, text: &str) -> Result<(), AllocError> {
    for line in text.lines() {
        let spelled = bytes(alloc, line)?;
        all.extend_from_slice(spelled.as_slice())?;
    }
    Ok(())
}

/// Adds what a file's text stands for: bytes in hexadecimal, or itself.
fn push_meant(alloc: Global, all: &mut Vec<u8>, name: &str, text: &str) -> Result<(), AllocError> {
    if name.ends_with(".hex") {
        push_spelled(alloc, all, text)
    } else {
        all.extend_from_slice(text.as_bytes())
    }
}

/// Adds what a file's text stands for.
fn push_read<R: Files + AllocGlobal>(
    rt: &R,
    bytes: &mut Vec<u8>,
    name: &'static str,
) -> io::Result<()> {
    let text = fs::read_to_string(rt, name)?;
    push_meant(rt.alloc(), bytes, name, text.as_str())?;
    Ok(())
}

/// Reads a file.
fn read_text<R: Files + AllocGlobal>(rt: &R, name: &'static str) -> io::Result<Text> {
    let mut bytes = Vec::new(rt.alloc());
    push_read(rt, &mut bytes, name)?;
    Ok(Text { name, bytes })
}

/// Reads all files, and adds their texts.
fn push_texts<R: Files + AllocGlobal>(rt: &R, texts: &mut Vec<Text>) -> io::Result<()> {
    for name in FILES {
        let text = read_text(rt, name)?;
        texts.push(text)?;
    }
    Ok(())
}

/// Reads all files.
///
/// # Errors
/// A file that cannot be read, or want of memory.
pub fn read_texts<R: Files + AllocGlobal>(rt: &R) -> io::Result<Vec<Text>> {
    let mut texts = Vec::new(rt.alloc());
    push_texts(rt, &mut texts)?;
    Ok(texts)
}

/// The bytes of the file of this name; none where there is no such file.
pub fn bytes_named<'a>(texts: &'a [Text], name: &str) -> &'a [u8] {
    for text in texts {
        if text.name == name {
            return text.bytes.as_slice();
        }
    }
    &[]
}
