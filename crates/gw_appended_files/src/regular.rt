//! A regular file that is kept: it is read at places, cut at its end, and written at its end alone.

ghost use Rattle.std.specs.Prelude.{◌<◌, ◌≤◌, ◌^◌, length, IfOk};

use gw_real::{Named, Reason};
use std::fs::{self, File, Files, Metadata, OpenOptions};
use std::io::{self, ErrorKind, Write};
use std::os::unix::fs::{FileExt, MetadataExt};

/// The greatest length of a file, in bytes: 2^40.
const LIMIT: u64 = 1 << 40;

/// Whether a path leads to no file, or to a regular one: it can be kept.
pub(crate) fn is_kept<R: Files>(rt: &R, path: &str) -> bool {
    match fs::metadata(rt, path) {
        Ok(file) => file.is_file(),
        Err(error) => error.kind() == ErrorKind::NotFound,
    }
}

/// Whether a path leads to the file of this device and inode.
fn leads_to<R: Files>(rt: &R, path: &str, file: &Metadata) -> bool {
    match rt.metadata(path) {
        Ok(other) => other.dev() == file.dev() && other.ino() == file.ino(),
        Err(_) => false,
    }
}

/// The other file of the command that a regular file is, if it is one.
fn same_file<'a, R: Files>(
    rt: &R,
    role: &str,
    file: &Metadata,
    others: &'a [Named<'a>],
) -> Option<Named<'a>> {
    for other in others {
        if other.role != role && leads_to(rt, other.path, file) {
            return Some(*other);
        }
    }
    None
}

/// The file of a name, which is made where there is none, and must be none of the others. It is written at its end alone. `-` names no file.
pub(crate) fn opened<'a, R: Files<File = File>>(
    rt: &R,
    name: Named<'a>,
    others: &'a [Named<'a>],
) -> Result<File, Reason<'a>> {
    if name.path == "-" {
        return Err(Reason::NotHere);
    }
    let file = OpenOptions::new()
        .read(true)
        .append(true)
        .create(true)
        .open(rt, name.path)?;
    let metadata = file.metadata()?;
    if !metadata.is_file() {
        return Err(Reason::NotHere);
    }
    match same_file(rt, name.role, &metadata, others) {
        Some(other) => Err(Reason::SameFile(other)),
        None => Ok(file),
    }
}

/// The length of a file in bytes.
pub(crate) fn length_of<'a>(file: &File) -> Result<u64, Reason<'a>>
    ensures within { IfOk result (λ n. n ≤ 2 ^ 40) }
{
    let length = file.metadata()?.len();
    if length > LIMIT {
        return Err(Reason::System(io::Error::from(ErrorKind::FileTooLarge)));
    }
    Ok(length)
}

/// Reads from a place on, as many bytes as there are, again where a signal came between.
pub(crate) fn read_some<'a>(file: &File, at: u64, into: &mut [u8]) -> Result<usize, Reason<'a>>
    ensures count { IfOk result (λ n. n ≤ length into.new) }
{
    let mut count = 0;
    for _ in 0..u64::MAX {
        if count >= into.len() {
            break;
        }
        match file.read_at(&mut into[count..], at.saturating_add(count as u64)) {
            Ok(0) => break,
            Ok(more) => count += more,
            Err(error) if error.kind() == ErrorKind::Interrupted => {}
            Err(error) => return Err(Reason::System(error)),
        }
    }
    Ok(count)
}

/// Writes at the end, and again where a signal came between. Nothing taken of some bytes is a fault.
pub(crate) fn write_some<'a>(file: &mut File, bytes: &[u8]) -> Result<usize, Reason<'a>>
    ensures count { IfOk result (λ n. n ≤ length bytes.now) }
    ensures some { 0 < length bytes.now → IfOk result (λ n. 0 < n) }
{
    if bytes.is_empty() {
        return Ok(0);
    }
    for _ in 0..u64::MAX {
        match file.write(bytes) {
            Ok(0) => return Err(Reason::System(io::Error::from(ErrorKind::WriteZero))),
            Ok(count) => return Ok(count),
            Err(error) if error.kind() == ErrorKind::Interrupted => {}
            Err(error) => return Err(Reason::System(error)),
        }
    }
    Err(Reason::System(io::Error::from(ErrorKind::Interrupted)))
}

/// Takes away what stands behind the first bytes.
pub(crate) fn cut<'a>(file: &File, size: u64) -> Result<(), Reason<'a>> {
    file.set_len(size)?;
    Ok(())
}
