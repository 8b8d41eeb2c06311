//! Journals without moments, moved to the disk of a case.

use crate::disks::ROOM;
use cases_words::{bytes, halves, number};
use gw_fakes::MemDisk;
use gw_outside::Disk;
use jr_log::migrate;
use std::alloc::{AllocError, Global};

/// A journal without moments, of one entry, in hexadecimal.
const ONE: &str =
    "464958504a524e31000000000000000001011400000001000100000000000000eb50000007006400010000";

/// A disk that holds the bytes that a word spells; an empty one where it has no room for them.
pub fn holding(alloc: Global, word: &str) -> Result<MemDisk, AllocError> {
    let content = bytes(alloc, word)?;
    let mut disk = MemDisk::without_faults(alloc, ROOM)?;
    let _ = disk.write_at(0, content.as_slice());
    Ok(disk)
}

/// The disk that a journal is moved from, `BYTES` or `one`; behind it may stand how many of its calls pass.
fn old_disk(alloc: Global, words: &str) -> Result<MemDisk, AllocError> {
    let (word, calls) = halves(words);
    let mut disk = holding(alloc, if word == "one" { ONE } else { word })?;
    if !calls.is_empty() {
        disk.fuse(number(calls));
    }
    Ok(disk)
}

/// Moves a journal to the disk, and adds what it gave.
pub fn add_moved(
    alloc: Global,
    disk: &mut MemDisk,
    words: &str,
    told: &mut String,
) -> Result<(), AllocError> {
    let mut old = old_disk(alloc, words)?;
    let answer = migrate(alloc, &mut old, disk);
    write!(told, " -> {answer:?}")
}
