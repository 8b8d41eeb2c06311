//! Entries of an outbox, which an end sends.

use crate::journals::{Log, WIDE, formatted, open_outbox};
use fixp_msgs::is_application;
use jr_kept::{Outbox, Stable};
use std::alloc::{AllocError, Global};

/// The room of the disk, in bytes.
const SIZE: usize = 4096;

/// A new outbox; none where memory runs out.
fn new_outbox(alloc: Global) -> Option<Outbox<Log>> {
    open_outbox(alloc, formatted(alloc, SIZE)?, WIDE)
}

/// The next entry, once it is on the disk: an application message without fields, of this template; none where a call is refused.
fn next_entry(outbox: &mut Outbox<Log>, template: u8) -> Option<Stable> {
    let payload = [0xEB, 0x50, 0, 0, template, 0, 0x64, 0, 1, 0];
    if !is_application(&payload) {
        return None;
    }
    let number = outbox.accept(1, &payload).ok()?;
    if number == 0 || number > outbox.front() {
        return None;
    }
    outbox.stable(number).ok()
}

/// Adds the next entries, one of each template.
fn push_entries(
    outbox: &mut Outbox<Log>,
    templates: &[u8],
    entries: &mut Vec<Stable>,
) -> Result<(), AllocError> {
    for template in templates {
        if let Some(entry) = next_entry(outbox, *template) {
            entries.push(entry)?;
        }
    }
    Ok(())
}

/// The entries of a new outbox, numbered from 1 on, one of each template; fewer where a call is refused.
///
/// # Errors
/// Want of memory for the list.
pub fn entries_of(alloc: Global, templates: &[u8]) -> Result<Vec<Stable>, AllocError> {
    let mut entries = Vec::new(alloc);
    if let Some(mut outbox) = new_outbox(alloc) {
        push_entries(&mut outbox, templates, &mut entries)?;
    }
    Ok(entries)
}
