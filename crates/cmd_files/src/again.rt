//! INPUT, read once more to say what is wrong with it. Only a file is read again: what a pipe gave is gone.

use gw_outside::Source;
use gw_real::FileSource;
use session_files::is_file;
use sofh_frame::{FirstFrame, Framer};
use std::alloc::Global;
use std::fs::File;
use std::rt::Files;

/// Reads on behind the bytes that a framer holds; false at the end, or where there is no room or the file cannot be read.
fn read_on<S: Source>(source: &mut S, framer: &mut Framer) -> bool {
    let room = framer.room();
    if room.is_empty() {
        return false;
    }
    match source.pull(room) {
        Ok(0) | Err(_) => false,
        Ok(count) => {
            framer.filled(count);
            true
        }
    }
}

/// The place of a frame of a source, in bytes from 0, by its number, from 1.
fn place_in<S: Source>(source: &mut S, framer: &mut Framer, number: u64) -> Option<u64> {
    let mut place = 0u64;
    let mut at = 1u64;
    for _ in 0..u64::MAX {
        match framer.peek() {
            FirstFrame::Frame { .. } if at == number => return Some(place),
            FirstFrame::Frame { size, .. } => {
                framer.drop_front(size);
                place = place.saturating_add(size as u64);
                at = at.saturating_add(1);
            }
            FirstFrame::Rest => {
                if !read_on(source, framer) {
                    return None;
                }
            }
            FirstFrame::BadLength(_) | FirstFrame::BadEncoding(_) => return None,
        }
    }
    None
}

/// The place of a frame in a file, in bytes from 0, by its number, from 1.
pub fn place_of_frame<R: Files<File = File>>(
    rt: &R,
    alloc: Global,
    path: &str,
    number: u64,
) -> Option<u64> {
    if !is_file(rt, path) {
        return None;
    }
    let mut source: FileSource<'_, R, File> = FileSource::new(rt, alloc, path, 0);
    match Framer::new(alloc) {
        Ok(mut framer) => place_in(&mut source, &mut framer, number),
        Err(_) => None,
    }
}
