//! The text of a file, read once more for what is said of it. Only a file is read again: what a pipe gave is gone.

use gw_outside::Source;
use gw_real::FileSource;
use std::alloc::Global;
use std::fs::File;
use std::rt::Files;

/// The most bytes of a text.
const TEXT: usize = 1 << 26;

/// How many bytes of a text are asked for at once.
const PIECE: usize = 32_768;

/// Whether a path names a file, and no pipe or device.
pub fn is_file<R: Files<File = File>>(rt: &R, path: &str) -> bool {
    match rt.metadata(path) {
        Ok(metadata) => metadata.is_file(),
        Err(_) => false,
    }
}

/// Whether a source is a text; adds it.
fn push_text<S: Source>(source: &mut S, text: &mut Vec<u8>) -> bool {
    let mut piece = [0u8; PIECE];
    for _ in 0..=TEXT {
        match source.pull(&mut piece) {
            Ok(0) => return true,
            Ok(count) => {
                if text.extend_from_slice(&piece[..count]).is_err() {
                    return false;
                }
            }
            Err(_) => return false,
        }
    }
    false
}

/// The text of a file.
pub fn text_of_file<R: Files<File = File>>(rt: &R, alloc: Global, path: &str) -> Option<Vec<u8>> {
    if !is_file(rt, path) {
        return None;
    }
    let mut source: FileSource<'_, R, File> = FileSource::new(rt, alloc, path, 0);
    let mut text = Vec::new(alloc);
    push_text(&mut source, &mut text).then_some(text)
}
