//! The first frame of some bytes, and the frames of bytes that come in pieces.

use cases_words::{Named, digits, halves, number};
use sbe_prim::Order;
use sofh_frame::{FirstFrame, Framer, OwnedFrame, Split, next, split_pieces};
use std::alloc::{AllocError, Global};

/// Adds a first frame: its order, message and size, or why there is none.
fn push_told(alloc: Global, line: &mut String, first: FirstFrame<'_>) -> Result<(), AllocError> {
    match first {
        FirstFrame::Frame {
            order,
            message,
            size,
        } => {
            let spelled = digits(alloc, message)?;
            write!(line, "{order:?} {spelled} of {size} bytes")
        }
        other => write!(line, "{other:?}"),
    }
}

/// How many of the fronts of a frame that are shorter than it are no whole frame.
fn open_fronts(bytes: &[u8]) -> u64 {
    let mut open = 0u64;
    for size in 0..bytes.len() {
        let (front, _) = bytes.split_at(size);
        if next(front) == FirstFrame::Rest {
            open = open.saturating_add(1);
        }
    }
    open
}

/// Adds how many of the fronts of a frame are no whole frame.
fn push_fronts(line: &mut String, bytes: &[u8]) -> Result<(), AllocError> {
    let (open, count) = (open_fronts(bytes), bytes.len());
    write!(line, "{open} of {count} are a rest")
}

/// Fills a framer with bytes, where it has the room.
fn fill(framer: &mut Framer, bytes: &[u8]) {
    let count = bytes.len();
    if count <= framer.room().len() {
        framer.room()[..count].copy_from_slice(bytes);
        framer.filled(count);
    }
}

/// Lets go of the first frame that the framer holds.
fn let_go(framer: &mut Framer) {
    if let FirstFrame::Frame { size, .. } = framer.peek() {
        framer.drop_front(size);
    }
}

/// Adds the framer's room, behind a mark, and the first frame that it holds.
fn push_framer_told(
    alloc: Global,
    line: &mut String,
    mark: &str,
    framer: &mut Framer,
) -> Result<(), AllocError> {
    let room = framer.room().len();
    write!(line, "{mark}{room} with ")?;
    push_told(alloc, line, framer.peek())
}

/// A framer that is empty, is filled with bytes, and has let go of a frame.
fn push_framer_steps(
    alloc: Global,
    line: &mut String,
    framer: &mut Framer,
    bytes: &[u8],
) -> Result<(), AllocError> {
    push_framer_told(alloc, line, "", framer)?;
    fill(framer, bytes);
    push_framer_told(alloc, line, ", ", framer)?;
    let_go(framer);
    push_framer_told(alloc, line, ", ", framer)
}

/// A framer that takes a frame.
fn push_framer(alloc: Global, line: &mut String, bytes: &[u8]) -> Result<(), AllocError> {
    let mut framer = Framer::new(alloc)?;
    push_framer_steps(alloc, line, &mut framer, bytes)
}

/// What a case of this kind shows of some bytes.
fn push_shown(
    alloc: Global,
    line: &mut String,
    kind: &str,
    bytes: &[u8],
) -> Result<(), AllocError> {
    match kind {
        "first" => push_told(alloc, line, next(bytes)),
        "fronts" => push_fronts(line, bytes),
        _ => push_framer(alloc, line, bytes),
    }
}

/// A case of the bytes of one word: `first`, `fronts` or `framer`.
pub fn push_single(
    alloc: Global,
    line: &mut String,
    named: Named<'_>,
    kind: &str,
    word: &str,
) -> Result<(), AllocError> {
    write!(line, "{kind} of {word}: ")?;
    let bytes = named.bytes(alloc, word)?;
    push_shown(alloc, line, kind, bytes.as_slice())
}

/// The frames one behind another, so many times.
fn joined(alloc: Global, frames: &[Vec<u8>], times: usize) -> Result<Vec<u8>, AllocError> {
    let mut bytes = Vec::new(alloc);
    for _ in 0..times {
        for frame in frames {
            bytes.extend_from_slice(frame.as_slice())?;
        }
    }
    Ok(bytes)
}

/// The pieces of `size` bytes each, the last one maybe shorter.
fn cut(alloc: Global, bytes: &[u8], size: usize) -> Result<Vec<&[u8]>, AllocError> {
    bytes.chunks(size.max(1)).collect(alloc)
}

/// Splits `bytes` in pieces of `size` bytes each.
fn split_by(alloc: Global, bytes: &[u8], size: usize) -> Result<Split, AllocError> {
    let pieces = cut(alloc, bytes, size)?;
    split_pieces(alloc, pieces.as_slice())
}

/// Whether the frame is this one, in little-endian order.
fn is_frame(found: &OwnedFrame, wanted: &[u8]) -> bool {
    match wanted.split_at_checked(6) {
        Some((_, message)) => found.order == Order::Little && found.message.as_slice() == message,
        None => false,
    }
}

/// How many of the found frames are the wanted ones, which come again and again.
fn as_wanted(found: &[OwnedFrame], wanted: &[Vec<u8>]) -> u64 {
    let mut same = 0u64;
    let mut rest = wanted;
    for frame in found {
        if rest.is_empty() {
            rest = wanted;
        }
        if let [first, others @ ..] = rest {
            if is_frame(frame, first.as_slice()) {
                same = same.saturating_add(1);
            }
            rest = others;
        }
    }
    same
}

/// The bytes of frames by name.
fn all_named(alloc: Global, named: Named<'_>, words: &str) -> Result<Vec<Vec<u8>>, AllocError> {
    let mut all = Vec::new(alloc);
    for word in words.split(" ") {
        all.push(named.bytes(alloc, word)?)?;
    }
    Ok(all)
}

/// Adds how many of the frames in pieces are the given ones, which come so many times, and how they end.
fn push_found(
    alloc: Global,
    line: &mut String,
    frames: &[Vec<u8>],
    times: usize,
    size: usize,
) -> Result<(), AllocError> {
    let bytes = joined(alloc, frames, times)?;
    let split = split_by(alloc, bytes.as_slice(), size)?;
    let (found, end, at) = (split.frames.as_slice(), split.end, split.at);
    let (same, count) = (as_wanted(found, frames), found.len());
    write!(line, "{same} of {count} frames as given, {end:?} at {at}")
}

/// Frames in pieces of a size: `SIZE TIMES NAME..`.
pub fn push_pieces(
    alloc: Global,
    line: &mut String,
    named: Named<'_>,
    rest: &str,
) -> Result<(), AllocError> {
    let (size, others) = halves(rest);
    let (times, words) = halves(others);
    write!(line, "pieces of {size}: ")?;
    let frames = all_named(alloc, named, words)?;
    let (times, size) = (number(times) as usize, number(size) as usize);
    push_found(alloc, line, frames.as_slice(), times, size)
}

/// Splits pieces.
fn split_parts(alloc: Global, parts: &[Vec<u8>]) -> Result<Split, AllocError> {
    let pieces: Vec<&[u8]> = parts.iter().map(|part| part.as_slice()).collect(alloc)?;
    split_pieces(alloc, pieces.as_slice())
}

/// Each word is one piece.
pub fn push_parts(
    alloc: Global,
    line: &mut String,
    named: Named<'_>,
    words: &str,
) -> Result<(), AllocError> {
    let parts = all_named(alloc, named, words)?;
    let split = split_parts(alloc, parts.as_slice())?;
    let (count, end, at) = (split.frames.len(), split.end, split.at);
    write!(line, "parts {words}: {count} frames, {end:?} at {at}")
}
