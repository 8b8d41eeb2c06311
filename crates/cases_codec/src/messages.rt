//! Cases of session messages: reads `messages.txt`, and prints what each case shows. What it has to print stands in `stdout`,
//! worked out by hand.

mod counted;
mod lengths;
mod messages;

use cases_words::{bytes, halves};
use fixp_msgs::Counter;
use std::alloc::{AllocError, Global};
use std::rt::Files;
use std::{fs, io};

/// What a case of one frame shows: `KIND NAME HEX`, of which the digits are a whole frame.
fn frame_line(
    alloc: Global,
    counter: &mut Counter,
    kind: &str,
    name: &str,
    digits: &str,
) -> Result<String, AllocError> {
    let frame = bytes(alloc, digits)?;
    let frame = frame.as_slice();
    match kind {
        "message" => messages::message_line(alloc, name, frame),
        "zeros" => messages::filled_line(alloc, name, frame, 0),
        "ones" => messages::filled_line(alloc, name, frame, 0xFF),
        "lengths" => lengths::lengths_line(alloc, name, frame),
        "number" => counted::number_line(alloc, counter, name, frame),
        _ => format!(in alloc; "no case"),
    }
}

/// What a case shows. A line that begins with `#` is a heading.
fn line_of(alloc: Global, counter: &mut Counter, line: &str) -> Result<String, AllocError> {
    let (kind, rest) = halves(line);
    match kind {
        "#" => line.to_string(alloc),
        "bytes" => messages::bytes_line(alloc, rest),
        "big" => messages::big_line(alloc, rest),
        "connection" => {
            *counter = Counter::new();
            line.to_string(alloc)
        }
        _ => {
            let (name, digits) = halves(rest);
            frame_line(alloc, counter, kind, name, digits)
        }
    }
}

/// Prints what the section shows.
pub fn print<R: Files + Print + AllocGlobal>(rt: &R) -> io::Result<()> {
    let text = fs::read_to_string(rt, "messages.txt")?;
    let mut counter = Counter::new();
    for line in text.lines() {
        rt.println(line_of(rt.alloc(), &mut counter, line)?)?;
    }
    Ok(())
}
