//! A line of INPUT that gives a payload to a sender, found again by its number.

use fixp_msgs::is_application;
use std::alloc::Global;
use text_words::{first_line, number_before};

/// A line of plans that gives a payload to a sender.
#[derive(Drop)]
pub struct PlanLine {
    /// The sender, from 1.
    pub sender: u64,
    /// Which of the lines of this sender it is, from 1.
    pub place: u64,
    /// Its payload.
    pub payload: Vec<u8>,
}

/// The sender and the digits of a line that gives something to one of so many senders.
fn sender_and_digits(senders: u8, line: &[u8]) -> Option<(u64, &[u8])> {
    match number_before(line, b' ') {
        Some((sender, digits)) if sender >= 1 && sender <= u64::from(senders) => {
            Some((sender, digits))
        }
        _ => None,
    }
}

/// How many lines of a sender stand in front of the line of this number.
fn count_before(senders: u8, text: &[u8], sender: u64, number: u64) -> u64 {
    let mut count = 0u64;
    let mut left = text;
    for _ in 1..number {
        let Some((line, rest)) = first_line(left) else {
            return count;
        };
        if matches!(sender_and_digits(senders, line), Some((other, _)) if other == sender) {
            count = count.saturating_add(1);
        }
        left = rest;
    }
    count
}

/// The line of a number, from 1.
fn line_at(text: &[u8], number: u64) -> Option<&[u8]> {
    let mut left = text;
    for _ in 1..number {
        let (_, rest) = first_line(left)?;
        left = rest;
    }
    let (line, _) = first_line(left)?;
    Some(line)
}

/// The line of this number in a text of plans for so many senders, where it gives a payload to one.
pub fn plan_line(alloc: Global, senders: u8, text: &[u8], number: u64) -> Option<PlanLine> {
    let (sender, digits) = sender_and_digits(senders, line_at(text, number)?)?;
    let payload = hex::decode(alloc, digits).ok()?;
    if !is_application(payload.as_slice()) {
        return None;
    }
    let place = count_before(senders, text, sender, number).saturating_add(1);
    Some(PlanLine {
        sender,
        place,
        payload,
    })
}
