//! A peer that keeps no rules: the messages that it sends are drawn near the state of the end that hears them, so that many of them
//! are taken.

use cases_made::ID;
use cases_words::Chance;
use std::alloc::{AllocError, Global};

/// A timestamp.
const STAMP: [u8; 8] = [0; 8];

/// A heartbeat interval of 1,000 ms.
const INTERVAL: [u8; 4] = [0xE8, 0x03, 0, 0];

/// No bytes.
const NOTHING: &[u8] = &[];

/// A code, and no reason.
const CODE: &[u8] = &[1, 0, 0];

/// What the peer knows.
#[derive(Clone, Copy)]
pub struct Peer {
    /// The number of its next live message.
    pub live: u64,
    /// The number that the other end awaits.
    pub awaited: u64,
    /// How many numbers were asked for, from the one awaited then on; 0 where none are.
    pub asked: u64,
    /// From which number on.
    pub asked_from: u64,
    /// How many messages of its retransmission are still to come; none outside of one.
    pub left: Option<u64>,
    /// The number that the other end may expect of its own flow.
    pub own: u64,
    /// The version of its handshake.
    pub version: u8,
}

/// The header of a session message.
fn header(alloc: Global, template: u8, version: u8, block: u8) -> Result<Vec<u8>, AllocError> {
    let mut message = Vec::new(alloc);
    message.extend_from_slice(&[block, 0, template, 0, 0x11, 0xF0, version, 0])?;
    Ok(message)
}

/// A session message of version 0 with these parts.
fn plain(
    alloc: Global,
    template: u8,
    block: u8,
    first: &[u8],
    second: &[u8],
) -> Result<Vec<u8>, AllocError> {
    let mut message = header(alloc, template, 0, block)?;
    message.extend_from_slice(first)?;
    message.extend_from_slice(second)?;
    Ok(message)
}

/// The same with the session's identifier before its parts.
fn named(
    alloc: Global,
    template: u8,
    block: u8,
    first: &[u8],
    second: &[u8],
    third: &[u8],
) -> Result<Vec<u8>, AllocError> {
    let mut message = header(alloc, template, 0, block)?;
    message.extend_from_slice(&ID)?;
    message.extend_from_slice(first)?;
    message.extend_from_slice(second)?;
    message.extend_from_slice(third)?;
    Ok(message)
}

/// Establish, or EstablishmentAck, of this version.
fn handshake(
    alloc: Global,
    template: u8,
    version: u8,
    next: u64,
    expected: u64,
) -> Result<Vec<u8>, AllocError> {
    let mut message = header(alloc, template, version, if version == 0 { 36 } else { 44 })?;
    message.extend_from_slice(&ID)?;
    message.extend_from_slice(&STAMP)?;
    message.extend_from_slice(&INTERVAL)?;
    message.extend_from_slice(&next.to_le_bytes())?;
    if version > 0 {
        message.extend_from_slice(&expected.to_le_bytes())?;
    }
    if template == 4 {
        message.extend_from_slice(&[0, 0])?;
    }
    Ok(message)
}

/// An application message without fields, of this template.
fn application(alloc: Global, template: u8) -> Result<Vec<u8>, AllocError> {
    let mut message = Vec::new(alloc);
    message.extend_from_slice(&[0, 0, template, 0, 0x64, 0, 1, 0])?;
    Ok(message)
}

impl Peer {
    /// The peer of an end of which nothing is recorded.
    pub fn new(version: u8) -> Peer {
        Peer {
            live: 1,
            awaited: 1,
            asked: 0,
            asked_from: 1,
            left: None,
            own: 1,
            version,
        }
    }

    /// A number near this one.
    fn near(chance: &mut Chance, number: u64) -> u64 {
        match chance.below(8) {
            0 => number.saturating_add(chance.below(4)),
            1 => number.saturating_sub(chance.below(4)),
            2 => number.saturating_add(254 + chance.below(6)),
            _ => number,
        }
    }

    /// Its handshake's message: Establish, or EstablishmentAck.
    pub fn handshake(
        &mut self,
        alloc: Global,
        chance: &mut Chance,
        template: u8,
    ) -> Result<Vec<u8>, AllocError> {
        let ahead = chance.below(5);
        self.live = Peer::near(chance, self.awaited.saturating_add(ahead));
        let expected = Peer::near(chance, self.own).saturating_sub(chance.below(3));
        handshake(alloc, template, self.version, self.live, expected)
    }

    /// An announcement.
    fn sequence(&mut self, alloc: Global, next: u64) -> Result<Vec<u8>, AllocError> {
        self.live = next;
        self.left = None;
        plain(alloc, 7, 8, &next.to_le_bytes(), NOTHING)
    }

    /// The beginning of a retransmission, most often of what was asked for.
    fn retransmission(
        &mut self,
        alloc: Global,
        chance: &mut Chance,
    ) -> Result<Vec<u8>, AllocError> {
        let from = match chance.below(10) {
            0 => Peer::near(chance, self.asked_from),
            _ => self.asked_from,
        };
        let count = match chance.below(10) {
            0 => Peer::near(chance, self.asked).min(1000),
            _ => self.asked.min(1 + chance.below(4)),
        };
        self.left = Some(count);
        let (from, count) = (from.to_le_bytes(), (count as u32).to_le_bytes());
        named(alloc, 10, 36, &from, &STAMP, &count)
    }

    /// A message that may come at any time.
    fn any(&mut self, alloc: Global, chance: &mut Chance) -> Result<Vec<u8>, AllocError> {
        let number = Peer::near(chance, self.live);
        let last = self.live.saturating_sub(1).to_le_bytes();
        let small = chance.below(6).to_le_bytes();
        let count = (chance.below(4) as u32).to_le_bytes();
        match chance.below(12) {
            0 => named(alloc, 14, 24, &last, NOTHING, NOTHING),
            1 => named(alloc, 14, 24, &number.to_le_bytes(), NOTHING, NOTHING),
            2 => named(alloc, 15, 16, NOTHING, NOTHING, NOTHING),
            3 | 4 => named(alloc, 9, 36, &STAMP, &small, &count),
            5 => plain(alloc, 12, 12, &small, &count),
            6 => plain(alloc, 13, 12, &small, &count),
            7 => named(alloc, 11, 25, &STAMP, CODE, NOTHING),
            8 => named(alloc, 16, 17, CODE, NOTHING, NOTHING),
            9 => handshake(alloc, 4, 0, number, 0),
            10 => handshake(alloc, 5, 0, number, 0),
            _ => header(alloc, 8, 0, 0),
        }
    }

    /// An application message, which is one of its retransmission or a live one.
    fn message(&mut self, alloc: Global, chance: &mut Chance) -> Result<Vec<u8>, AllocError> {
        match self.left {
            Some(left) => self.left = Some(left.saturating_sub(1)),
            None => self.live = self.live.saturating_add(1),
        }
        application(alloc, chance.below(250) as u8)
    }

    /// What it says next behind the handshake.
    pub fn say(&mut self, alloc: Global, chance: &mut Chance) -> Result<Vec<u8>, AllocError> {
        let drawn = chance.below(16);
        match self.left {
            Some(0) if drawn > 0 => self.sequence(alloc, self.live),
            Some(_) if drawn > 0 => self.message(alloc, chance),
            _ if drawn < 8 => self.message(alloc, chance),
            _ if drawn < 11 && self.asked > 0 => self.retransmission(alloc, chance),
            _ if drawn < 13 => {
                let next = Peer::near(chance, self.live);
                self.sequence(alloc, next)
            }
            _ if drawn < 14 => self.retransmission(alloc, chance),
            _ => self.any(alloc, chance),
        }
    }
}
