//! What a receiver with a window delivers, holds and misses, where there is memory enough. The payload of a message is its
//! number, in one byte; the rows are the worked cases of the profile.

use fixp_msgs::Range;
use flow_recover::{Back, Seen};
use flow_window::Receiver;
use sbe_prim::Order;
use std::test::Fail;

/// Applies the held message that is ready, if one is.
fn apply_front(receiver: &mut Receiver, applied: &mut Vec<u8>) -> Result<(), Fail> {
    if receiver.next() == u64::MAX {
        return Ok(());
    }
    match receiver.held() {
        Some((_, payload)) => applied.extend_from_slice(payload)?,
        None => return Ok(()),
    }
    receiver.drop_front();
    Ok(())
}

/// A message comes: it is applied where it is delivered, and then each held one that is ready.
fn comes(receiver: &mut Receiver, message: u8, applied: &mut Vec<u8>) -> Result<(), Fail> {
    if receiver.number() == u64::MAX || receiver.held().is_some() {
        return Ok(());
    }
    match receiver.take(&[message]) {
        Seen::Deliver(_) => applied.push(message)?,
        Seen::Hold(_) | Seen::Gap(_) | Seen::Repeat(_) => {}
    }
    for _ in 0..4 {
        apply_front(receiver, applied)?;
    }
    Ok(())
}

/// The message of a frame is held, where its number is within reach.
fn holds_frame(receiver: &mut Receiver, number: u64) {
    let next = receiver.next();
    if next <= number && number - next <= 256 {
        receiver.hold_frame(number, Order::Big, &[1; 8]);
    }
}

/// Whether the front is that message.
fn has_frame(receiver: &Receiver, number: u64) -> bool {
    let payload = [0x5B, 0xE0, 1, 1, 1, 1, 1, 1, 1, 1];
    let front = receiver.front();
    match (receiver.held(), front) {
        (Some(held), Some(front)) => {
            held.0 == number && held.1 == payload.as_slice() && front == held.1
        }
        _ => false,
    }
}

#[test]
fn fills_a_gap(rt: HostRuntime) -> Result<(), Fail> {
    let alloc = rt.alloc();
    let mut receiver = Receiver::new(alloc, 4)?;
    let mut applied = Vec::new(alloc);
    assert!(rt; receiver.announce(6) == Ok(()), "6 is announced");
    comes(&mut receiver, 6, &mut applied)?;
    comes(&mut receiver, 7, &mut applied)?;
    let missing = Range { from: 4, count: 2 };
    assert!(rt; receiver.gap() == Some(missing), "4 and 5 are missing");
    receiver.on_retransmission(4);
    comes(&mut receiver, 4, &mut applied)?;
    assert!(rt; receiver.least() == Some(6), "6 waits for 5");
    comes(&mut receiver, 5, &mut applied)?;
    assert!(rt;
        applied.as_slice() == [4, 5, 6, 7].as_slice(),
        "the held ones follow"
    );
    assert!(rt; receiver.announce(8) == Ok(()), "8 is announced");
    assert!(rt;
        receiver.gap().is_none() && receiver.next() == 8,
        "nothing is missing"
    );
    assert!(rt;
        receiver.live() == 8 && receiver.expected() == 8,
        "8 is next"
    );
    Ok(())
}

#[test]
fn holds_within_reach(rt: HostRuntime) -> Result<(), Fail> {
    let mut receiver = Receiver::new(rt.alloc(), 4)?;
    let mut applied = Vec::new(rt.alloc());
    assert!(rt; receiver.announce(261) == Ok(()), "261 is announced");
    comes(&mut receiver, 1, &mut applied)?;
    assert!(rt; receiver.least().is_none(), "261 is past the reach");
    receiver.on_retransmission(260);
    comes(&mut receiver, 2, &mut applied)?;
    receiver.on_retransmission(260);
    comes(&mut receiver, 3, &mut applied)?;
    let missing = Range {
        from: 4,
        count: 256,
    };
    assert!(rt; receiver.gap() == Some(missing), "260 is held");
    receiver.restart();
    assert!(rt;
        receiver.least().is_none() && receiver.gap().is_none(),
        "nothing is held"
    );
    holds_frame(&mut receiver, 4);
    assert!(rt; has_frame(&receiver, 4), "the frame is the front");
    assert!(rt; applied.is_empty(), "nothing was applied");
    Ok(())
}

#[test]
fn announces_soft(rt: HostRuntime) -> Result<(), Fail> {
    let mut receiver = Receiver::new(rt.alloc(), 4)?;
    assert!(rt; receiver.announce(9) == Ok(()), "9 is announced");
    let back = Back {
        announced: 6,
        expected: 9,
    };
    assert!(rt; receiver.announce(6) == Err(back), "6 goes back");
    assert!(rt; receiver.announce_soft(6) == Ok(()), "it may");
    let back = Back {
        announced: 3,
        expected: 4,
    };
    assert!(rt; receiver.announce_soft(3) == Err(back), "3 is there");
    Ok(())
}
