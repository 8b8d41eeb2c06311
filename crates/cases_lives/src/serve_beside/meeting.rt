//! Two that wait for each other.

use std::sync::atomic::{AtomicU64, Ordering};
use std::thread::yield_now;

/// How often one looks whether the other has come.
const LOOKS: u64 = 1 << 26;

/// Looks until the other has come, and says whether it has. It does not wait for ever.
fn has_come(other: &AtomicU64) -> bool {
    for look in 0..LOOKS {
        if other.load(Ordering::SeqCst) != 0 {
            return true;
        }
        if look % 4096 == 0 {
            yield_now();
        }
    }
    false
}

/// Comes, where one has not come before, and looks for the other: 1 once it has come, and 2 once it has seen the other.
fn come(own: &AtomicU64, other: &AtomicU64) {
    if own.load(Ordering::SeqCst) != 0 {
        return;
    }
    own.store(1, Ordering::SeqCst);
    if has_come(other) {
        own.store(2, Ordering::SeqCst);
    }
}

/// Where a dialer and a sender meet, each once.
#[derive(Drop)]
pub struct Meeting {
    dialer: AtomicU64,
    sender: AtomicU64,
}

impl Meeting {
    /// A meeting to which none has come.
    pub fn new() -> Meeting {
        Meeting {
            dialer: AtomicU64::new(0),
            sender: AtomicU64::new(0),
        }
    }

    /// The dialer comes.
    pub fn dial(&self) {
        come(&self.dialer, &self.sender);
    }

    /// The sender comes.
    pub fn send(&self) {
        come(&self.sender, &self.dialer);
    }

    /// Whether the dialer has seen the sender, and the sender the dialer.
    pub fn met(&self) -> (bool, bool) {
        (
            self.dialer.load(Ordering::SeqCst) == 2,
            self.sender.load(Ordering::SeqCst) == 2,
        )
    }
}
