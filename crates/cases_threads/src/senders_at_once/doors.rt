//! Doors at which senders wait for one another, or are turned away.
ghost use Rattle.std.specs.Prelude.{◌≡◌, true, false};

use gate_staff::Door;
use jr_boxes::SubmitFault;
use std::sync::Wait;
use std::sync::atomic::{AtomicU64, Ordering};
use std::thread::yield_now;

/// How often a thread looks whether another has come.
const LOOKS: u64 = 1 << 26;

/// Looks until the other has come, and says whether it has. It does not wait for ever.
fn has_come(other: &AtomicU64) -> bool {
    for look in 0..LOOKS {
        if other.load(Ordering::SeqCst) == 1 {
            return true;
        }
        if look % 4096 == 0 {
            yield_now();
        }
    }
    false
}

/// A door at which sender 1 waits, before its first submit, until sender 2 has called.
#[derive(Drop)]
pub struct Meeting {
    called: AtomicU64,
    met: AtomicU64,
}

impl Meeting {
    /// A door where nobody has called.
    pub fn new() -> Meeting {
        Meeting {
            called: AtomicU64::new(0),
            met: AtomicU64::new(0),
        }
    }

    /// Whether sender 1 has seen that sender 2 had called.
    pub fn met(&self) -> bool {
        self.met.load(Ordering::SeqCst) == 1
    }
}

impl Door for Meeting {
    ghost turns = { false };

    fn before<R: Wait>(&self, sender: u16, k: u64, _rt: &R) -> bool {
        if sender == 2 {
            self.called.store(1, Ordering::SeqCst);
        }
        if sender == 1 && k == 1 && has_come(&self.called) {
            self.met.store(1, Ordering::SeqCst);
        }
        true
    }

    fn refused<R: Wait>(&self, _fault: SubmitFault, _rt: &R) {}
}

/// A door that lets the Finish be added while senders submit: not before sender 1 calls for message `opens_at`. Sender 1 waits
/// for it before message `closed_at`.
#[derive(Drop)]
pub struct Closing {
    opens_at: u64,
    closed_at: u64,
    open: AtomicU64,
    finished: AtomicU64,
}

impl Closing {
    /// The door with these two places in the plan of sender 1.
    pub fn new(opens_at: u64, closed_at: u64) -> Closing {
        Closing {
            opens_at,
            closed_at,
            open: AtomicU64::new(0),
            finished: AtomicU64::new(0),
        }
    }

    /// Waits until the Finish may be added.
    pub fn wait(&self) {
        let _ = has_come(&self.open);
    }

    /// Says that it was added.
    pub fn tell(&self) {
        self.finished.store(1, Ordering::SeqCst);
    }
}

impl Door for Closing {
    ghost turns = { false };

    fn before<R: Wait>(&self, sender: u16, k: u64, _rt: &R) -> bool {
        if sender == 1 && k == self.opens_at {
            self.open.store(1, Ordering::SeqCst);
        }
        if sender == 1 && k == self.closed_at {
            let _ = has_come(&self.finished);
        }
        true
    }

    fn refused<R: Wait>(&self, _fault: SubmitFault, _rt: &R) {}
}

/// A door that turns each sender away before its message of this number.
#[derive(Clone, Copy, Drop)]
pub struct Turning {
    pub at: u64,
}

impl Door for Turning {
    ghost turns = { true };

    fn before<R: Wait>(&self, _sender: u16, k: u64, _rt: &R) -> bool {
        k != self.at
    }

    fn refused<R: Wait>(&self, _fault: SubmitFault, _rt: &R) {}
}
