//! A door at which desks wait for one another.
ghost use Rattle.std.specs.Prelude.{false};

use gate_staff::Door;
use jr_boxes::SubmitFault;
use std::sync::Wait;
use std::sync::atomic::{AtomicU64, Ordering};
use std::thread::yield_now;

/// How often a thread looks whether another has come.
const LOOKS: u64 = 1 << 26;

/// Looks until the other has come, and says whether it has. It does not wait for ever.
fn has_come(other: &AtomicU64) -> bool {
    for look in 0..LOOKS {
        if other.load(Ordering::SeqCst) == 1 {
            return true;
        }
        if look % 4096 == 0 {
            yield_now();
        }
    }
    false
}

/// Where desk 1 waits, before its first report, until desk 2 has come.
#[derive(Drop)]
pub struct Meeting {
    come: AtomicU64,
    met: AtomicU64,
}

impl Meeting {
    /// A meeting to which nobody has come.
    pub fn new() -> Meeting {
        Meeting {
            come: AtomicU64::new(0),
            met: AtomicU64::new(0),
        }
    }

    /// Whether desk 1 has seen that desk 2 had come.
    pub fn met(&self) -> bool {
        self.met.load(Ordering::SeqCst) == 1
    }
}

/// The door of a meeting.
#[derive(Clone, Copy, Drop)]
pub struct At<'a> {
    pub meeting: &'a Meeting,
}

impl<'a> Door for At<'a> {
    ghost turns = { false };

    fn before<R: Wait>(&self, sender: u16, k: u64, _rt: &R) -> bool {
        if sender == 2 {
            self.meeting.come.store(1, Ordering::SeqCst);
        }
        if sender == 1 && k == 1 && has_come(&self.meeting.come) {
            self.meeting.met.store(1, Ordering::SeqCst);
        }
        true
    }

    fn refused<R: Wait>(&self, _fault: SubmitFault, _rt: &R) {}
}
