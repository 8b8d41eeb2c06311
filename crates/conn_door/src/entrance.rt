//! The door of a life as its senders come to it: what they add wakes the connection that waits.

ghost use Rattle.std.specs.Prelude.{◌≡◌, true, false, None};
ghost use Rattle.conn_door.specs.Doors.{is_open};

use crate::signals::Signals;
use gate_staff::Door;
use gw_links::Wake;
use jr_boxes::SubmitFault;
use std::sync::Wait;
use std::sync::atomic::Ordering;

/// The signals of a life, and what wakes its connections.
#[derive(Drop)]
pub struct Entrance<'s, W> {
    signals: &'s Signals,
    waker: W,
}

impl<'s, W: Wake> Entrance<'s, W> {
    /// The entrance to connections that have these signals and wait until this wakes them.
    pub fn new(signals: &'s Signals, waker: W) -> Entrance<'s, W>
        ensures { is_open result ≡ signals.now }
    {
        Entrance { signals, waker }
    }

    /// The door of this entrance where it lets all messages in at once.
    pub(crate) fn wide(&self) -> Option<OpenEntrance<'_, W>>
        ensures none { result ≡ None → is_open self.now ≡ false }
    {
        if self.signals.is_open() {
            return Some(OpenEntrance { waker: &self.waker });
        }
        None
    }

    /// Tells the connections to stop.
    pub fn stop(&self) {
        self.signals.stop().store(true, Ordering::SeqCst);
    }

    /// Ends the wait of the connection: it looks whether it is to stop, and at what there is to send.
    pub fn wake(&self) {
        self.waker.wake();
    }
}

impl<W: Wake> Door for Entrance<'_, W> {
    ghost turns = { true };

    fn before<R: Wait>(&self, sender: u16, k: u64, rt: &R) -> bool {
        self.signals.before(sender, k, rt)
    }

    fn with_it<R: Wait>(&self, sender: u16, k: u64, rt: &R) -> bool {
        self.signals.with_it(sender, k, rt)
    }

    fn accepted(&self) {
        self.wake();
    }

    fn refused<R: Wait>(&self, fault: SubmitFault, rt: &R) {
        self.signals.refused(fault, rt);
    }
}

/// The door of an entrance that lets all messages in at once, and turns nobody away.
#[derive(Drop)]
pub(crate) struct OpenEntrance<'e, W> {
    waker: &'e W,
}

impl<W: Wake> Door for OpenEntrance<'_, W> {
    ghost turns = { false };

    fn before<R: Wait>(&self, _sender: u16, _k: u64, _rt: &R) -> bool {
        true
    }

    fn with_it<R: Wait>(&self, _sender: u16, _k: u64, _rt: &R) -> bool {
        true
    }

    fn accepted(&self) {
        self.waker.wake();
    }

    fn refused<R: Wait>(&self, _fault: SubmitFault, _rt: &R) {}
}
