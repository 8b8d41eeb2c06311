//! The window of an end: what is held past a gap of the peer's flow, where that is recoverable. It relies on `flow_window`; where
//! there is no window, nothing is held.

ghost use Rattle.std.specs.Prelude.{◌≡◌, ◌+◌, ◌<◌, ◌≤◌, ◌^◌, [], drop, length, is_some, IfOk, IfSome, IsSome, None, option_map};
ghost use Rattle.fixp_msgs.specs.Numbering.{payload_of};
ghost use Rattle.fixp_shake.specs.Flows.{is_recoverable};
ghost use Rattle.flow_window.specs.Window.{least, front};
ghost use Rattle.fixp_machine.specs.Machine.{held_until, held_with};
ghost use Rattle.fixp_machine.specs.Sound.{GoesByOne};
ghost use Rattle.fixp_end.specs.Keeping.{held_in, Awaits};

use fixp_replies::Ending;
use fixp_shake::{EndConfig, is_recoverable};
use flow_window::Window;
use sbe_prim::Order;
use std::alloc::{AllocError, Global};

/// A window where the peer's flow is recoverable, whose inbox waits for the number `next`.
///
/// # Errors
/// Want of memory, some 4 MB in 258 pieces.
pub fn new_window(
    alloc: Global,
    config: &EndConfig,
    next: u64,
) -> Result<Option<Window>, AllocError>
    ensures held { IfOk result (λ w. held_in w ≡ []) }
    ensures awaits { IfOk result (λ w. Awaits w next) }
    ensures made { IfOk result (λ w. is_some w ≡ is_recoverable config.now.peer_flow) }
{
    if is_recoverable(config.peer_flow) {
        let window = Window::new(alloc, next)?;
        Ok(Some(window))
    } else {
        Ok(None)
    }
}

/// The least number held.
pub fn least(window: &Option<Window>) -> Option<u64>
    ensures { result ≡ least (held_in window.now) }
{
    match window {
        Some(window) => window.least(),
        None => None,
    }
}

/// The message that the inbox waits for, with its number, where it is held.
pub fn front(window: &Option<Window>, next: u64) -> Option<(u64, &[u8])>
    requires { Awaits window.now next }
    ensures { option_map (λ h. record { number = h.0; payload = h.1.now }) result ≡ front next (held_in window.now) }
{
    match window {
        Some(window) => window.held(),
        None => None,
    }
}

/// Holds the message of a frame, if it is to be held under a number. Where one is held under this number, that one stays.
pub fn hold_message(
    window: &mut Option<Window>,
    number: Option<u64>,
    order: Order,
    message: &[u8],
    next: u64,
)
    requires made { IsSome number → IsSome window.old }
    requires awaits { Awaits window.old next }
    requires near { IfSome number (λ n. (next < n) × (n ≤ next + 256)) }
    requires size { length message.now ≤ 16384 }
    ensures held { held_in window.new ≡ held_with number (payload_of (record { order = order; message = message.now })) (held_in window.old) }
    ensures awaits { Awaits window.new next }
    ensures made { is_some window.new ≡ is_some window.old }
{
    let Some(number) = number else {
        return;
    };
    match window {
        Some(window) => window.hold_frame(number, order, message),
        None => {}
    }
}

/// The inbox waits for `next` from now on: the number that it waited for, or the one behind it, which came and was not held.
pub fn go_on(window: &mut Option<Window>, before: u64, next: u64)
    requires awaits { Awaits window.old before }
    requires steps { IsSome window.old → GoesByOne before next }
    requires free { front before (held_in window.old) ≡ None }
    ensures held { held_in window.new ≡ held_in window.old }
    ensures awaits { Awaits window.new next }
    ensures made { is_some window.new ≡ is_some window.old }
{
    match window {
        Some(window) => {
            if before < next {
                window.pass();
            }
        }
        None => {}
    }
}

/// The message that the inbox waited for was applied from the window.
pub fn drop_front(window: &mut Option<Window>, next: u64)
    requires awaits { Awaits window.old next }
    requires held { IsSome (front next (held_in window.old)) }
    requires ranged { next + 1 < 2 ^ 64 }
    ensures held { held_in window.new ≡ drop 1 (held_in window.old) }
    ensures awaits { Awaits window.new (next + 1) }
    ensures made { is_some window.new ≡ is_some window.old }
{
    match window {
        Some(window) => window.drop_front(),
        None => {}
    }
}

/// Lets go of all that is held.
pub fn let_go(window: &mut Option<Window>, next: u64)
    requires { Awaits window.old next }
    ensures held { held_in window.new ≡ [] }
    ensures awaits { Awaits window.new next }
    ensures made { is_some window.new ≡ is_some window.old }
{
    match window {
        Some(window) => window.restart(),
        None => {}
    }
}

/// Lets go of all that is held where the connection has ended.
pub fn let_go_at(window: &mut Option<Window>, ending: Option<Ending>, next: u64)
    requires { Awaits window.old next }
    ensures held { held_in window.new ≡ held_until ending (held_in window.old) }
    ensures awaits { Awaits window.new next }
    ensures made { is_some window.new ≡ is_some window.old }
{
    match ending {
        Some(_) => let_go(window, next),
        None => {}
    }
}
