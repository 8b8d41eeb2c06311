//! Implied numbering of a connection's events, computed by a counter.
ghost use Rattle.std.specs.Prelude.{◌≡◌, ℕ, ◌+◌, ◌^◌, ◌<◌, [], ◌∷◌, map, IfOk, IfSome, None, option_map, option_to_list};
ghost use Rattle.session_model.specs.Events.{numbered, standing as standing_behind};
ghost use Rattle.session_model.specs.Views.{event_of, events_of, numbered_of};

use crate::event::{Event, Numbered};
use std::alloc::{AllocError, Global};

/// The messages of one connection, from its beginning, each with its number; one without a number is left out
/// (FIXP 1.1, implicit sequence numbering).
pub fn numbering<'a>(alloc: Global, events: &[Event<'a>]) -> Result<Vec<Numbered<'a>>, AllocError>
    ensures exact { IfOk result (λ messages. map numbered_of messages.items ≡ numbered None (events_of events.now)) }
{
    let mut messages = Vec::new(alloc);
    let mut standing = None;
    for event in events {
        if let Some(message) = with_number(standing, *event) {
            messages.push(message)?;
        }
        standing = behind(standing, *event);
    }
    Ok(messages)
}

/// What stands announced behind an event, where `standing` stood before it. It is at most one more than before, or a
/// number announced, below 2^64.
pub fn behind(standing: Option<u128>, event: Event<'_>) -> Option<u128>
    requires { IfSome standing (λ n. n < 2 ^ 65) }
    ensures exact { result ≡ standing_behind standing (event_of event.entry ∷ []) }
    ensures fits { (i : ℕ) → IfSome standing (λ n. n < 2 ^ 64 + i) → IfSome result (λ n. n < 2 ^ 64 + (i + 1)) }
{
    match event {
        Event::Announce(_, number) => number.map(u128::from),
        Event::Message(_) => standing.map(|number| number + 1),
    }
}

/// The event's message with the number that stands announced, if it is one and has one.
pub fn with_number<'a>(standing: Option<u128>, event: Event<'a>) -> Option<Numbered<'a>>
    ensures exact { option_to_list (option_map numbered_of result) ≡ numbered standing (event_of event.entry ∷ []) }
{
    match (standing, event) {
        (Some(number), Event::Message(payload)) => Some(Numbered { number, payload }),
        _ => None,
    }
}
