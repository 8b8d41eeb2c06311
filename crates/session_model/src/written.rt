//! Whether what one connection wrote is true of the journal that it was written from.
ghost use Rattle.std.specs.Prelude.{◌≡◌, ◌+◌, ◌^◌, ◌<◌, ◌↔◌, [], ◌∷◌, None, IfSome, IsTrue};
ghost use Rattle.session_model.specs.Events.{TrueOfJournal};
ghost use Rattle.session_model.specs.Journal.{IsEntry};
ghost use Rattle.session_model.specs.Views.{event_of, events_of, journal_of};

use crate::event::{Entry, Event};
use crate::implied::behind;

/// Whether each numbered message of a connection is the journal's entry of that number, and each announced number is one
/// that an entry has, or one past the last.
pub fn is_true(journal: &[Entry<'_>], events: &[Event<'_>]) -> bool
    ensures exact { IsTrue result ↔ TrueOfJournal (journal_of journal.now) None (events_of events.now) }
{
    let mut standing = None;
    for event in events {
        if !is_true_event(journal, standing, *event) {
            return false;
        }
        standing = behind(standing, *event);
    }
    true
}

/// The same of one event, where `standing` stood announced before it.
fn is_true_event(journal: &[Entry<'_>], standing: Option<u128>, event: Event<'_>) -> bool
    requires { IfSome standing (λ n. n < 2 ^ 65) }
    ensures exact { IsTrue result ↔ TrueOfJournal (journal_of journal.now) standing (event_of event.entry ∷ []) }
{
    match event {
        Event::Announce(_, None) => true,
        Event::Announce(_, Some(number)) => 1 <= number
            && u128::from(number) <= journal.len() as u128 + 1,
        Event::Message(payload) => match standing {
            None => true,
            Some(number) => is_entry(journal, number, payload),
        },
    }
}

/// Whether the journal's entry of that number, from 1 on, has this payload.
fn is_entry(journal: &[Entry<'_>], number: u128, payload: &[u8]) -> bool
    ensures exact { IsTrue result ↔ IsEntry (journal_of journal.now) number payload.now }
{
    if number < 1 || number > journal.len() as u128 {
        return false;
    }
    journal[(number - 1) as usize].payload == payload
}
