//! What an inbox holds after cuts, jumps, bad announcements and a restart, and which connections are true of a journal.
//! The rows are the worked cases of the profile.

use session_model::event::{Announcer, Entry, Event, Flow, Numbered, Range, Record};
use session_model::grown::{Inbox, never_back};
use session_model::implied::numbering;
use session_model::written::is_true;
use std::alloc::Global;
use std::test::Fail;

const ONE: Event<'static> = Event::Message(&[1]);

const TWO: Event<'static> = Event::Message(&[2]);

const THREE: Event<'static> = Event::Message(&[3]);

const FOUR: Event<'static> = Event::Message(&[4]);

const FIVE: Event<'static> = Event::Message(&[5]);

const NO_NUMBER: Event<'static> = Event::Announce(Announcer::InFlow, None);

/// One entry of each of two senders.
const JOURNAL: [Entry<'static>; 2] = [
    Entry {
        sender: 1,
        own_number: 1,
        payload: &[1],
    },
    Entry {
        sender: 2,
        own_number: 1,
        payload: &[2],
    },
];

/// What is numbered behind announcements of 3, of none and of 9.
const NUMBERS: [Numbered<'static>; 3] = [
    Numbered {
        number: 3,
        payload: &[2],
    },
    Numbered {
        number: 4,
        payload: &[3],
    },
    Numbered {
        number: 9,
        payload: &[5],
    },
];

/// What a handshake announces.
fn opens(number: u64) -> Event<'static> {
    Event::Announce(Announcer::Handshake, Some(number))
}

/// What a Sequence or a Retransmission announces.
fn announce(number: u64) -> Event<'static> {
    Event::Announce(Announcer::InFlow, Some(number))
}

fn apply(number: u128, payload: &[u8]) -> Record<'_> {
    Record::Apply(Numbered { number, payload })
}

/// The next process life: it opens the records that the one before left, and grows over one connection, if the flow admits
/// its announcements.
fn next_life<'a>(older: Inbox<'a>, flow: Flow, events: &[Event<'a>]) -> Result<Inbox<'a>, Fail> {
    let mut inbox = Inbox::open(older.into_records());
    match flow {
        Flow::Recoverable => inbox.grow(Flow::Recoverable, events)?,
        Flow::Idempotent => {
            if never_back(inbox.next, events) {
                inbox.grow(Flow::Idempotent, events)?;
            }
        }
        Flow::Unsequenced => inbox.grow(Flow::Unsequenced, events)?,
        Flow::NoFlow => inbox.grow(Flow::NoFlow, events)?,
    }
    Ok(inbox)
}

/// Two lives of one connection each.
fn two_lives<'a>(
    alloc: Global,
    flow: Flow,
    first: &[Event<'a>],
    second: &[Event<'a>],
) -> Result<Inbox<'a>, Fail> {
    let older = next_life(Inbox::new(alloc), flow, first)?;
    next_life(older, flow, second)
}

fn holds(inbox: &Inbox<'_>, records: &[Record<'_>], next: u128) -> bool {
    inbox.next == next && inbox.records.as_slice() == records
}

#[test]
fn grows_over_connections(rt: HostRuntime) -> Result<(), Fail> {
    let alloc = rt.alloc();
    let one = apply(1, &[1]);
    let two = apply(2, &[2]);
    let three = apply(3, &[3]);
    let live = [opens(1), ONE, TWO, THREE];
    let again = [opens(6), announce(4), FOUR, FIVE, announce(6)];
    let inbox = two_lives(alloc, Flow::Recoverable, &live, &again)?;
    let all = [one, two, three, apply(4, &[4]), apply(5, &[5])];
    assert!(rt; holds(&inbox, &all, 6), "a gap is asked for");

    let inbox = two_lives(alloc, Flow::Recoverable, &[opens(1), ONE, TWO], &live)?;
    assert!(rt;
        holds(&inbox, &[one, two, three], 4),
        "an older life applied two"
    );

    let inbox = two_lives(alloc, Flow::Idempotent, &[opens(1), ONE], &[opens(4), FOUR])?;
    let jumped = Record::Skip(Range { first: 2, count: 2 });
    assert!(rt;
        holds(&inbox, &[one, jumped, apply(4, &[4])], 5),
        "a jump is told"
    );

    let inbox = two_lives(alloc, Flow::Unsequenced, &[ONE, THREE], &[FIVE])?;
    let counted = [one, apply(2, &[3]), apply(3, &[5])];
    assert!(rt; holds(&inbox, &counted, 4), "the inbox counts by itself");

    let inbox = two_lives(alloc, Flow::NoFlow, &[opens(1), ONE], &[FIVE])?;
    assert!(rt; holds(&inbox, &[], 1), "there is no flow");
    Ok(())
}

#[test]
fn judges_connections(rt: HostRuntime) -> Result<(), Fail> {
    assert!(rt; !never_back(5, &[opens(3)]), "goes back");
    assert!(rt; !never_back(5, &[NO_NUMBER]), "has no number");
    assert!(rt; is_true(&JOURNAL, &[opens(3), announce(1), ONE, TWO, announce(3)]));
    assert!(rt;
        !is_true(&JOURNAL, &[announce(1152921504606846976)]),
        "is above the journal"
    );
    assert!(rt;
        !is_true(&JOURNAL, &[opens(3), TWO]),
        "is sent again under the live number"
    );
    assert!(rt; !is_true(&JOURNAL, &[opens(1), TWO]), "is another entry");

    let messages = numbering(
        rt.alloc(),
        &[
            ONE,
            opens(3),
            TWO,
            THREE,
            NO_NUMBER,
            FOUR,
            announce(9),
            FIVE,
        ],
    )?;
    assert!(rt;
        messages.as_slice() == NUMBERS.as_slice(),
        "numbers behind announcements"
    );
    Ok(())
}
