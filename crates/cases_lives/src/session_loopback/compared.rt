//! What two journals hold of one another.

use jr_record::Record;

/// How many messages of an outbox an inbox has applied, where it applied them in order from the first on, each as it was sent,
/// and jumped over none.
pub fn applied(outbox: &[Record], inbox: &[Record]) -> Option<u64> {
    let mut sent = outbox;
    let mut count = 0u64;
    for record in inbox {
        match (record, sent) {
            (Record::Apply { number, payload }, [Record::Entry { payload: entry, .. }, rest @ ..])
                if *number == count.saturating_add(1) && payload.as_slice() == entry.as_slice() => {
                sent = rest;
                count = count.saturating_add(1);
            }
            (Record::Apply { .. } | Record::Skip { .. }, _) => return None,
            _ => {}
        }
    }
    Some(count)
}

/// How many messages of a sender an outbox has, where they are those of its plan from the first on, and in order.
pub fn ordered(outbox: &[Record], number: u16) -> Option<u64> {
    let mut next = 0u64;
    for record in outbox {
        if let Record::Entry { sender, k, payload } = record
            && *sender == number
        {
            let [.., told, place] = payload.as_slice() else {
                return None;
            };
            if *k != next.saturating_add(1)
                || u16::from(*told) != number
                || u64::from(*place) != next
            {
                return None;
            }
            next = next.saturating_add(1);
        }
    }
    Some(next)
}
