//! The timers at a moment, where a message or the connection's beginning was at another.

use cases_words::{halves, number};
use fixp_alive::{due, late, silent};
use std::alloc::{AllocError, Global};

/// Whether a heartbeat is due, the peer silent and the handshake late.
pub fn timers_line(alloc: Global, words: &str) -> Result<String, AllocError> {
    let (word, rest) = halves(words);
    let last = number(word);
    let (word, end) = halves(rest);
    let interval = u32::try_from(number(word)).unwrap_or(0);
    let now = number(end);
    if now < last {
        return format!(in alloc; "timers {words}: goes back");
    }
    format!(in alloc;
        "timers {words}: due {}, silent {}, late {}",
        due(last, interval, now),
        silent(last, interval, now),
        late(last, now)
    )
}
