//! One step of an idempotent flow, over its next number alone.

ghost use Rattle.std.specs.Prelude.{◌≡◌, ◌+◌, ◌<◌, ◌^◌};
ghost use Rattle.flow_idem.specs.Applying.{jump_of, after_message};

use fixp_msgs::Range;

/// The numbers that an announcement of `announced` jumps over, where `next` was the next one. There are none where it is
/// announced itself, and where the announcement goes back. They are told as not applied (FIXP 1.1, NotApplied).
pub fn jump_of(next: u64, announced: u64) -> Option<Range>
    ensures { result ≡ jump_of next announced }
{
    if next < announced {
        Some(Range {
            from: next,
            count: announced - next,
        })
    } else {
        None
    }
}

/// The next number behind a message that is applied under this one.
pub fn after_message(number: u64) -> u64
    requires { number + 1 < 2 ^ 64 }
    ensures { result ≡ after_message number }
{
    number + 1
}
