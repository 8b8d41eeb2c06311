//! The sender's answer to a request for a retransmission.

ghost use Rattle.std.specs.Prelude.{◌≡◌};
ghost use Rattle.flow_retrans.specs.Judging.{code_of, is_outside, judged};

use fixp_msgs::Range;

/// How many messages one request may ask for.
pub const REQUEST_LIMIT: u32 = 256;

/// Why a request is refused (FIXP 1.1, RetransmitReject; the numbers are this project's profile).
#[derive(Clone, Copy)]
pub enum RetransmitCode {
    /// 1. The flow is not recoverable, or the range holds a number that was not sent.
    OutOfRange,
    /// 2. The request names another session.
    InvalidSession,
    /// 3. It asks for more than 256 messages.
    RequestLimitExceeded,
}

impl RetransmitCode {
    /// The number that stands for it in a message.
    pub fn code(self) -> u8
        ensures { result ≡ code_of self }
    {
        match self {
            RetransmitCode::OutOfRange => 1,
            RetransmitCode::InvalidSession => 2,
            RetransmitCode::RequestLimitExceeded => 3,
        }
    }
}

/// Whether no messages of the range can be sent again, where the numbers up to `sent` were.
fn is_outside(recoverable: bool, from: u64, count: u32, sent: u64) -> bool
    ensures { result ≡ is_outside recoverable from count sent }
{
    let count = u64::from(count);
    !recoverable || from == 0 || count == 0 || sent < count || sent - count < from - 1
}

/// Judges a request for `count` messages from the number `from` on. `own` tells that it names the own session, `recoverable`
/// that the own flow is recoverable, and `sent` is the last number that was sent.
///
/// # Errors
/// `InvalidSession` where the request is another session's; else `OutOfRange` where the flow is not recoverable, `from` or
/// `count` is 0, or the range passes `sent`; else `RequestLimitExceeded` where `count` is above 256.
pub fn judge(
    own: bool,
    recoverable: bool,
    from: u64,
    count: u32,
    sent: u64,
) -> Result<Range, RetransmitCode>
    ensures { result ≡ judged own recoverable from count sent }
{
    if !own {
        return Err(RetransmitCode::InvalidSession);
    }
    if is_outside(recoverable, from, count, sent) {
        return Err(RetransmitCode::OutOfRange);
    }
    if count > REQUEST_LIMIT {
        return Err(RetransmitCode::RequestLimitExceeded);
    }
    Ok(Range {
        from,
        count: u64::from(count),
    })
}
