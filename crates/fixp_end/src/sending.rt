//! The frames of an outbox's entries, at the end of an end's output.

ghost use Rattle.std.specs.Prelude.{◌≡◌, ◌+◌, ◌<◌, ◌≤◌, ◌^◌, ◌++◌, ◌∷◌, [], length, take};
ghost use Rattle.fixp_end.specs.Sending.{FramesFit, payloads_of};
ghost use Rattle.fixp_machine.specs.Machine.{payload_frames, sent_at, rest_of};

use crate::output::Output;
use fixp_msgs::Range;
use jr_kept::Stable;

/// How many bytes the frames of entries have at most.
pub fn frames_fit()
    ensures law { FramesFit }
{}

/// Writes the frame of an entry.
fn append_entry(output: &mut Output, entry: &Stable)
    requires room { length output.old + (length entry.now.payload + 4) ≤ 5242880 }
    ensures bytes { output.new ≡ output.old ++ payload_frames (entry.now.payload ∷ []) }
{
    let payload = entry.payload();
    let size = payload.len() + 4;
    output.append(&(size as u32).to_be_bytes());
    output.append(payload);
}

/// Writes the frames of entries, in order.
fn append_entries(output: &mut Output, entries: &[Stable])
    requires room { length output.old + length (payload_frames (payloads_of entries.now)) ≤ 5000000 }
    ensures bytes { output.new ≡ output.old ++ payload_frames (payloads_of entries.now) }
{
    for entry in entries {
        append_entry(output, entry);
    }
}

/// Writes the frames of entries at the moment `now`, and keeps the moment of the last frame written.
pub fn write_entries(output: &mut Output, last_sent: &mut u64, entries: &[Stable], now: u64)
    requires room { length output.old + length (payload_frames (payloads_of entries.now)) ≤ 5000000 }
    ensures bytes { output.new ≡ output.old ++ payload_frames (payloads_of entries.now) }
    ensures sent { last_sent.new ≡ sent_at last_sent.old (payload_frames (payloads_of entries.now)) now }
    ensures within { last_sent.old ≤ now → last_sent.new ≤ now }
{
    let before = output.unsent().len();
    append_entries(output, entries);
    if before < output.unsent().len() {
        *last_sent = now;
    }
}

/// What is left of a range once `count` of its messages were sent again.
pub fn rest_of(range: Range, count: u64) -> Option<Range>
    requires within { count ≤ range.count }
    requires ranged { range.from + count < 2 ^ 64 }
    ensures { result ≡ rest_of range count }
{
    if range.count == count {
        return None;
    }
    Some(Range {
        from: range.from + count,
        count: range.count - count,
    })
}
