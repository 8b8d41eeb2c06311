//! The lines of a text, taken one after another from the fronts of their senders.

ghost use Rattle.std.specs.Prelude.{◌≡◌, ◌≤◌, List, length, IfSome, IfNone};
ghost use Rattle.text_words.specs.Lines.{lines_in};
ghost use Rattle.plan_text.specs.Plans.{Gift, AreGiven};
ghost use Rattle.plan_outbox.specs.Progress.{AllStandBy, IsLinePast};

use crate::front::Front;
use plan_text::sender_of;
use text_words::first_line;

/// The number, from 1 on, of the first line that may not stand by its sender's front; none where all may.
pub fn first_line_past(text: &[u8], left: &mut [Front], finished: bool) -> Option<u64>
    ensures past { IfSome result (λ line. (gifts : List Gift) → AreGiven (length left.old) (lines_in text.now) gifts → IsLinePast left.old finished gifts line) }
    ensures none { IfNone result ((gifts : List Gift) → AreGiven (length left.old) (lines_in text.now) gifts → AllStandBy left.old finished gifts) }
{
    let mut count = 0u64;
    let mut rest = text;
    while let Some((line, behind)) = first_line(rest) {
        let Some(sender) = sender_of(line, left.len()) else {
            return None;
        };
        if !left[sender - 1].take(finished) {
            return Some(count + 1);
        }
        count += 1;
        rest = behind;
    }
    None
}
