//! The replies of the table to sound facts: they keep the facts sound, and what they write may be written.

ghost use Rattle.std.specs.Prelude.{◌≡◌, ℕ, ◌+◌, ◌<◌, ◌≤◌, ◌^◌, ◌∷◌, ◌++◌, [], length, List, Option, Some, None, IsSome, IfSome, true, false};
ghost use Rattle.std.specs.List.{AllByRecursion};
ghost use Rattle.fixp_msgs.specs.declared.numbering.Range.{Range};
ghost use Rattle.fixp_replies.specs.Acts.{is_record};
ghost use Rattle.fixp_shake.specs.Flows.{is_recoverable};
ghost use Rattle.fixp_replies.specs.Facts.{around_of};
ghost use Rattle.fixp_replies.specs.Events.{begun, heartbeats, finish_told, applied_runs, turn_ended};
ghost use Rattle.fixp_replies.specs.Incoming.{incoming_of};
ghost use Rattle.fixp_replies.specs.Outcomes.{breaks};
ghost use Rattle.fixp_replies.specs.Outgoing.{messages_of, outcome_of, place_limit, reply_limit, written_limit};
ghost use Rattle.fixp_replies.specs.Replies.{reply_of, reply_to_bad_frame};
ghost use Rattle.fixp_machine.specs.Fitting.{CanTake, IsMessage, Records};
ghost use Rattle.flow_window.specs.Window.{least, front};
ghost use Rattle.session_model.specs.Inbox.{Numbered};
ghost use Rattle.fixp_replies.specs.declared.act.Ending.{Ending};
ghost use Rattle.fixp_machine.specs.Machine.{Windowed, WindowStays, held_until};
ghost use Rattle.fixp_machine.specs.Sound.{Sound, KeepsSound, GoesByOne, HeldFits, MayWrite};
ghost use Rattle.fixp_end.specs.Doing.{Serves};

use fixp_machine::{acts_fit, holding_goes_on, sound_goes_on, window_goes_on};
use fixp_replies::{
    Around, Facts, Incoming, Outgoing, Reply, begin, end_turn, heartbeat_due, reply_to,
    reply_to_bad_frame, tell_finish,
};
use fixp_shake::Violation;

/// The reply to a frame.
pub fn reply_to_frame(around: &Around<'_>, facts: &mut Facts, incoming: &Incoming<'_>) -> Reply
    requires moment { around.now.moment < 2 ^ 44 }
    requires most { around.now.most ≤ 2 ^ 26 }
    requires sound { Sound around.now.config.now facts.old }
    requires serves { Serves facts.old }
    requires fits { HeldFits around.now.held facts.old }
    ensures reply { outcome_of around.now.config.now result facts.new ≡ reply_of (around_of around.now) facts.old (incoming_of incoming.now) }
    ensures keeps { KeepsSound around.now.config.now around.now.most facts.old (outcome_of around.now.config.now result facts.new) }
    ensures small { written_limit around.now.config.now result.written ≤ reply_limit around.now.config.now }
    ensures takes { CanTake around.now.config.now.peer_flow around.now.most facts.old.recorded (IsMessage (incoming_of incoming.now)) result.act }
    ensures recorded { Records result.act facts.old.recorded facts.new.recorded }
    ensures serves { Serves facts.new }
    ensures steps { is_recoverable around.now.config.now.peer_flow ≡ true → GoesByOne facts.old.recorded.inbox_next facts.new.recorded.inbox_next }
    ensures held_on { IsSome result.holds → is_recoverable around.now.config.now.peer_flow ≡ true }
    ensures near { IfSome result.holds (λ n. (facts.old.recorded.inbox_next < n) × (n ≤ facts.old.recorded.inbox_next + 256)) }
    ensures goes_on { IsSome result.holds → result.ending ≡ None }
    ensures window { (ending : Option Ending) (held : List Numbered) → around.now.held ≡ least held
        → Windowed around.now.config.now around.now.most facts.old ending held → front facts.old.recorded.inbox_next held ≡ None
        → WindowStays (around_of around.now) facts.old (incoming_of incoming.now) (outcome_of around.now.config.now result facts.new) held }
    ensures message { IsSome result.holds → IsMessage (incoming_of incoming.now) }
    ensures still { is_record result.act ≡ false → facts.new.recorded.inbox_next ≡ facts.old.recorded.inbox_next }
{
    sound_goes_on();
    acts_fit();
    holding_goes_on();
    window_goes_on();
    reply_to(around, facts, incoming)
}

/// The reply to bytes that are no frame.
pub fn reply_to_no_frame(around: &Around<'_>, facts: &Facts) -> Reply
    requires sound { Sound around.now.config.now facts.now }
    ensures reply { outcome_of around.now.config.now result facts.now ≡ reply_to_bad_frame (around_of around.now) facts.now }
    ensures keeps { KeepsSound around.now.config.now around.now.most facts.now (outcome_of around.now.config.now result facts.now) }
    ensures window { (held : List Numbered) → Windowed around.now.config.now around.now.most facts.now result.ending (held_until result.ending held) }
    ensures small { written_limit around.now.config.now result.written ≤ reply_limit around.now.config.now }
{
    reply_to_bad_frame(around, facts)
}

/// The first message of a connection, if the end begins it.
pub fn begin_connection(around: &Around<'_>, facts: &mut Facts) -> Option<Outgoing>
    requires moment { around.now.moment < 2 ^ 44 }
    requires sound { Sound around.now.config.now facts.old }
    ensures made { record { written = messages_of around.now.config.now (result ∷ []); next = facts.new } ≡ begun (around_of around.now) facts.old.recorded }
    ensures sound { Sound around.now.config.now facts.new }
    ensures recorded { facts.new.recorded ≡ facts.old.recorded }
    ensures free { facts.new.connection.serving ≡ None }
    ensures writes { AllByRecursion (MayWrite around.now.config.now) (messages_of around.now.config.now (result ∷ [])) }
{
    begin(around, facts)
}

/// The end of a connection whose peer broke a rule.
pub fn break_connection(around: &Around<'_>, facts: &Facts, violation: Violation) -> Reply
    requires sound { Sound around.now.config.now facts.now }
    ensures reply { outcome_of around.now.config.now result facts.now ≡ breaks (around_of around.now) facts.now violation }
    ensures keeps { KeepsSound around.now.config.now around.now.most facts.now (outcome_of around.now.config.now result facts.now) }
    ensures window { (held : List Numbered) → Windowed around.now.config.now around.now.most facts.now result.ending (held_until result.ending held) }
    ensures small { written_limit around.now.config.now result.written ≤ 64 }
{
    Reply::breaks(around, facts, violation)
}

/// The heartbeat that is due where nothing waits to be sent, if one is.
pub fn beat(around: &Around<'_>, facts: &Facts, last_sent: u64) -> Option<Outgoing>
    requires sound { Sound around.now.config.now facts.now }
    requires order { last_sent ≤ around.now.moment }
    ensures beats { messages_of around.now.config.now (result ∷ []) ≡ heartbeats (around_of around.now) facts.now last_sent [] }
    ensures small { place_limit around.now.config.now result ≤ 64 }
    ensures writes { AllByRecursion (MayWrite around.now.config.now) (messages_of around.now.config.now (result ∷ [])) }
{
    heartbeat_due(around, facts, last_sent)
}

/// The outbox has its finish behind this many entries: the message that tells it, where it is to be written now.
pub fn finish_sending(around: &Around<'_>, facts: &mut Facts, last: u64) -> Option<Outgoing>
    requires sound { Sound around.now.config.now facts.old }
    ensures made { record { written = messages_of around.now.config.now (result ∷ []); next = facts.new } ≡ finish_told (around_of around.now) facts.old last }
    ensures sound { Sound around.now.config.now facts.new }
    ensures recorded { facts.new.recorded ≡ record facts.old.recorded { finish = Some last } }
    ensures fits { (held : Option ℕ) → HeldFits held facts.old → HeldFits held facts.new }
    ensures serving { facts.new.connection.serving ≡ facts.old.connection.serving }
    ensures writes { AllByRecursion (MayWrite around.now.config.now) (messages_of around.now.config.now (result ∷ [])) }
{
    tell_finish(around, facts, last)
}

/// The end of a turn: the Terminate by which an initiator closes the connection, if it does.
pub fn finish_turn(around: &Around<'_>, facts: &mut Facts) -> Option<Outgoing>
    requires sound { Sound around.now.config.now facts.old }
    ensures made { (runs : List Range) → record { written = applied_runs runs ++ messages_of around.now.config.now (result ∷ []); next = facts.new } ≡ turn_ended (around_of around.now) facts.old runs }
    ensures small { place_limit around.now.config.now result ≤ 64 }
    ensures sound { Sound around.now.config.now facts.new }
    ensures recorded { facts.new.recorded ≡ facts.old.recorded }
    ensures fits { (held : Option ℕ) → HeldFits held facts.old → HeldFits held facts.new }
    ensures serving { facts.new.connection.serving ≡ facts.old.connection.serving }
    ensures writes { AllByRecursion (MayWrite around.now.config.now) (messages_of around.now.config.now (result ∷ [])) }
{
    end_turn(around, facts)
}
