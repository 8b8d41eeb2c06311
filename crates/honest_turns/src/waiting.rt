//! Two ends that have more to send than their links take.

ghost use Rattle.honest_turns.specs.Waiting.{ReadsUpTo, WritesReplies, OneReads};

/// Behind what a turn sent an end receives in its next one exactly where no more bytes are unsent than the entries of a turn have and
/// 37,760.
pub fn reads_up_to()
    ensures law { ReadsUpTo }
{}

/// A turn whose link had left output unsent before sends and tells nothing of its outbox.
pub fn writes_replies()
    ensures law { WritesReplies }
{}

/// So long as no turn of two such ends writes more than its link gave it, one of them reads, or its link has room.
pub fn one_reads()
    ensures law { OneReads }
{}
