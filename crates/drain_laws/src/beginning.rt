//! What the beginning of a connection makes of the measure, and how great that is where none stands.

ghost use Rattle.drain_laws.specs.Beginning.{BeginsFall, IdleWithin};

/// A connection that begins lowers the measure, with the message by which its initiator opens it.
pub fn begins_fall()
    ensures law { BeginsFall }
{}

/// Where no connection stands the measure is at most 29 for each entry that the outboxes come to have, and 77.
pub fn idle_within()
    ensures law { IdleWithin }
{}
