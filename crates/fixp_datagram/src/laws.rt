//! The laws of flows in datagrams, over every list of events of a network that loses, repeats and reorders them.
//! Each function has an empty body; its clause is a statement about the definitions that the calls of this crate meet.

ghost use Rattle.fixp_datagram.specs.Laws.{RecoverableIsPrefix, IdempotentHasEachOnce, NextGrows, RecoverableGrows, IdempotentGrows, ReceiverFollows, CallsAreDeliveries, AsksKnown, OneDatagram, DeliveriesAreEvents, CutIsWritten, CutIsDelivered};

/// A recoverable inbox is a prefix of what was accepted.
pub fn recoverable_is_prefix()
    ensures law { RecoverableIsPrefix }
{}

/// An idempotent inbox has each number below its next one once, as applied or missing, and the missing ones are the jumps.
pub fn idempotent_has_each_once()
    ensures law { IdempotentHasEachOnce }
{}

/// A datagram that has the message which the inbox waits for grows it by all its messages from there on.
pub fn next_grows()
    ensures law { NextGrows }
{}

/// A recoverable inbox grows as the session model has it.
pub fn recoverable_grows()
    ensures law { RecoverableGrows }
{}

/// An idempotent inbox grows as the session model has it.
pub fn idempotent_grows()
    ensures law { IdempotentGrows }
{}

/// The receiver waits for the number that the inbox waits for.
pub fn receiver_follows()
    ensures law { ReceiverFollows }
{}

/// The receiver's calls are the deliveries.
pub fn calls_are_deliveries()
    ensures law { CallsAreDeliveries }
{}

/// What is asked for is what is known to have been sent, from the next number on, at most the first 256.
pub fn asks_known()
    ensures law { AsksKnown }
{}

/// At most one datagram is spelled by given bytes.
pub fn one_datagram()
    ensures law { OneDatagram }
{}

/// Deliveries one behind another are events of the world.
pub fn deliveries_are_events()
    ensures law { DeliveriesAreEvents }
{}

/// Entries that are cut into datagrams are what a world writes.
pub fn cut_is_written()
    ensures law { CutIsWritten }
{}

/// Of these, some that are delivered one behind another have the receiver report what its calls answer.
pub fn cut_is_delivered()
    ensures law { CutIsDelivered }
{}
