//! Worked rows that the definitions compute, so that their words are not empty.
//! Each function has an empty body; its clause is a row written out in `specs/Samples.antt`.

ghost use Rattle.fixp_datagram.specs.Samples.{RecoverableRow, IdempotentRow, RestartedRow, EdgesRow, PackedRow};

/// Six messages in three datagrams on a recoverable flow, the second of which is overtaken by the third.
pub fn recoverable_sample()
    ensures row { RecoverableRow }
{}

/// The same on an idempotent flow.
pub fn idempotent_sample()
    ensures row { IdempotentRow }
{}

/// The same in a world whose receiver is made again in between, on both flows.
pub fn restarted_sample()
    ensures row { RestartedRow }
{}

/// The least and the greatest numbers, and how many are asked for at once.
pub fn edges_sample()
    ensures row { EdgesRow }
{}

/// The bytes of a datagram with one message.
pub fn packed_sample()
    ensures row { PackedRow }
{}
