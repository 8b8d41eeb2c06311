//! Laws over the frames that a turn takes.

ghost use Rattle.conn_turns.specs.Laws.{FramesJoin, FramesMakeCalls, WorkMakesCalls, FramesDeliverApplied};

/// The bytes that were held are those of the frames that were taken, and those held behind them; and each frame stands at the
/// place that the bytes before it make.
pub fn frames_join()
    ensures law { FramesJoin }
{}

/// What becomes of the machine over the frames that were taken is what their calls make of it.
pub fn frames_make_calls()
    ensures law { FramesMakeCalls }
{}

/// The machine behind a turn that served and sent is what the calls of its work make of it.
pub fn work_makes_calls()
    ensures law { WorkMakesCalls }
{}

/// The messages that a turn's frames deliver are those that they apply: their payloads, in order.
pub fn frames_deliver_applied()
    ensures law { FramesDeliverApplied }
{}
