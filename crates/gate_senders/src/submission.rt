//! What came of several messages of one sender.
use jr_kept::SubmitFault;

/// What came of messages that one sender submitted in one turn.
#[derive(Clone, Copy, Debug)]
pub struct Submission {
    /// How many entries there are then: the number of the last one.
    pub number: u64,
    /// How many of the messages were added, the first ones.
    pub count: u64,
    /// Why no more of them were, or None where all were.
    pub refused: Option<SubmitFault>,
}
