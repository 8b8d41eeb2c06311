//! A law of the session machine: a fact about the definitions alone, on a function without a body of its own.

ghost use Rattle.fixp_end.specs.Laws.{ClassifiedOnce};

/// The message of a frame is classified in one way, so the reply to it is one.
pub fn one_classification()
    ensures { ClassifiedOnce }
{
    fixp_msgs::one_message();
}
