//! The definitions, tried on a connection call by call.

ghost use Rattle.connection_laws.specs.Samples.{CourseSample};

/// An initiator sends a recoverable flow and hears an idempotent one, over a jump and a range that is sent again.
pub fn course_sample()
    ensures law { CourseSample }
{}
