//! The law of what an image has of a journal, on a function without a body.

ghost use Rattle.jr_stream.specs.Laws.{HasOneReading};

use jr_record::one_record;

/// The records of an image, and where they end, are a function of its bytes.
pub fn one_reading()
    ensures { HasOneReading }
{
    one_record();
}
