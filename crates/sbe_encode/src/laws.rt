//! Laws of the definitions: a function with an empty body is a law.

ghost use Rattle.sbe_value.specs.declared.message.Message.{Message};
ghost use Rattle.sbe_layout.specs.declared.plan.Plan.{Plan};
ghost use Rattle.sbe_encode.specs.Laws.{FaultlessWhereWritable};
ghost use Rattle.sbe_encode.specs.ReadsBack.{CanonicalReadsBack};

/// A message has no fault exactly where it may be written and its bytes are at most 16,384.
pub fn faultless_where_writable()
    ensures law { (schema : Plan) (m : Message) → FaultlessWhereWritable schema m }
{}

/// The canonical encoding of a message spells the message, at a legal plan, where no text has a NUL, and no optional
/// number is the one for no value.
pub fn canonical_reads_back()
    ensures law { (schema : Plan) (m : Message) → CanonicalReadsBack schema m }
{}
