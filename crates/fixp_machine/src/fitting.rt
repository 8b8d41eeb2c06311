//! What the caller of the reply table can do about its acts.

ghost use Rattle.fixp_machine.specs.Fitting.{ActsFit};

/// The act of each reply to sound facts is one that the inbox can take, what is recorded moves exactly with it, and a range that
/// is served is the one that was served, or was sent.
pub fn acts_fit()
    ensures law { ActsFit }
{}
