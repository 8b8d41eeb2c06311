//! Two ends between which nothing is under way.

ghost use Rattle.drain_beats.specs.Quiet.{QuietWithin};

/// Where nothing is under way, no more is left to do than there may be where no connection stands.
pub fn quiet_within()
    ensures law { QuietWithin }
{}
