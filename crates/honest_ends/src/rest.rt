//! At rest an inbox has everything.

ghost use Rattle.honest_ends.specs.RestLaws.{QuietHasAll, OverHasAll, RestHasAll, StaysEnded, AllIsEqual};
ghost use Rattle.honest_ends.specs.RestSamples.{RestSample};

/// Two ends that are quiet have all of each other's entries on a flow with numbers: each inbox awaits one past the last.
pub fn quiet_has_all()
    ensures law { QuietHasAll }
{}

/// Two ends that have exchanged both finishes have all of each other's entries, where a finish recorded before the beginning came behind all of its flow.
pub fn over_has_all()
    ensures law { OverHasAll }
{}

/// Two ends at rest have all of each other's entries.
pub fn rest_has_all()
    ensures law { RestHasAll }
{}

/// A finish that is recorded comes behind all of its flow, whatever steps came: so the laws hold of the ends' next lives too.
pub fn stays_ended()
    ensures law { StaysEnded }
{}

/// A recoverable inbox that awaits one past a whole journal has applied its payloads, all of them and no other.
pub fn all_is_equal()
    ensures law { AllIsEqual }
{}

/// The two ends of a whole session meet the premise at its beginning, are quiet on the way and have exchanged both finishes at its end.
pub fn rest_sample()
    ensures law { RestSample }
{}
