//! Laws of identifiers in a row, which hold of the definitions alone.

ghost use Rattle.routes.specs.Identifiers.{FirstIsOne, StandsOnce};

/// Where no identifier stands twice, each stands at one place.
pub fn stands_once()
    ensures law { StandsOnce }
{}

/// At most one place is the first that is repeated.
pub fn first_is_one()
    ensures law { FirstIsOne }
{}
