//! What the laws over several runs are made of.

ghost use Rattle.run_laws.specs.Linked.{CarriedAreLinked};
ghost use Rattle.run_laws.specs.Pieces.{BoxesTell, ConfigurationsFit, ImagesWithin};

/// The records of a box are those of one list alone.
pub fn boxes_tell()
    ensures law { BoxesTell }
{}

/// Each configuration that a text spells has a session of 16 bytes, and numbers that fit the machine.
pub fn configurations_fit()
    ensures law { ConfigurationsFit }
{}

/// Whatever a stop leaves of the inbox of a life awaits a number that the next life may take.
pub fn images_within()
    ensures law { ImagesWithin }
{}

/// Connections whose links are linked by what both dialers tell are linked by what their turns say.
pub fn carried_are_linked()
    ensures law { CarriedAreLinked }
{}
