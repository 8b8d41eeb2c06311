//! What the facts of a connection keep to, whatever comes.

ghost use Rattle.fixp_machine.specs.Sound.{SoundGoesOn, HoldingGoesOn};

/// Sound facts stay sound at every reply; an act moves the inbox by exactly what it records; and only an initiator opens.
pub fn sound_goes_on()
    ensures law { SoundGoesOn }
{}

/// On a recoverable flow each reply moves the inbox by one message at most, leaves what is held fitting, and has a message held
/// only where it may be.
pub fn holding_goes_on()
    ensures law { HoldingGoesOn }
{}
