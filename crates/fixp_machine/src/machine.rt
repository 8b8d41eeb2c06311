//! What a session machine keeps to, whatever calls come.

ghost use Rattle.fixp_machine.specs.Machine.{CallsKeepSound, CallsKeepLine, WindowGoesOn, LineGoesOn};

/// A machine with sound facts has sound facts after each call, and so after any list of calls.
pub fn calls_keep_sound()
    ensures law { CallsKeepSound }
{}

/// A reply leaves what is held past a gap within reach, fitting, and not past the greatest number.
pub fn window_goes_on()
    ensures law { WindowGoesOn }
{}

/// A reply with which a connection goes on leaves what is asked for and held below the live number, and the number that the inbox
/// awaits held only while messages come again.
pub fn line_goes_on()
    ensures law { LineGoesOn }
{}

/// So does each call.
pub fn calls_keep_line()
    ensures law { CallsKeepLine }
{}
