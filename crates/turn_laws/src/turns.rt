//! The calls of one turn.

ghost use Rattle.turn_laws.specs.Standing.{TurnMayStand, CutMayStand, TurnAdds, CutAdds};

/// Each call of a whole turn may come where it came, and the connection stands again where the turn left the line.
pub fn turn_may_stand()
    ensures law { TurnMayStand }
{}

/// Each call of a turn that was cut short may come where it came, up to what was refused.
pub fn cut_may_stand()
    ensures law { CutMayStand }
{}

/// What a connection adds to the inbox over a whole turn is what the frames of the turn add.
pub fn turn_adds()
    ensures law { TurnAdds }
{}

/// What a connection adds to the inbox over a turn that was cut short is what its frames add, and what stood before the refusal.
pub fn cut_adds()
    ensures law { CutAdds }
{}
