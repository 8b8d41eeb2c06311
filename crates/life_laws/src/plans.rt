//! Laws over the plans of senders.

ghost use Rattle.life_laws.specs.PlanLaws.{PlansAreKept, PlansGoOn, PlansKeepOutbox};

/// Where the passes know that plans were submitted, the outbox keeps them, and what was refused with a failed call is next of them.
pub fn plans_are_kept()
    ensures law { PlansAreKept }
{}

/// The outbox with what was lost behind it is that of one history, which keeps the plans too.
pub fn plans_go_on()
    ensures law { PlansGoOn }
{}

/// An outbox that keeps the plans of its senders, and is in order, keeps what the session model asks of it.
pub fn plans_keep_outbox()
    ensures law { PlansKeepOutbox }
{}
