//! Laws over the plans of a business, which are over what its own end applied.

ghost use Rattle.life_laws.specs.Answered.{AnsweringGoesOn, AnswersAreKept, AnswersKeepOutbox, ContinuesCompletes, ContinuesGoesOn};

/// What continues a plan over some applied messages, and then the plan over more of them, continues the latter.
pub fn continues_goes_on()
    ensures law { ContinuesGoesOn }
{}

/// What continues a plan over some applied messages, and then completes the plan over more of them, completes the latter.
pub fn continues_completes()
    ensures law { ContinuesCompletes }
{}

/// The plan of an end with a business goes on where the plans of the business do.
pub fn answering_goes_on()
    ensures law { AnsweringGoesOn }
{}

/// Where the passes know that a business answered what was applied, the outbox keeps its plans over that, and so does each image of it.
pub fn answers_are_kept()
    ensures law { AnswersAreKept }
{}

/// An outbox that keeps the plans of a business, and is in order, keeps what the session model asks of it.
pub fn answers_keep_outbox()
    ensures law { AnswersKeepOutbox }
{}
