//! The grammar of messages of Simple Binary Encoding 1.0: which bytes spell a message by the plan of a schema, and
//! the first fault of bytes that spell none. The definitions stand in `specs/`; a function with an empty body is a law.
#![tactic(auto)]

pub use fault::DecodeFault;

mod fault;

ghost use Rattle.std.specs.Prelude.{◌≡◌, ◌↔◌, List, ℕ, Ok};
ghost use Rattle.sbe_layout.specs.declared.plan.Plan.{Plan};
ghost use Rattle.sbe_layout.specs.Legal.{LegalPlan};
ghost use Rattle.sbe_value.specs.declared.message.Message.{Message};
ghost use Rattle.sbe_grammar.specs.Spelling.{Spells};
ghost use Rattle.sbe_grammar.specs.Reading.{message_in};
ghost use Rattle.sbe_grammar.specs.Fits.{Fits};

/// A message is read of bytes exactly where they spell it.
pub fn read_is_spelled()
    ensures law { (schema : Plan) (bytes : List ℕ) (m : Message) → (message_in schema bytes ≡ Ok m) ↔ Spells schema bytes m }
{}

/// The same bytes spell at most one message.
pub fn one_message()
    ensures law { (schema : Plan) (bytes : List ℕ) (m n : Message) → Spells schema bytes m → Spells schema bytes n → m ≡ n }
{}

/// A message that bytes spell by a legal plan fits that plan.
pub fn read_fits()
    ensures law { (schema : Plan) (bytes : List ℕ) (m : Message) → LegalPlan schema → Spells schema bytes m → Fits schema m }
{}
