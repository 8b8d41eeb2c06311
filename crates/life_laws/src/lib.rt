//! What a served life keeps: it is a life of the laws over connections, its connections are lists of turns and its inbox holds what
//! they add; and the plans of its senders make the outbox that comes out of the gate one that keeps these plans, in the words of the
//! session model. The plans of a business are over the messages that its own end applied: over what it answered they are plans of
//! senders, and so an outbox keeps them too. Each function has an empty body; its clause is a statement about the definitions that the
//! contracts of `serve`, `serve_connections` and `serve_answering` are written in.
#![tactic(auto)]

mod answering;
mod answers;
mod lives;
mod plans;

pub use answering::{
    answered_passes, answering_is_lived, answering_keeps_outbox, answering_keeps_senders,
};
pub use answers::{
    answering_goes_on, answers_are_kept, answers_keep_outbox, continues_completes,
    continues_goes_on,
};
pub use lives::{
    life_may_turn, life_opens, opened_in_range, opened_opens, served_is_a_loop_life,
    served_is_turned, served_keeps,
};
pub use plans::{plans_are_kept, plans_go_on, plans_keep_outbox};
