//! Strangers in a served life: a connection whose link gave no frame with the keys adds no record, tries none, and nothing is delivered of it. The function has an
//! empty body; its clause is a statement about the definitions in which `serve` ensures what it did.
#![tactic(auto)]

mod lives;

pub use lives::strangers_change_nothing;
