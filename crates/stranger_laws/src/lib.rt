//! Laws of strangers: connections over which nothing came that opens the session. Over any list of calls of the session machine, and over turns, nothing is
//! accepted on them and no entry is written; and where nothing came that gives the keys, no record is added. All but the two functions of `keys` have
//! empty bodies; their clauses are statements about the definitions that the machine's code meets.
#![tactic(auto)]

mod keys;
mod replied;
mod samples;
mod strangers;

pub use keys::{gives_keys, opens};
pub use replied::{keyless_records_nothing, outside_stays};
pub use samples::strangers_sample;
pub use strangers::{
    frame_is_strange, keyless_is_strange, keyless_turns, no_frame_is_strange, none_came,
    strange_turns, stranger_is_deaf, stranger_leaves,
};
