//! Flows and roles by the words of a line of cases.

use fixp_end::{Flow, Role};

/// A flow by its name.
pub fn flow_of(word: &str) -> Flow {
    match word {
        "recoverable" => Flow::Recoverable,
        "idempotent" => Flow::Idempotent,
        "unsequenced" => Flow::Unsequenced,
        _ => Flow::None,
    }
}

/// A role by its name.
pub fn role_of(side: &str) -> Role {
    match side {
        "initiator" => Role::Initiator,
        _ => Role::Acceptor,
    }
}
