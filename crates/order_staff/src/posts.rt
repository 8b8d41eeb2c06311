//! Who is to send at an end.

ghost use Rattle.std.specs.Prelude.{◌≡◌};

use order_gate::Terms;

/// Who is to send at an end.
#[derive(Clone, Copy)]
pub enum Posts {
    /// So many senders, at most 16.
    Senders { count: u16 },
    /// Desks, on these terms: 1 to 16.
    Desks { terms: Terms },
}

impl Posts {
    ghost use Rattle.order_staff.specs.Staffs.{posts_of};

    /// How many send.
    pub fn count(self) -> u16
        ensures { result ≡ posts_of self }
    {
        match self {
            Posts::Senders { count } => count,
            Posts::Desks { terms } => terms.desks,
        }
    }
}
