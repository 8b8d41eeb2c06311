//! A whole message.

ghost use Rattle.std.specs.Prelude.{◌≡◌, ◌↔◌, IsTrue, IfOk};
ghost use Rattle.sbe_value.specs.Equal.{message_eq};

use crate::Block;
use lists::Element;
use std::alloc::{AllocError, Global};

/// A message: the id of its template, and its root block (SBE 1.0, message structure).
#[derive(Drop)]
pub struct Message {
    /// The template's id.
    pub template: u16,
    /// The root block.
    pub root: Block,
}

impl PartialEq for Message {
    ghost use Rattle.std.specs.Prelude.{◌≡◌, ◌↔◌, IsTrue};
    ghost use Rattle.sbe_value.specs.Equal.{message_eq};
    ghost use Rattle.lists.specs.Exact.{partial_equivalence};
    ghost use Rattle.sbe_value.specs.TreeLaws.{message_exact};

    ghost eq = { message_eq };

    ghost laws = { partial_equivalence message_eq message_exact };

    fn eq(&self, other: &Message) -> bool
        ensures exact { IsTrue result ↔ (self.now ≡ other.now) }
        ensures computed { result ≡ message_eq self.now other.now }
    {
        self.template == other.template && self.root == other.root
    }
}

impl Element for Message {
    ghost use Rattle.sbe_value.specs.TreeLaws.{message_exact};

    fn copy(&self, alloc: Global) -> Result<Message, AllocError> {
        let root = self.root.copy(alloc)?;
        Ok(Message {
            template: self.template,
            root,
        })
    }

    ghost exact = { message_exact };
}
