//! The plan of a schema's messages.

ghost use Rattle.std.specs.Prelude.{◌≡◌, ◌↔◌, Some, IfSome, IsNone};
ghost use Rattle.sbe_layout.specs.Plans.{message_of, HasTemplate};

use crate::blocks::BlockPlan;
use crate::listings::Listings;
use crate::messages::MessagePlans;
use sbe_prim::Order;
use sbe_value::Bytes;

/// A message.
#[derive(Drop)]
pub struct MessagePlan {
    /// Its name.
    pub name: Bytes,
    /// The id of its template.
    pub template: u16,
    /// The version that it came with.
    pub since: i128,
    /// Its root block.
    pub root: BlockPlan,
}

/// Where everything in the messages of a schema stands.
#[derive(Drop)]
pub struct Plan {
    /// The schema's id.
    pub id: u16,
    /// The schema's version.
    pub version: u16,
    /// The byte order of all its numbers.
    pub order: Order,
    /// What each of its types lists, in schema order: an item names its enum or set by place.
    pub listings: Listings,
    /// Its messages.
    pub messages: MessagePlans,
}

impl Plan {
    /// The message of a template; none where the schema lacks the template. It takes no walk over the messages.
    pub fn message(&self, template: u16) -> Option<&MessagePlan>
        ensures found { IfSome result (λ m. Some m.now ≡ message_of template self.now.messages) }
        ensures lacking { IsNone result ↔ ¬ HasTemplate template self.now.messages }
    {
        self.messages.find(template)
    }
}
