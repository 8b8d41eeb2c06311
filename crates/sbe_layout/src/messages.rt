//! The messages of a plan, with the place of each template among them.

ghost use Rattle.std.specs.Prelude.{◌≡◌, IfOk};
ghost use Rattle.std.specs.Option.{option_copied};
ghost use Rattle.sbe_layout.specs.Plans.{message_of};
ghost use Rattle.sbe_layout.specs.Templates.{HasPlaces};

use crate::plan::MessagePlan;
use std::alloc::{AllocError, Global};
use std::collections::BTreeMap;
use std::marker::Model;

/// The messages of a schema, in schema order. Contracts see them as a list.
#[derive(Drop)]
pub struct MessagePlans {
    list: Vec<MessagePlan>,
    places: BTreeMap<u16, usize>,
}

impl Model for MessagePlans {
    ghost use Rattle.std.specs.Prelude.{List};
    ghost use Rattle.sbe_layout.specs.declared.plan.MessagePlan.{MessagePlan};
    ghost use Rattle.std.specs.Coded.{coded_list};
    ghost use Rattle.sbe_layout.specs.contracts.plan.MessagePlan as row;
    ghost use Rattle.sbe_layout.specs.Templates.{HasPlaces};

    ghost Value = { List MessagePlan };

    ghost coded = { coded_list row.the_row.coded };

    ghost view = { λ l. l.list.items };

    ghost invariant = { λ l. HasPlaces l.places 0 l.list.items };
}

impl MessagePlans {
    /// These messages.
    pub fn new(alloc: Global, list: Vec<MessagePlan>) -> Result<MessagePlans, AllocError>
        ensures { IfOk result (λ plans. plans ≡ list.items) }
    {
        let places = places_of(alloc, list.as_slice())?;
        Ok(MessagePlans { list, places })
    }

    /// The messages, as a slice.
    pub fn as_slice(&self) -> &[MessagePlan]
        ensures { result.now ≡ self.now }
    {
        self.list.as_slice()
    }

    /// The first message of a template, if there is one.
    pub fn find(&self, template: u16) -> Option<&MessagePlan>
        ensures { option_copied result ≡ message_of template self.now }
    {
        match self.places.get(&template) {
            None => None,
            Some(at) => self.list.as_slice().get(*at),
        }
    }
}

// From the last message to the first, so that the first of a template stays.
fn places_of(alloc: Global, messages: &[MessagePlan]) -> Result<BTreeMap<u16, usize>, AllocError>
    ensures { IfOk result (λ map. HasPlaces map 0 messages.now) }
{
    let mut map = BTreeMap::new(alloc);
    let mut i = messages.len();
    while i > 0 {
        i -= 1;
        map.insert(messages[i].template, i)?;
    }
    Ok(map)
}
