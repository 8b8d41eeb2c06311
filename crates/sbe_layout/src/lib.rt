//! The layout of the messages of a checked schema of Simple Binary Encoding
//! 1.0: offsets, sizes, since marks and block lengths.
#![tactic(auto)]

mod blocks;
mod items;
mod lay;
mod listings;
mod messages;
mod parts;
mod plan;
mod resolve;

pub use blocks::{BlockPlan, GroupPlan, GroupPlans};
pub use items::{DataPlan, DataPlans, ItemKind, ItemPlan, ItemPlans, Mark, Marks};
pub use lay::{lay_out, lay_out_message};
pub use listings::{Listing, Listings};
pub use messages::MessagePlans;
pub use parts::{Part, Parts};
pub use plan::{MessagePlan, Plan};
pub use resolve::{Resolved, Types};
