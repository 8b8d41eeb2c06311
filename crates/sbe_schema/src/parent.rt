//! The block that holds an element.

/// The block that holds an element.
#[derive(Clone, Copy)]
pub struct Parent {
    /// How deep its group lies: 0 for a message's root block, 4 for every depth from 4 on.
    pub depth: u8,
    /// Since when it is there.
    pub since: i128,
    /// The lowest since of a root block's data.
    pub lowest: Option<i128>,
}
