//! Room for the items of blocks, which serves one message after another.

ghost use Rattle.std.specs.Prelude.{◌≡◌, [], IfOk};

use sbe_value::{Block, Blocks, Group, Item, Items, Message};
use std::alloc::{AllocError, Global};

/// How many rooms are kept at most.
const MOST: usize = 1024;

/// Room for the items of blocks, which serves one message after another.
#[derive(Drop)]
pub struct Spare {
    rooms: Vec<Vec<Item>>,
}

impl Spare {
    /// No room yet.
    pub fn new(alloc: Global) -> Spare {
        Spare {
            rooms: Vec::new(alloc),
        }
    }

    /// Room for items, so many if it is new.
    pub fn room(&mut self, alloc: Global, count: usize) -> Result<Vec<Item>, AllocError>
        ensures { IfOk result (λ room. room.items ≡ []) }
    {
        match self.rooms.pop() {
            Some(room) => {
                let mut room = room;
                room.clear();
                Ok(room)
            }
            None => Vec::with_capacity(alloc, count),
        }
    }

    // Keeps the room of some items.
    fn keep_items(&mut self, items: Items) {
        let mut room: Vec<Item> = Vec::from(items);
        room.clear();
        if self.rooms.len() < MOST {
            let _ = self.rooms.push(room);
        }
    }

    // Keeps the rooms of the entries of a group.
    fn keep_entries(&mut self, entries: Blocks) {
        let mut left: Vec<Block> = Vec::from(entries);
        while let Some(entry) = left.pop() {
            let Block {
                items,
                groups: _,
                vars: _,
            } = entry;
            self.keep_items(items);
        }
    }

    /// Keeps the rooms of a message that is done with: those of its root block, and of the entries of the groups there.
    pub fn keep(&mut self, message: Message) {
        let Message { template: _, root } = message;
        let Block {
            items,
            groups,
            vars: _,
        } = root;
        self.keep_items(items);
        let mut left: Vec<Group> = Vec::from(groups);
        while let Some(group) = left.pop() {
            if let Group::Entries(entries) = group {
                self.keep_entries(entries);
            }
        }
    }
}
