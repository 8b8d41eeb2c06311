//! A message that is written as words: its template, and `{ ITEMS GROUPS DATA }`.
//!
//! An item is its number, `null`, `text:HEX` or `raw:HEX`; a group is its entries between `(` and `)`; a datum is `data:HEX`.

use cases_words::{bytes, halves, number};
use sbe_value::{Block, Blocks, Bytes, Datum, Datums, Group, Groups, Item, Items, Message};
use std::alloc::Global;
use std::mem;

/// What is read of a block, and of the entries of the group that is open in it.
#[derive(Drop)]
struct Open {
    items: Vec<Item>,
    groups: Vec<Group>,
    vars: Vec<Datum>,
    entries: Vec<Block>,
}

impl Open {
    fn new(alloc: Global) -> Open {
        Open {
            items: Vec::new(alloc),
            groups: Vec::new(alloc),
            vars: Vec::new(alloc),
            entries: Vec::new(alloc),
        }
    }

    /// The block, where no group is open in it.
    fn block(self) -> Block {
        Block {
            items: Items::from(self.items),
            groups: Groups::from(self.groups),
            vars: Datums::from(self.vars),
        }
    }
}

/// The message that the words spell; none where they spell none, or memory runs out.
pub fn message_of(alloc: Global, words: &str) -> Option<Message> {
    let (template, body) = halves(words);
    let root = root_of(alloc, body)?;
    Some(Message {
        template: u16::try_from(number(template)).unwrap_or(0),
        root,
    })
}

/// The block that the words spell.
fn root_of(alloc: Global, words: &str) -> Option<Block> {
    let mut around = Vec::new(alloc);
    // the root is an entry of what is open around it
    around.push(Open::new(alloc)).ok()?;
    for word in words.split(" ") {
        if !read_word(alloc, &mut around, word) {
            return None;
        }
    }
    around.pop()?.entries.pop()
}

/// Reads a word behind those that opened these blocks, the innermost last; false where memory runs out.
fn read_word(alloc: Global, around: &mut Vec<Open>, word: &str) -> bool {
    match word {
        "{" => around.push(Open::new(alloc)).is_ok(),
        "}" => close_block(around),
        _ => match around.last_mut() {
            Some(open) => add_word(alloc, open, word),
            None => true,
        },
    }
}

/// Ends a block: it is an entry of the group that is open around it.
fn close_block(around: &mut Vec<Open>) -> bool {
    let Some(open) = around.pop() else {
        return true;
    };
    let block = open.block();
    match around.last_mut() {
        Some(open) => open.entries.push(block).is_ok(),
        None => true,
    }
}

/// Reads a word in a block.
fn add_word(alloc: Global, open: &mut Open, word: &str) -> bool {
    match word {
        "(" => true,
        ")" => {
            let entries = mem::replace(&mut open.entries, Vec::new(alloc));
            let group = Group::Entries(Blocks::from(entries));
            open.groups.push(group).is_ok()
        }
        _ => add_value(alloc, open, word),
    }
}

/// Reads an item or a datum.
fn add_value(alloc: Global, open: &mut Open, word: &str) -> bool {
    let (kind, digits) = word.split_once(":").unwrap_or((word, ""));
    let Ok(content) = bytes(alloc, digits) else {
        return false;
    };
    match kind {
        "data" => open.vars.push(Datum::Present(Bytes::from(content))).is_ok(),
        _ => open.items.push(item(kind, Bytes::from(content))).is_ok(),
    }
}

/// The item of a kind with these bytes, where it has any.
fn item(kind: &str, content: Bytes) -> Item {
    match kind {
        "text" => Item::Text(content),
        "raw" => Item::Raw(content),
        "null" => Item::Null,
        _ => Item::Num(kind.parse::<i128>().unwrap_or(0)),
    }
}
