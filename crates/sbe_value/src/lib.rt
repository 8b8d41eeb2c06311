//! The values that messages of Simple Binary Encoding 1.0 carry, and the names
//! of the byte lists that stand in the fields of public types of the repository.
//! It stands on the list type alone.
#![tactic(auto)]

mod datum;
mod item;
mod message;
mod path;
mod tree;

pub use datum::{Datum, Datums};
pub use item::{Item, Items};
use lists::List;
pub use message::Message;
pub use path::{Path, Step, text_of_path};
pub use tree::{Block, Blocks, Group, Groups};

/// A list of bytes, as a name, a text or a payload.
pub type Bytes = List<u8>;

/// A list of payloads, each a list of bytes.
pub type Payloads = List<Bytes>;

/// The bytes of a text that is written line by line.
pub type Lines = List<u8>;
