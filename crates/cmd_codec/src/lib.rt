//! The commands that need a schema alone: `check` gives its layout, `decode` recorded frames as lines of text, `encode` lines of text as
//! frames. Relies on the crates of schemas, on the reader, the writer and the text of messages, on the framing of a stream, and on
//! `cmd_base` for the devices and CONFIG.
#![tactic(auto)]

mod checking;
mod decoder;
mod decoding;
mod encoding;
mod frame;
mod laws;
mod layout;
mod print;
mod shown;
mod stream;
mod whole;
mod writing;

pub use checking::check;
pub use decoding::decode;
pub use encoding::encode;
pub use laws::strict_is_spelled;
pub use shown::Shown;
