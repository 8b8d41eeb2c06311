//! What is told of a line.

/// A line that was found.
#[derive(Clone, Copy)]
pub enum Found {
    /// A line of at most `LONGEST` bytes, which the reader lends.
    Whole,
    /// A line of more bytes, of which nothing is kept.
    TooLong,
}
