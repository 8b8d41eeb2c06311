//! Why bytes are no title.

/// A field of a title, in the order of the bytes.
#[derive(Clone, Copy, Debug, PartialEq, Eq)]
pub enum Field {
    /// The byte at 8, 1 or 2.
    Which,
    /// The byte at 9, 1 or 2.
    Role,
    /// The byte at 10, 1 to 4.
    ClientFlow,
    /// The byte at 11, 1 to 4.
    ServerFlow,
    /// The byte at 12, 0 to 2.
    WhoSends,
    /// The byte at 13: 0 without desks, 1 to 16 with desks, 1 with a book.
    Desks,
    /// The two bytes at 14: 0 without desks, else 1 or 2.
    OrderVersion,
    /// The eight bytes at 32: 0 without desks, else 1 to 10^15.
    Reference,
    /// The twelve bytes at 48, each 0.
    Zeros,
}

/// Why bytes do not begin with a title, the first of these that is so.
#[derive(Clone, Copy, Debug, PartialEq, Eq)]
pub enum TitleFault {
    /// They do not begin with the magic of format 3.
    Magic,
    /// They are fewer than 64.
    Short,
    /// The last four of 64 are not the sum of the 60 before them.
    Sum,
    /// This field is the first that is out of its range.
    Range { field: Field },
}
