//! How the values of messages are shown.

/// How the values in the lines of messages are shown.
#[derive(Clone, Copy)]
pub enum Shown {
    /// As numbers: the strict form.
    Numbers,
    /// By the names that their types have, and bytes of data as text in quotes.
    Names,
}
