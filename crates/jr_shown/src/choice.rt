//! Which records are shown, and how.

/// What FROM says of the first record that is shown.
#[derive(Clone, Copy, Debug)]
pub enum Begin {
    /// The record of this number, from 1 on.
    Number(u64),
    /// The n-th from the end, where 1 is the last; the first, where there are not so many.
    Last(u64),
    /// The first of this time of day or later, in milliseconds, on the last day in UTC that has a record.
    TimeOfDay(u32),
}

/// How records are shown.
#[derive(Clone, Copy, Debug)]
pub enum Style {
    /// As lines of text.
    Text,
    /// As a JSON object on a line of its own.
    Json,
}

/// Which records are shown, and how.
#[derive(Clone, Copy, Debug)]
pub struct Choice {
    pub begin: Begin,
    /// How many records at most.
    pub most: u64,
    pub style: Style,
}

/// The first record that is shown, once the end of the journal is known where that is needed.
#[derive(Clone, Copy)]
pub enum Start {
    /// The record of this number, from 1 on.
    Number(u64),
    /// The first with this moment or a later one, in milliseconds since 1970.
    Moment(u64),
}
