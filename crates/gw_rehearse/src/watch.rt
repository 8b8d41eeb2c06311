//! Who is told how far a rehearsal is.

/// Who is told how far a rehearsal is, as it runs. What it does with that changes nothing of the run.
pub trait Watch {
    /// So many steps of the script are done, of so many.
    fn at(&mut self, done: u64, of: u64);

    /// A round is done.
    fn round(&mut self);

    /// Nothing more is told.
    fn over(&mut self);
}
