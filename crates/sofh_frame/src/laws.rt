//! Laws of the split of a list of bytes into frames, which hold of the definitions alone.

ghost use Rattle.sofh_frame.specs.Splits.{SplitsAreOne, BytesAreSplit, SplitBegins};

/// Any two splits of the same bytes into frames and what follows them are equal.
pub fn splits_are_one()
    ensures { SplitsAreOne }
{}

/// Every list of bytes has a split.
pub fn bytes_are_split()
    ensures { BytesAreSplit }
{}

/// The split of some bytes begins with the frame that `next` finds, and goes on with the split of what is behind it.
pub fn split_begins()
    ensures { SplitBegins }
{}
