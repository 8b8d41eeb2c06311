//! A full segment of numbers.

ghost use Rattle.std.specs.Prelude.{◌≡◌, length};
ghost use Rattle.jr_places.specs.Listed.{listed};

use crate::run::Run;

/// The numbers of a segment: so few that its memory, 2 or 4 bytes a number, fills that in which a piece of 64 KiB was read, while a
/// journal is opened.
pub const SEGMENT: usize = 4080;

/// Exactly 4,080 numbers.
#[derive(Drop)]
pub struct Segment {
    pub numbers: Run,
    ghost whole: { length (listed numbers) ≡ 4080 },
}
