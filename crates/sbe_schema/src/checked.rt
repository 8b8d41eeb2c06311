//! A schema that breaks no rule.

ghost use Rattle.std.specs.Prelude.{IsTrue};
ghost use Rattle.sbe_schema.specs.Checked.{is_checked};

use crate::Schema;

/// A schema that breaks no rule.
#[derive(Drop)]
pub struct Checked {
    /// The schema.
    pub schema: Schema,
    ghost no_fault: { IsTrue (is_checked schema) },
}
