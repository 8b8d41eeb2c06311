//! Why a schema is no later version of another.

use sbe_value::Path;

/// Why a schema is no later version of another.
#[derive(Drop)]
pub enum SkewFault {
    /// They differ; this is where they differ first.
    Differs {
        /// The place of the first difference, as `message[0].fields[1]`; empty for the whole.
        path: Path,
    },
    /// There was not enough memory to tell.
    Memory,
}
