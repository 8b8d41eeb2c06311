//! The calls of a device that fail.

use cases_words::number;
use gw_fakes::Calls;
use std::alloc::{AllocError, Global};

/// The one call that fails.
pub fn failing(alloc: Global, word: &str) -> Result<Calls, AllocError> {
    Ok(Calls::from(Vec::from_slice(alloc, &[number(word)])?))
}
