//! How large a journal with moments may grow.

ghost use Rattle.std.specs.Prelude.{◌≤◌, ◌^◌};

/// How large a journal may grow: at most `entries` entries or applied numbers, at most 2^26, and `bytes` bytes, at most
/// 2^33. Control records are exempt from the bytes.
#[derive(Clone, Copy)]
pub struct Limits {
    pub entries: u64,
    pub bytes: u64,
    ghost few: { entries ≤ 2 ^ 26 },
    ghost small: { bytes ≤ 2 ^ 33 },
}
