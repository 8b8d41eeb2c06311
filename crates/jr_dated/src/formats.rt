//! The two formats of a journal, as reading tells them apart.

ghost use Rattle.std.specs.Prelude.{◌≡◌, ◌≤◌, IfOk};
ghost use Rattle.jr_record.specs.Records.{IsRecord};
ghost use Rattle.jr_dated.specs.declared.formats.Format.{Format};
ghost use Rattle.jr_dated.specs.declared.formats.Format.TheVariants as format;

use jr_record::Record;
use std::alloc::{AllocError, Global};

/// How a journal is written.
#[derive(Clone, Copy)]
pub enum Format {
    /// Format 1, whose records carry no moments.
    One,
    /// Format 2, whose records carry their moments.
    Two,
}

impl Format {
    ghost use Rattle.jr_dated.specs.Formats.{BeginsIn, header_of, size_in};
    ghost use Rattle.jr_dated.specs.Dated.{dated_of};

    /// The first bytes of a journal.
    pub const fn header(self) -> [u8; 16]
        ensures value { result ≡ header_of self }
    {
        match self {
            Format::One => *b"FIXPJRN1\0\0\0\0\0\0\0\0",
            Format::Two => *b"FIXPJRN2\0\0\0\0\0\0\0\0",
        }
    }

    /// The record at the front of `bytes` and its moment, 0 in format 1; `None` exactly where they begin with none.
    ///
    /// # Errors
    /// Want of memory for the payload.
    pub fn read_record(
        self,
        alloc: Global,
        bytes: &[u8],
    ) -> Result<Option<(Record, u64)>, AllocError>
        ensures exact { IfOk result (λ found. BeginsIn self bytes.now (dated_of found)) }
    {
        match self {
            Format::One => match jr_record::read_record(alloc, bytes)? {
                Some(r) => Ok(Some((r, 0))),
                None => Ok(None),
            },
            Format::Two => crate::reading::read_record(alloc, bytes),
        }
    }

    /// The number of bytes that a record takes, its gate among them, at most 16,410.
    pub fn record_size(self, r: &Record) -> u64
        requires legal { IsRecord r.now }
        ensures size { result ≡ size_in self r.now }
        ensures most { result ≤ 16410 }
    {
        match self {
            Format::One => jr_record::record_size(r),
            Format::Two => crate::writing::record_size(r),
        }
    }
}
