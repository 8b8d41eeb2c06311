//! `-` on a command line: where it may stand for standard input, and where for standard output.

ghost use Rattle.std.specs.Prelude.{◌↔◌, IsTrue};
ghost use Rattle.session_files.specs.Seen.{file_seen};
ghost use Rattle.session_files.specs.Words.{AreBothStandard};

use gw_real::{FileSink, Named};
use std::fs::File;
use std::io::{self, Printer};

/// What is wrong where CONFIG and INPUT would both be standard input.
pub const TWO_INPUTS: &str =
    "CONFIG and INPUT are both -, and standard input can stand for one of them";

/// Whether two files would both be standard input, or both standard output.
pub fn are_both_standard(first: Named<'_>, second: Named<'_>) -> bool
    ensures { IsTrue result ↔ AreBothStandard (file_seen first.entry) (file_seen second.entry) }
{
    first.is_standard() && second.is_standard()
}

/// The device for an output that may be standard output, by `-`.
pub fn out_of<'a, R: Print>(
    rt: &'a R,
    out: Named<'a>,
    others: &'a [Named<'a>],
) -> FileSink<'a, R, File, Printer<'a, R>> {
    if out.is_standard() {
        return FileSink::printing(rt, io::writer(rt), others);
    }
    FileSink::new(rt, out, others)
}
