//! The files of a command line, and why one of them cannot be used.

ghost use Rattle.std.specs.Prelude.{◌≡◌, ◌↔◌, IsTrue, codes};
ghost use Rattle.gw_real.specs.Names.{read_path};

use std::fs::{Files, Metadata};
use std::io;
use std::os::unix::fs::{FileTypeExt, MetadataExt};

/// A file of the command line.
#[derive(Clone, Copy)]
pub struct Named<'a> {
    /// What it is to the command, as `INPUT`.
    pub role: &'static str,
    /// Its path, as it stands on the command line.
    pub path: &'a str,
}

/// The path that stands for standard input where a file is read, and for standard output where one is written.
const STANDARD: &str = "-";

/// The path of standard input.
const STANDARD_INPUT: &str = "/dev/stdin";

impl<'a> Named<'a> {
    /// Whether it is `-`. A file of that name is `./-`.
    pub fn is_standard(self) -> bool
        ensures { IsTrue result ↔ (self.entry.path.now ≡ codes "-") }
    {
        self.path == STANDARD
    }

    /// It, as a file that is read and that an output must not be: `-` is standard input.
    pub fn read_from(self) -> Named<'a>
        ensures role { result.role.now ≡ self.entry.role.now }
        ensures path { result.path.now ≡ read_path self.entry.path.now }
    {
        let path = if self.is_standard() {
            STANDARD_INPUT
        } else {
            self.path
        };
        Named { path, ..self }
    }

    /// The path of a file that is read: `-` is standard input.
    pub fn read_path(self) -> &'a str
        ensures { result.now ≡ read_path self.entry.path.now }
    {
        self.read_from().path
    }
}

/// Standard output, as one of the files that an output must not be.
pub const STANDARD_OUTPUT: Named<'static> = Named {
    role: "standard output",
    path: "/dev/stdout",
};

/// Why a device fails.
#[derive(Clone, Copy)]
pub enum Reason<'a> {
    /// What the system said.
    System(io::Error),
    /// It is the same file as this other one of the command, also through a link.
    SameFile(Named<'a>),
    /// It is to be standard output, which this file of the command cannot be.
    NotHere,
}

impl From<io::Error> for Reason<'_> {
    fn from(error: io::Error) -> Self {
        Reason::System(error)
    }
}

/// Whether a path leads to the file of this device and inode.
fn leads_to<R: Files>(rt: &R, path: &str, file: &Metadata) -> bool {
    match rt.metadata(path) {
        Ok(other) => other.dev() == file.dev() && other.ino() == file.ino(),
        Err(_) => false,
    }
}

/// The other file of the command that a file is, if it is one. A device such as `/dev/null` may stand for several files
/// of a command, and a pipe may be standard output as well.
pub fn same_file<'a, R: Files>(
    rt: &R,
    role: &str,
    file: &Metadata,
    others: &'a [Named<'a>],
) -> Option<Named<'a>> {
    if file.file_type().is_char_device() {
        return None;
    }
    for other in others {
        let is_looked_at = file.is_file() || other.role != STANDARD_OUTPUT.role;
        if other.role != role && is_looked_at && leads_to(rt, other.path, file) {
            return Some(*other);
        }
    }
    None
}
