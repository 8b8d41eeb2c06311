//! Files that are written, and standard output.

ghost use Rattle.std.specs.Prelude.{◌≡◌, ◌<◌, ◌≤◌, length, IfOk};
ghost use Rattle.std.specs.Io.KnownBytes.{Keeps, WriteAppends};
ghost use Rattle.gw_real.specs.declared.sink.Target.TheVariants.{Unopened, Unused};
ghost use Rattle.gw_real.specs.Told.{told_into};

use crate::named::{Named, Reason, STANDARD_OUTPUT, same_file};
use gw_outside::{Failed, Sink};
use std::fs::{Files, OpenFile, OpenOptions};
use std::io::{self, ErrorKind, Write};
use std::mem;

/// Where a sink writes.
#[derive(Drop)]
enum Target<'a, F, P> {
    /// To the file of its path, which is not open yet.
    Unopened,
    /// To a printer, as standard output, which was not used yet.
    Unused(P),
    /// To this file, which was empty at first.
    File(F),
    /// To this printer.
    Printer(P),
    /// Nowhere: every call fails.
    Failing(Reason<'a>),
}

/// A file that is written, or standard output. A file is opened at the first push, also of nothing, and emptied
/// then; one that cannot be made, or is the same as another file of the command, fails at every push.
#[derive(Drop)]
pub struct FileSink<'a, R, F, P> {
    rt: &'a R,
    name: Named<'a>,
    others: &'a [Named<'a>],
    target: Target<'a, F, P>,
    reason: Option<Reason<'a>>,
    faults: u64,
}

/// Writes, and again where a signal came between. Nothing taken of some bytes is a fault.
fn write_some<W: Write>(writer: &mut W, bytes: &[u8]) -> io::Result<usize>
    ensures count { IfOk result (λ n. n ≤ length bytes.now) }
    ensures some { 0 < length bytes.now → IfOk result (λ n. 0 < n) }
    ensures bytes { WriteAppends (W.contents writer.old) (W.contents writer.new) result bytes.now }
{
    if bytes.is_empty() {
        return Ok(0);
    }
    for _ in 0..u64::MAX {
        match writer.write(bytes) {
            Ok(0) if !bytes.is_empty() => return Err(io::Error::from(ErrorKind::WriteZero)),
            Err(error) if error.kind() == ErrorKind::Interrupted => {}
            outcome => return outcome,
        }
    }
    Err(io::Error::from(ErrorKind::Interrupted))
}

impl<'a, R, F, P> FileSink<'a, R, F, P> {
    /// The file of a name, which must be none of the others.
    pub fn new(rt: &'a R, name: Named<'a>, others: &'a [Named<'a>]) -> FileSink<'a, R, F, P>
        ensures target { result.target ≡ Unopened }
        ensures faults { result.faults ≡ 0 }
    {
        FileSink {
            rt,
            name,
            others,
            target: Target::Unopened,
            reason: None,
            faults: 0,
        }
    }

    /// A printer, as standard output, which must be none of the others.
    pub fn printing(rt: &'a R, printer: P, others: &'a [Named<'a>]) -> FileSink<'a, R, F, P>
        ensures target { result.target ≡ Unused printer }
        ensures faults { result.faults ≡ 0 }
    {
        FileSink {
            rt,
            name: STANDARD_OUTPUT,
            others,
            target: Target::Unused(printer),
            reason: None,
            faults: 0,
        }
    }

    /// The file that it writes to.
    pub fn name(&self) -> Named<'a> {
        self.name
    }

    /// Why the last call that failed did, if one has.
    pub fn reason(&self) -> Option<Reason<'a>> {
        self.reason
    }
}

/// Opens a file that is written, sees that it is none of the others, and empties it. `-` names no file.
fn emptied<'a, R: Files>(
    rt: &R,
    name: Named<'a>,
    others: &'a [Named<'a>],
) -> Result<R::File, Reason<'a>> {
    if name.is_standard() {
        return Err(Reason::NotHere);
    }
    let file = OpenOptions::new()
        .write(true)
        .create(true)
        .open(rt, name.path)?;
    let metadata = file.metadata()?;
    if let Some(other) = same_file(rt, name.role, &metadata, others) {
        return Err(Reason::SameFile(other));
    }
    if metadata.is_file() {
        file.set_len(0)?;
    }
    Ok(file)
}

/// Sees that standard output is none of the others.
fn printed_apart<'a, R: Files>(rt: &R, others: &'a [Named<'a>]) -> Result<(), Reason<'a>> {
    let Ok(metadata) = rt.metadata(STANDARD_OUTPUT.path) else {
        return Ok(());
    };
    match same_file(rt, STANDARD_OUTPUT.role, &metadata, others) {
        Some(other) => Err(Reason::SameFile(other)),
        None => Ok(()),
    }
}

impl<'a, R: Files<File = F>, F: Write + OpenFile + Drop, P: Write + Drop> FileSink<'a, R, F, P> {
    /// Opens what is not open yet.
    fn open(&mut self)
        ensures told { Keeps (told_into F.contents P.contents self.old.target) (told_into F.contents P.contents self.new.target) }
        ensures faults { self.new.faults ≡ self.old.faults }
    {
        self.target = match mem::replace(&mut self.target, Target::Unopened) {
            Target::Unopened => match emptied(self.rt, self.name, self.others) {
                Ok(file) => Target::File(file),
                Err(reason) => Target::Failing(reason),
            },
            Target::Unused(printer) => match printed_apart(self.rt, self.others) {
                Ok(()) => Target::Printer(printer),
                Err(reason) => Target::Failing(reason),
            },
            target => target,
        };
    }

    /// Writes to what is open.
    fn write(&mut self, bytes: &[u8]) -> Result<usize, Reason<'a>>
        ensures count { IfOk result (λ n. n ≤ length bytes.now) }
        ensures some { 0 < length bytes.now → IfOk result (λ n. 0 < n) }
        ensures bytes { WriteAppends (told_into F.contents P.contents self.old.target) (told_into F.contents P.contents self.new.target) result bytes.now }
        ensures faults { self.new.faults ≡ self.old.faults }
    {
        match &mut self.target {
            Target::File(file) => Ok(write_some(file, bytes)?),
            Target::Printer(printer) => Ok(write_some(printer, bytes)?),
            Target::Failing(reason) => Err(*reason),
            Target::Unopened | Target::Unused(_) => Err(Reason::NotHere),
        }
    }
}

impl<R: Files<File = F>, F: Write + OpenFile + Drop, P: Write + Drop> Sink
    for FileSink<'_, R, F, P> {
    ghost use Rattle.gw_real.specs.Told.{told_into};

    ghost taken = { λ k. told_into F.contents P.contents k.target };

    ghost faults = { λ k. k.faults };

    fn push(&mut self, bytes: &[u8]) -> Result<usize, Failed> {
        self.open();
        match self.write(bytes) {
            Ok(count) => Ok(count),
            Err(reason) => {
                self.reason = Some(reason);
                self.faults = self.faults.saturating_add(1);
                Err(Failed)
            }
        }
    }
}
