//! A file as a sink that appends. It is opened at the first call.

ghost use Rattle.std.specs.Prelude.{◌≡◌, ◌<◌, ◌≤◌, ◌^◌, false, length, None, IfOk, IfSome};
ghost use Rattle.gw_outside.specs.Faults.{HasRisen};

use crate::regular::{cut, is_kept, length_of, opened, read_some, write_some};
use gw_appended::Appended;
use gw_outside::{Failed, Sink};
use gw_real::{FileSink, Named, Reason};
use std::fs::{File, Files};
use std::io::Write;

/// Where a sink writes.
#[derive(Drop)]
enum Target<'a, R, P> {
    /// To the file of its name, which is not open yet.
    Unopened,
    /// To this regular file, at its end.
    Kept(File),
    /// To a pipe, a terminal or another device, or to a printer: what it takes is gone.
    Passing(FileSink<'a, R, File, P>),
    /// Nowhere: every call fails.
    Failing(Reason<'a>),
}

/// A file that is kept and appended to, or, where its name leads to no regular file, one that keeps nothing; or standard output, which keeps
/// nothing either. One that cannot be made, or is the same as another file of the command, fails at every call.
#[derive(Drop)]
pub struct AppendedFile<'a, R, P> {
    rt: &'a R,
    name: Named<'a>,
    others: &'a [Named<'a>],
    target: Target<'a, R, P>,
    reason: Option<Reason<'a>>,
    faults: u64,
}

impl<'a, R, P> AppendedFile<'a, R, P> {
    /// The file of a name, which must be none of the others.
    pub fn new(rt: &'a R, name: Named<'a>, others: &'a [Named<'a>]) -> AppendedFile<'a, R, P>
        ensures fresh { result.faults ≡ 0 }
    {
        AppendedFile {
            rt,
            name,
            others,
            target: Target::Unopened,
            reason: None,
            faults: 0,
        }
    }

    /// A printer, as standard output, which must be none of the others.
    pub fn printing(rt: &'a R, printer: P, others: &'a [Named<'a>]) -> AppendedFile<'a, R, P>
        ensures fresh { result.faults ≡ 0 }
    {
        let sink = FileSink::printing(rt, printer, others);
        AppendedFile {
            rt,
            name: sink.name(),
            others,
            target: Target::Passing(sink),
            reason: None,
            faults: 0,
        }
    }

    /// The file that it writes to.
    pub fn name(&self) -> Named<'a> {
        self.name
    }

    /// Why the last call that failed did, if one has.
    pub fn reason(&self) -> Option<Reason<'a>> {
        self.reason
    }

    /// Keeps why a call failed, and counts it.
    fn failed(&mut self, reason: Reason<'a>) -> Failed
        ensures risen { HasRisen self.old.faults self.new.faults }
        ensures grown { self.old.faults ≤ self.new.faults }
    {
        self.reason = Some(reason);
        self.faults = self.faults.saturating_add(1);
        Failed
    }
}

impl<'a, R: Files<File = File>, P: Write + Drop> AppendedFile<'a, R, P> {
    /// Opens what is not open yet.
    fn open(&mut self)
        ensures faults { self.new.faults ≡ self.old.faults }
    {
        let Target::Unopened = &self.target else {
            return;
        };
        self.target = if !is_kept(self.rt, self.name.path) {
            Target::Passing(FileSink::new(self.rt, self.name, self.others))
        } else {
            match opened(self.rt, self.name, self.others) {
                Ok(file) => Target::Kept(file),
                Err(reason) => Target::Failing(reason),
            }
        };
    }

    /// Writes to what is open.
    fn write(&mut self, bytes: &[u8]) -> Result<usize, Reason<'a>>
        ensures count { IfOk result (λ n. n ≤ length bytes.now) }
        ensures some { 0 < length bytes.now → IfOk result (λ n. 0 < n) }
        ensures faults { self.new.faults ≡ self.old.faults }
    {
        match &mut self.target {
            Target::Kept(file) => write_some(file, bytes),
            Target::Passing(sink) => match sink.push(bytes) {
                Ok(count) => Ok(count),
                Err(_) => Err(sink.reason().unwrap_or(Reason::NotHere)),
            },
            Target::Failing(reason) => Err(*reason),
            Target::Unopened => Err(Reason::NotHere),
        }
    }

    /// The length of what is open, where it is kept.
    fn size(&self) -> Result<Option<u64>, Reason<'a>>
        ensures within { IfOk result (λ size. IfSome size (λ n. n ≤ 2 ^ 40)) }
    {
        match &self.target {
            Target::Kept(file) => match length_of(file) {
                Ok(size) => Ok(Some(size)),
                Err(reason) => Err(reason),
            },
            Target::Passing(_) => Ok(None),
            Target::Failing(reason) => Err(*reason),
            Target::Unopened => Err(Reason::NotHere),
        }
    }

    /// Reads from what is open.
    fn read(&self, at: u64, into: &mut [u8]) -> Result<usize, Reason<'a>>
        ensures count { IfOk result (λ n. n ≤ length into.new) }
    {
        match &self.target {
            Target::Kept(file) => match read_some(file, at, into) {
                Ok(count) => Ok(count),
                Err(reason) => Err(reason),
            },
            Target::Passing(_) => Ok(0),
            Target::Failing(reason) => Err(*reason),
            Target::Unopened => Err(Reason::NotHere),
        }
    }

    /// Cuts what is open.
    fn shorten(&self, size: u64) -> Result<(), Reason<'a>> {
        match &self.target {
            Target::Kept(file) => match cut(file, size) {
                Ok(()) => Ok(()),
                Err(reason) => Err(reason),
            },
            Target::Passing(_) => Ok(()),
            Target::Failing(reason) => Err(*reason),
            Target::Unopened => Err(Reason::NotHere),
        }
    }
}

impl<R: Files<File = File>, P: Write + Drop> Sink for AppendedFile<'_, R, P> {
    ghost taken = { λ k. None };

    ghost faults = { λ k. k.faults };

    fn push(&mut self, bytes: &[u8]) -> Result<usize, Failed> {
        self.open();
        match self.write(bytes) {
            Ok(count) => Ok(count),
            Err(reason) => Err(self.failed(reason)),
        }
    }
}

impl<R: Files<File = File>, P: Write + Drop> Appended for AppendedFile<'_, R, P> {
    ghost keeps = { false };

    fn length(&mut self) -> Result<Option<u64>, Failed> {
        self.open();
        match self.size() {
            Ok(size) => Ok(size),
            Err(reason) => Err(self.failed(reason)),
        }
    }

    fn read_at(&mut self, at: u64, into: &mut [u8]) -> Result<usize, Failed> {
        self.open();
        match self.read(at, into) {
            Ok(count) => Ok(count),
            Err(reason) => Err(self.failed(reason)),
        }
    }

    fn cut(&mut self, size: u64) -> Result<(), Failed> {
        self.open();
        match self.shorten(size) {
            Ok(()) => Ok(()),
            Err(reason) => Err(self.failed(reason)),
        }
    }
}
