//! Why a command failed: one line of text, and a status.

ghost use Rattle.std.specs.Prelude.{◌≡◌, ◌⊎◌};
ghost use Rattle.tell_base.specs.declared.fault.Fault.TheVariants as faults;
ghost use Rattle.tell_base.specs.Statuses.{status_of};

use crate::status::Status;
use path_audit::AuditFault;
use path_lex::DeclFault;
use path_lines::TextFault;
use path_model::OutOfMemory;
use path_script::ScriptFault;
use path_system::OpenFault;
use std::alloc::{AllocError, AllocFailed};
use std::fmt::Display;
use std::io::{ErrorKind, Write};
use std::{fmt, io};

/// Why a command failed.
#[derive(Clone, Copy, Debug, PartialEq, Eq)]
pub enum Fault<'a> {
    /// The declaration is refused.
    Declaration(DeclFault),
    /// The words of the command line can't be read.
    Arguments,
    /// No system can be opened.
    Open(OpenFault),
    /// The journal can't be audited.
    Audit(AuditFault),
    /// The file or stream of this name can't be read.
    Unreadable(&'a str),
    /// The file or stream of this name has more bytes than the limit.
    TooLong(&'a str),
    /// The output can't be written.
    Unwritable,
    /// The attempts, or the text of a journal, are refused.
    Text(TextFault),
    /// The text of a script is refused.
    Script(ScriptFault),
    /// The receipts of a run's processes don't agree with its journal.
    Unsettled,
    /// An allocation failed.
    OutOfMemory,
}

impl<'a> Fault<'a> {
    /// The fault for an error while reading the words of the command line.
    pub fn of_arguments(error: &io::Error) -> Fault<'a>
        ensures { (result ≡ Fault.Arguments) ⊎ (result ≡ Fault.OutOfMemory) }
    {
        match error.kind() {
            ErrorKind::OutOfMemory => Fault::OutOfMemory,
            _ => Fault::Arguments,
        }
    }

    /// The fault for an error while reading the file or stream of this name.
    pub fn of_reading(name: &'a str, error: &io::Error) -> Fault<'a>
        ensures { (result ≡ Fault.Unreadable name.entry) ⊎ (result ≡ Fault.OutOfMemory) }
    {
        match error.kind() {
            ErrorKind::OutOfMemory => Fault::OutOfMemory,
            _ => Fault::Unreadable(name),
        }
    }

    /// The fault for an error while writing the output.
    pub fn of_writing(error: &io::Error) -> Fault<'a>
        ensures { (result ≡ Fault.Unwritable) ⊎ (result ≡ Fault.OutOfMemory) }
    {
        match error.kind() {
            ErrorKind::OutOfMemory => Fault::OutOfMemory,
            _ => Fault::Unwritable,
        }
    }

    /// The status with which the command ends.
    pub fn status(self) -> Status
        ensures { result ≡ status_of self.entry }
    {
        match self {
            Fault::Declaration(DeclFault::OutOfMemory)
            | Fault::Open(OpenFault::OutOfMemory)
            | Fault::Audit(AuditFault::OutOfMemory)
            | Fault::Text(TextFault::OutOfMemory)
            | Fault::Script(ScriptFault::OutOfMemory)
            | Fault::OutOfMemory => Status::NoMemory,
            Fault::Declaration(_) => Status::DeclarationRefused,
            Fault::Arguments | Fault::Open(_) | Fault::Audit(_) => Status::CommandRefused,
            Fault::Unreadable(_) | Fault::TooLong(_) | Fault::Unwritable => Status::StreamFailed,
            Fault::Text(_) | Fault::Script(_) => Status::TextRefused,
            Fault::Unsettled => Status::Unsound,
        }
    }
}

impl From<OutOfMemory> for Fault<'_> {
    ghost from_gives = { λ _ fault. fault ≡ faults.OutOfMemory };

    fn from(_error: OutOfMemory) -> Self {
        Fault::OutOfMemory
    }
}

impl From<AllocError> for Fault<'_> {
    ghost from_gives = { λ _ fault. fault ≡ faults.OutOfMemory };

    fn from(_error: AllocError) -> Self {
        Fault::OutOfMemory
    }
}

impl<T: Drop> From<AllocFailed<T>> for Fault<'_> {
    ghost from_gives = { λ _ fault. fault ≡ faults.OutOfMemory };

    fn from(_error: AllocFailed<T>) -> Self {
        Fault::OutOfMemory
    }
}

impl Display for Fault<'_> {
    fn fmt<W: fmt::Write>(&self, f: &mut fmt::Formatter<W>) -> fmt::Result {
        if self.status() == Status::NoMemory {
            return f.write_str("out of memory");
        }
        match self {
            Fault::Declaration(fault) => write!(f, "declaration: {fault}"),
            Fault::Arguments => f.write_str("arguments: cannot read"),
            Fault::Open(fault) => write!(f, "open: {fault}"),
            Fault::Audit(fault) => write!(f, "open: {fault}"),
            Fault::Unreadable(name) => write!(f, "file: {name}: cannot read"),
            Fault::TooLong(name) => write!(f, "file: {name}: too long"),
            Fault::Unwritable => f.write_str("output: cannot write"),
            Fault::Text(fault) => write!(f, "text: {fault}"),
            Fault::Script(fault) => write!(f, "script: {fault}"),
            Fault::Unsettled => f.write_str("run: not settled"),
            Fault::OutOfMemory => f.write_str("out of memory"),
        }
    }
}

/// Writes the fault on `err` in one line and returns its status, or `StreamFailed` if the line can't be written.
pub fn tell<E: Write>(err: &mut E, fault: Fault<'_>) -> Status
    ensures { (result ≡ status_of fault.entry) ⊎ (result ≡ Status.StreamFailed) }
{
    match writeln!(err, "{fault}") {
        Ok(()) => fault.status(),
        Err(_) => Status::StreamFailed,
    }
}
