//! What each command does: it reads its files, and writes what it says of them. Each ends with a status, or with the fault of a file that
//! can't be read.

use crate::files::read_named;
use crate::request::Request;
use cmd_audit::JournalFile;
use cmd_check::{check_to, compile_to};
use cmd_explain::{
    FileNames, explain_attempts, explain_behind, explain_declaration, explain_journal,
};
use cmd_explore::shares_operations;
use cmd_follow::{Syncing, follow_bytes, follow_stored};
use cmd_picture::{picture_bytes, picture_journal_bytes};
use cmd_run::run_bytes;
use cmd_trace::{trace_behind, trace_bytes};
use path_file::FileDevice;
use std::fs::File;
use std::io::Write;
use std::rt::Files;
use std::sync::Wait;
use std::thread::Threads;
use tell_base::{Fault, Status};
use tell_refusals::{Source, Subject};

/// What to type to a follow.
const FOLLOW_INVITATION: &str = "type attempts, one a line; ? writes the report, and Ctrl-D ends";

impl<'a, R: Files + Input + AllocGlobal, O: Write, E: Write> Request<'_, 'a, R, O, E> {
    /// Says on standard error how to find out whether the paths of a declaration can freeze, if they share operations.
    fn hint_at_explore(&mut self, declaration: &[u8]) {
        if shares_operations(self.alloc(), declaration) == Some(true) {
            let name = self.words.get_str("DECL").unwrap_or("");
            drop(writeln!(
                self.err,
                "several paths name one operation: pathsys explore {name} says whether they can freeze"
            ));
        }
    }

    /// Prints the declaration of a file, and says on a screen what else can be asked of it.
    pub fn check(&mut self) -> Result<Status, Fault<'a>> {
        let declaration = self.file("DECL")?;
        let status = check_to(self.alloc(), &declaration, self.out, self.err);
        if self.terminals.is_shown && status == Status::Done {
            self.hint_at_explore(&declaration);
        }
        Ok(self.ended(&declaration, Subject::Nothing, status))
    }

    /// Prints the semaphores of the declaration of a file.
    pub fn compile(&mut self) -> Result<Status, Fault<'a>> {
        let declaration = self.file("DECL")?;
        let status = compile_to(self.alloc(), &declaration, self.out, self.err);
        Ok(self.ended(&declaration, Subject::Nothing, status))
    }

    /// Traces attempts behind the journal in these files.
    fn trace_files(
        &mut self,
        declaration: &[u8],
        journal: &[JournalFile],
        attempts: &[u8],
    ) -> Status {
        let (alloc, room, report) = (self.alloc(), self.room(), self.words.get_flag("report"));
        let (out, err) = (&mut *self.out, &mut *self.err);
        let status = trace_behind(
            alloc,
            declaration,
            room,
            journal,
            report,
            attempts,
            out,
            err,
        );
        if self.tell_journal(declaration, journal, status) {
            return status;
        }
        let subject = Subject::Attempts(Source::whole(self.name_of("ATTEMPTS"), attempts));
        self.ended(declaration, subject, status)
    }

    /// Traces the attempts of one file under the declaration of another, behind a journal if the words name one.
    pub fn trace(&mut self) -> Result<Status, Fault<'a>> {
        let declaration = self.file("DECL")?;
        let journal = self.journal_files("after")?;
        let attempts = self.file("ATTEMPTS")?;
        if !journal.is_empty() {
            return Ok(self.trace_files(&declaration, &journal, &attempts));
        }
        let (alloc, room, report) = (self.alloc(), self.room(), self.words.get_flag("report"));
        let (out, err) = (&mut *self.out, &mut *self.err);
        let status = trace_bytes(alloc, &declaration, room, report, &attempts, out, err);
        let subject = Subject::Attempts(Source::whole(self.name_of("ATTEMPTS"), &attempts));
        Ok(self.ended(&declaration, subject, status))
    }

    /// Explains attempts behind the journal in these files.
    fn explain_files(
        &mut self,
        declaration: &[u8],
        journal: &[JournalFile],
        attempts: &[u8],
        names: FileNames<'_>,
    ) -> Status {
        let (alloc, room) = (self.alloc(), self.room());
        let (out, err) = (&mut *self.out, &mut *self.err);
        let status = explain_behind(alloc, declaration, room, journal, attempts, names, out, err);
        if status == Status::Unsound {
            self.tell_wrong(declaration, journal);
        }
        status
    }

    /// Explains the attempts of the file of this name, behind a journal if the words name one.
    fn explain_text(
        &mut self,
        declaration: &[u8],
        names: FileNames<'a>,
    ) -> Result<Status, Fault<'a>> {
        let journal = self.journal_files("after")?;
        let attempts = read_named(self.rt, names.text)?;
        if !journal.is_empty() {
            return Ok(self.explain_files(declaration, &journal, &attempts, names));
        }
        let (alloc, room) = (self.alloc(), self.room());
        let (out, err) = (&mut *self.out, &mut *self.err);
        Ok(explain_attempts(alloc, declaration, room, &attempts, names, out, err))
    }

    /// Explains the attempts or the journal of one file under the declaration of another, or that declaration. The attempts may be made
    /// behind a journal.
    pub fn explain(&mut self) -> Result<Status, Fault<'a>> {
        let declaration = self.file("DECL")?;
        let (alloc, room) = (self.alloc(), self.room());
        let mut names = FileNames {
            declaration: self.words.get_str("DECL").unwrap_or(""),
            text: "",
        };
        if let Some(name) = self.words.get_str("ATTEMPTS") {
            names.text = name;
            return self.explain_text(&declaration, names);
        }
        let Some(name) = self.words.get_str("journal") else {
            return Ok(explain_declaration(alloc, &declaration, names, self.out, self.err));
        };
        let journal = read_named(self.rt, name)?;
        names.text = name;
        let (out, err) = (&mut *self.out, &mut *self.err);
        Ok(explain_journal(alloc, &declaration, room, &journal, names, out, err))
    }

    /// Says on standard error how to go on, if standard input is typed: it would wait without a word.
    pub fn invite(&mut self, what: &str) {
        if self.terminals.is_typed {
            drop(writeln!(self.err, "{what}"));
        }
    }

    /// When the words say that lines are written to the disk.
    fn syncing(&self) -> Syncing {
        match self.words.get_str("sync") {
            Some("close") => Syncing::Close,
            Some("never") => Syncing::Never,
            _ => Syncing::Each,
        }
    }

    /// Draws the journal of the file of this name.
    fn picture_journal(&mut self, declaration: &[u8], name: &'a str) -> Result<Status, Fault<'a>> {
        let journal = read_named(self.rt, name)?;
        let status = picture_journal_bytes(self.alloc(), declaration, &journal, self.out, self.err);
        let source = Source::whole(self.name_of("journal"), &journal);
        let subject = Subject::Journal(source, self.room());
        Ok(self.ended(declaration, subject, status))
    }

    /// Draws the attempts or the journal of one file under the declaration of another.
    pub fn picture(&mut self) -> Result<Status, Fault<'a>> {
        let declaration = self.file("DECL")?;
        if let Some(name) = self.words.get_str("journal") {
            return self.picture_journal(&declaration, name);
        }
        let attempts = self.file("ATTEMPTS")?;
        let (alloc, room) = (self.alloc(), self.room());
        let status = picture_bytes(alloc, &declaration, room, &attempts, self.out, self.err);
        let subject = Subject::Attempts(Source::whole(self.name_of("ATTEMPTS"), &attempts));
        Ok(self.ended(&declaration, subject, status))
    }
}

impl<'a, R: Files<File = File> + Input + AllocGlobal, O: Write, E: Write> Request<'_, 'a, R, O, E> {
    /// Answers attempts from standard input, and keeps the journal in the file of this name.
    fn follow_in_file(&mut self, name: &str, declaration: &[u8]) -> Status {
        let device = match FileDevice::open(self.rt, name) {
            Ok(device) => device,
            Err(fault) => {
                drop(writeln!(self.err, "journal: {name}: {fault}"));
                return Status::StreamFailed;
            }
        };
        let (alloc, room, syncing) = (self.alloc(), self.room(), self.syncing());
        let mut input = self.rt.reader();
        let (out, err) = (&mut *self.out, &mut *self.err);
        let (status, _device) = follow_stored(
            alloc,
            declaration,
            room,
            syncing,
            device,
            &mut input,
            out,
            err,
        );
        status
    }

    /// Answers attempts from standard input under the declaration of a file.
    pub fn follow(&mut self) -> Result<Status, Fault<'a>> {
        let declaration = self.file("DECL")?;
        self.invite(FOLLOW_INVITATION);
        let status = if let Some(name) = self.words.get_str("journal") {
            self.follow_in_file(name, &declaration)
        } else {
            let (alloc, room) = (self.alloc(), self.room());
            let mut input = self.rt.reader();
            follow_bytes(alloc, &declaration, room, &mut input, self.out, self.err)
        };
        Ok(self.ended(&declaration, Subject::Nothing, status))
    }
}

impl<'a, R: Files + Input + AllocGlobal + Threads + Wait + Sync, O: Write, E: Write> Request<
    '_,
    'a,
    R,
    O,
    E,
> {
    /// Runs the script of one file under the declaration of another.
    pub fn run(&mut self) -> Result<Status, Fault<'a>> {
        let declaration = self.file("DECL")?;
        let script = self.file("SCRIPT")?;
        let (alloc, room) = (self.alloc(), self.room());
        let (out, err) = (&mut *self.out, &mut *self.err);
        let status = run_bytes(self.rt, alloc, &declaration, room, &script, out, err);
        let subject = Subject::Script(Source::whole(self.name_of("SCRIPT"), &script));
        Ok(self.ended(&declaration, subject, status))
    }
}
