//! The audit of a journal in files, and what commands say of such files.

use crate::files::{STDIN, read_named};
use crate::request::Request;
use cmd_audit::{JournalFile, audit_bytes, audit_files};
use cmd_explain::{FullJournal, full_journal};
use std::io::Write;
use std::rt::Files;
use tell_base::{Fault, Status};
use tell_refusals::{Source, Subject, tell_place};

/// A file of a journal as a source of faults.
fn source_of(file: &JournalFile) -> Source<'_> {
    let name = file.name.as_str();
    Source::whole(if name == "-" { STDIN } else { name }, &file.text)
}

impl<'a, R: Files + Input + AllocGlobal, O: Write, E: Write> Request<'_, 'a, R, O, E> {
    /// The files of a journal's segments under this id, in order; none if the words name none.
    pub fn journal_files(&self, id: &str) -> Result<Vec<JournalFile>, Fault<'a>> {
        let alloc = self.alloc();
        let mut files = Vec::new(alloc);
        if let Some(names) = self.words.get_strs(id) {
            for name in names {
                let text = read_named(self.rt, name)?;
                let name = format!(in alloc; "{name}")?;
                files.push(JournalFile { name, text })?;
            }
        }
        Ok(files)
    }

    /// Says on standard error, in one line, which command shows why a line of a journal is wrong. What isn't taken there is lost.
    fn hint_at_explain(&mut self, journal: &str) {
        let (declaration, room) = (self.words.get_str("DECL").unwrap_or(""), self.room());
        drop(writeln!(
            self.err,
            "hint: pathsys explain {declaration} --journal {journal} --room {room} shows why"
        ));
    }

    /// Says on standard error where the first of these files is at fault that isn't a journal, if the command ended with this status;
    /// where the declaration is, if that is refused. Returns whether something was said.
    fn tell_refused_file(
        &mut self,
        declaration: &[u8],
        files: &[JournalFile],
        status: Status,
    ) -> bool {
        let alloc = self.alloc();
        let declaration = Source::whole(self.name_of("DECL"), declaration);
        let mut said = false;
        for file in files {
            if !said {
                let subject = Subject::Journal(source_of(file), 1);
                said = tell_place(alloc, declaration, subject, status, self.err);
            }
        }
        said
    }

    /// Says on standard error where the journal of this source is full, and in which room it isn't.
    fn tell_full(&mut self, source: Source<'_>, full: FullJournal) {
        let FullJournal {
            line,
            room,
            is_named,
            enough,
        } = full;
        let (name, whose) = (
            source.name,
            if is_named {
                "a head with room"
            } else {
                "--room"
            },
        );
        drop(writeln!(
            self.err,
            "{name}:{line}: the room of {room} is used up here; {whose} {enough} would do"
        ));
    }

    /// Says on standard error which line of a journal in one file is wrong, as editors count, and which command shows why; if only room
    /// lacks, in which room the line is right. Of a journal in several files nothing is said.
    pub fn tell_wrong(&mut self, declaration: &[u8], files: &[JournalFile]) {
        if let [file] = files {
            let (source, room) = (source_of(file), self.room());
            match full_journal(self.alloc(), declaration, room, &file.text) {
                Some(full) => self.tell_full(source, full),
                None => {
                    self.ended(declaration, Subject::Journal(source, room), Status::Unsound);
                }
            }
            self.hint_at_explain(&file.name);
        }
    }

    /// Says on standard error more of a journal in these files if the command ended with this status. Returns whether it is the journal, or
    /// the declaration, that is at fault.
    pub fn tell_journal(
        &mut self,
        declaration: &[u8],
        files: &[JournalFile],
        status: Status,
    ) -> bool {
        if status == Status::Unsound {
            self.tell_wrong(declaration, files);
            return true;
        }
        self.tell_refused_file(declaration, files, status)
    }

    /// Audits the journal of one file, or its segments in several, under the declaration of another.
    pub fn audit(&mut self) -> Result<Status, Fault<'a>> {
        let declaration = self.file("DECL")?;
        let files = self.journal_files("JOURNAL")?;
        let (alloc, room) = (self.alloc(), self.room());
        let (out, err) = (&mut *self.out, &mut *self.err);
        let status = match files.as_slice() {
            [file] => audit_bytes(alloc, &declaration, room, &file.text, out, err),
            files => audit_files(alloc, &declaration, room, files, out, err),
        };
        self.tell_journal(&declaration, &files, status);
        Ok(status)
    }
}
