//! A command that the command line asks for, and what all commands have in common.

ghost use Rattle.std.specs.Prelude.{◌≡◌, ◌≤◌, length, IfOk};

use crate::files::{STDIN, read_named};
use crate::terminals::Terminals;
use clap::ArgMatches;
use cmd_trace::ROOM;
use path_lines::LIMIT;
use std::alloc::Global;
use std::io::Write;
use std::rt::Files;
use tell_base::{Fault, Status};
use tell_refusals::{Source, Subject, tell_place};

/// A command that is asked for: the program that runs it, its words, and where it writes.
#[derive(Drop)]
pub struct Request<'r, 'a, R, O, E> {
    pub rt: &'r R,
    pub terminals: Terminals,
    pub words: &'r ArgMatches<'a>,
    pub out: &'r mut O,
    pub err: &'r mut E,
}

impl<'r, 'a, R: Files + Input + AllocGlobal, O: Write, E: Write> Request<'r, 'a, R, O, E> {
    /// Where memory comes from.
    pub fn alloc(&self) -> Global {
        self.rt.alloc()
    }

    /// The bytes of the file that the words name under this id.
    pub fn file(&self, id: &str) -> Result<Vec<u8>, Fault<'a>>
        ensures { IfOk result (λ bytes. length bytes.items ≤ LIMIT) }
    {
        read_named(self.rt, self.words.get_str(id).unwrap_or(""))
    }

    /// The name of the file under this id, as faults name it.
    pub fn name_of(&self, id: &str) -> &'a str {
        match self.words.get_str(id) {
            Some("-") => STDIN,
            Some(name) => name,
            None => "",
        }
    }

    /// The room that the words name, or else the usual one.
    pub fn room(&self) -> u32 {
        self.words.get_one("room").unwrap_or(ROOM)
    }

    /// Says on standard error where a text is at fault for which the command ended with this status, and returns the status.
    pub fn ended(&mut self, declaration: &[u8], subject: Subject<'_>, status: Status) -> Status
        ensures { result ≡ status }
    {
        let alloc = self.alloc();
        let declaration = Source::whole(self.name_of("DECL"), declaration);
        let _said = tell_place(alloc, declaration, subject, status, self.err);
        status
    }
}
