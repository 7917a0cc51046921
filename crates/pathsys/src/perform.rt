//! Runs the command that the command line asks for.

ghost use Rattle.std.specs.Prelude.{◌≡◌, ◌≢◌};
ghost use Rattle.clap.specs.Words.{kind_of};

use crate::command::command;
use crate::files::{STDIN, read_stdin, tell_unread};
use crate::request::Request;
use crate::terminals::Terminals;
use clap::error::ErrorKind;
use clap::{ArgMatches, Command, Error};
use cmd_trace::trace_bytes;
use std::env;
use std::fs::File;
use std::io::Write;
use std::rt::{Env, Files};
use std::sync::Wait;
use std::thread::Threads;
use tell_base::{Fault, Status, tell, whole};
use tell_refusals::{Source, Subject, tell_place};

/// What to type where there is no command.
const INVITATION: &str =
    "type a declaration, a line %, and attempts, and end with Ctrl-D; pathsys --help has an example";

/// Writes clap's message: help and the version on standard output, all else on standard error.
fn tell_words<O: Write, E: Write>(error: &Error, out: &mut O, err: &mut E) -> Status
    // A refused command line doesn't end as done.
    ensures { kind_of error.now ≢ ErrorKind.DisplayHelp → kind_of error.now ≢ ErrorKind.DisplayVersion → result ≢ Status.Done }
{
    if error.kind() == ErrorKind::OutOfMemory {
        return tell(err, Fault::OutOfMemory);
    }
    let (written, status) = if error.use_stderr() {
        (write!(err, "{error}"), Status::CommandRefused)
    } else {
        (write!(out, "{error}"), Status::Done)
    };
    match written {
        Ok(()) => status,
        Err(error) => tell(err, Fault::of_writing(&error)),
    }
}

/// How many line feeds a text has.
fn lines_of(text: &[u8]) -> usize {
    text.iter().filter(|byte| **byte == b'\n').count()
}

impl<'a, R: Files + Input + AllocGlobal, O: Write, E: Write> Request<'_, 'a, R, O, E> {
    /// Traces standard input.
    fn without_words(&mut self) -> Result<Status, Fault<'a>> {
        self.invite(INVITATION);
        let input = read_stdin(self.rt)?;
        let (declaration, attempts) = whole(&input);
        let (alloc, room, report) = (self.alloc(), self.room(), self.words.get_flag("report"));
        let (out, err) = (&mut *self.out, &mut *self.err);
        let status = trace_bytes(alloc, declaration, room, report, attempts, out, err);
        let subject = Subject::Attempts(Source {
            name: STDIN,
            text: attempts,
            lines_before: lines_of(declaration).saturating_add(1),
        });
        let declaration = Source::whole(STDIN, declaration);
        let _said = tell_place(alloc, declaration, subject, status, self.err);
        Ok(status)
    }
}

impl<
    'a,
    R: Files<File = File> + Input + AllocGlobal + Threads + Wait + Sync,
    O: Write,
    E: Write,
> Request<'_, 'a, R, O, E> {
    /// Runs the command of this name. Returns the exit status.
    fn perform(&mut self, command: &str) -> Result<u8, Fault<'a>> {
        let status = match command {
            "explore" => return self.explore(),
            "check" => self.check(),
            "compile" => self.compile(),
            "explain" => self.explain(),
            "follow" => self.follow(),
            "picture" => self.picture(),
            "audit" => self.audit(),
            "run" => self.run(),
            _ => self.trace(),
        }?;
        Ok(u8::from(status))
    }
}

/// Runs the command that clap matched. Returns the exit status.
fn matched<
    'r,
    'a,
    R: Files<File = File> + Input + AllocGlobal + Threads + Wait + Sync,
    O: Write,
    E: Write,
>(
    rt: &'r R,
    terminals: Terminals,
    matches: &'r ArgMatches<'a>,
    out: &'r mut O,
    err: &'r mut E,
) -> Result<u8, Fault<'a>> {
    let (command, words) = match matches.subcommand() {
        Some((command, words)) => (Some(command), words),
        None => (None, matches),
    };
    let mut request = Request {
        rt,
        terminals,
        words,
        out,
        err,
    };
    match command {
        Some(command) => request.perform(command),
        None => Ok(u8::from(request.without_words()?)),
    }
}

/// How many files these words read from standard input: each that is named `-`, and the attempts of a follow.
fn files_from_stdin(words: &[String]) -> usize {
    let follows = words.get(1).is_some_and(|word| word.as_str() == "follow");
    let named = words.iter().filter(|word| word.as_str() == "-").count();
    named.saturating_add(usize::from(follows))
}

/// Refuses words that read standard input twice.
fn refuse_twice<O: Write, E: Write>(command: Command<'_>, out: &mut O, err: &mut E) -> Status {
    let mut command = command;
    match command.error(
        ErrorKind::ArgumentConflict,
        "standard input can be read only once",
    ) {
        Ok(error) => tell_words(&error, out, err),
        Err(_) => tell(err, Fault::OutOfMemory),
    }
}

/// The words that clap reads for these: `help --help` is `help`.
fn words_for_clap(words: &[String]) -> &[String] {
    match words {
        [_, help, flag] if help.as_str() == "help" && flag.as_str() == "--help" => &words[..2],
        _ => words,
    }
}

/// Runs the command that these words ask for. Returns the exit status.
fn asked<R: Files<File = File> + Input + AllocGlobal + Threads + Wait + Sync, O: Write, E: Write>(
    rt: &R,
    terminals: Terminals,
    words: &[String],
    out: &mut O,
    err: &mut E,
) -> u8 {
    let Ok(command) = command(rt.alloc()) else {
        return u8::from(tell(err, Fault::OutOfMemory));
    };
    if files_from_stdin(words) > 1 {
        return u8::from(refuse_twice(command, out, err));
    }
    match command.try_get_matches_from(words_for_clap(words)) {
        Ok(matches) => match matched(rt, terminals, &matches, out, err) {
            Ok(status) => status,
            Err(fault) => u8::from(tell_unread(rt, fault, err)),
        },
        Err(error) => u8::from(tell_words(&error, out, err)),
    }
}

/// Runs the command that the command line asks for, and returns its exit status. If several things are at fault, the first in this order
/// counts: words, files, declaration, attempts, journal or script, room. If standard input is typed, a command that reads it says so first.
pub fn perform<
    R: Env + Files<File = File> + Input + AllocGlobal + Threads + Wait + Sync,
    O: Write,
    E: Write,
>(rt: &R, terminals: Terminals, out: &mut O, err: &mut E) -> u8 {
    let words = match env::args(rt) {
        Ok(words) => words,
        Err(error) => return u8::from(tell(err, Fault::of_arguments(&error))),
    };
    match words.collect::<Vec<String>>(rt.alloc()) {
        Ok(words) => asked(rt, terminals, &words, out, err),
        Err(_) => u8::from(tell(err, Fault::OutOfMemory)),
    }
}
