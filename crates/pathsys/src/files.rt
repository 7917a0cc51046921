//! Bounded files and standard input.

ghost use Rattle.std.specs.Prelude.{◌≤◌, length, IfOk};

use path_lines::LIMIT;
use std::fs;
use std::fs::OpenFile;
use std::io::{ErrorKind, Write};
use std::rt::Files;
use tell_base::{Fault, Status, read_all, tell};

/// How faults name standard input.
pub const STDIN: &str = "standard input";

/// How many bytes the file says it has; 0 if it doesn't say.
fn size<F: OpenFile>(file: &F) -> usize {
    match file.metadata() {
        Ok(metadata) => metadata.len() as usize,
        Err(_) => 0,
    }
}

/// Reads the file of this name, of at most [`LIMIT`] bytes. Fails with `Unreadable` if it can't be opened or read, with `TooLong` if
/// it has more bytes, and with `OutOfMemory` if allocation fails. The cost is proportional to the bytes.
pub fn read_file<'a, R: Files + AllocGlobal>(rt: &R, name: &'a str) -> Result<Vec<u8>, Fault<'a>>
    ensures { IfOk result (λ bytes. length bytes.items ≤ LIMIT) }
{
    match fs::open(rt, name) {
        Ok(file) => {
            let size = size(&file);
            read_all(rt.alloc(), file, size, LIMIT, name)
        }
        Err(error) => Err(Fault::of_reading(name, &error)),
    }
}

/// Reads standard input, at most [`LIMIT`] bytes. Fails with `Unreadable` if a read fails, with `TooLong` if there are more bytes,
/// and with `OutOfMemory` if allocation fails. The cost is proportional to the bytes.
pub fn read_stdin<R: Input + AllocGlobal>(rt: &R) -> Result<Vec<u8>, Fault<'static>>
    ensures { IfOk result (λ bytes. length bytes.items ≤ LIMIT) }
{
    read_all(rt.alloc(), rt.reader(), 0, LIMIT, STDIN)
}

/// Reads the file of this name, or standard input if the name is `-`. Fails as [`read_file`] and [`read_stdin`] do.
pub fn read_named<'a, R: Files + Input + AllocGlobal>(
    rt: &R,
    name: &'a str,
) -> Result<Vec<u8>, Fault<'a>>
    ensures { IfOk result (λ bytes. length bytes.items ≤ LIMIT) }
{
    if name == "-" {
        read_stdin(rt)
    } else {
        read_file(rt, name)
    }
}

/// Why the file of this name can't be read, in words; `None` if it can, or for another reason than those that people meet.
fn reason<R: Files>(rt: &R, name: &str) -> Option<&'static str> {
    match fs::metadata(rt, name) {
        Ok(metadata) if metadata.is_dir() => return Some("it is a folder"),
        Ok(_) => {}
        Err(error) if error.kind() == ErrorKind::NotFound => {
            return Some("there is no file of this name");
        }
        Err(error) if error.kind() == ErrorKind::NotADirectory => {
            return Some("what stands before the last slash isn't a folder");
        }
        Err(_) => {}
    }
    match fs::open(rt, name) {
        Err(error) if error.kind() == ErrorKind::PermissionDenied => {
            Some("you have no permission to read it")
        }
        _ => None,
    }
}

/// Tells a fault on `err`, and of a file that can't be read why, on a line of its own. Returns the fault's status, or `StreamFailed` if
/// its first line can't be written.
pub fn tell_unread<R: Files, E: Write>(rt: &R, fault: Fault<'_>, err: &mut E) -> Status {
    let status = tell(err, fault);
    match fault {
        Fault::Unreadable(name) if name != STDIN => {
            if let Some(reason) = reason(rt, name) {
                drop(writeln!(err, "{reason}"));
            }
        }
        Fault::TooLong(_) => drop(writeln!(err, "the limit is {LIMIT} bytes")),
        _ => {}
    }
    status
}
