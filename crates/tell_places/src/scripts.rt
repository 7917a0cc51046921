//! Texts of scripts.

ghost use Rattle.std.specs.Prelude.{◌≡◌, IfNone, IfOk, IfSome};
ghost use Rattle.path_fields.specs.Splits.{HasNone};
ghost use Rattle.path_script.specs.declared.fault.ScriptFault.TheVariants as faults;
ghost use Rattle.tell_places.specs.Places.{IsLineSpot, IsSpotBehind, script_number};

use crate::finding::Finding;
use crate::lines::{found, line_of, too_long};
use crate::places::behind;
use crate::wording::{Wrong, wanted_words};
use path_decl::Decl;
use path_lines::{Stop, Wanted, stop_at};
use path_model::OutOfMemory;
use path_script::{Form, LIMIT, ScriptFault, read_form};
use std::alloc::Allocator;

/// Whether the line of this number, counted from 0, stands outside of a process: it is the first, or the one before it ends a process.
fn is_outside(text: &[u8], number: u32) -> bool {
    match number.checked_sub(1) {
        Some(before) => matches!(read_form(line_of(text, before)), Ok(Form::End)),
        None => true,
    }
}

/// Where a line stops that has none of the forms; outside of a process only one can stand there.
fn stop_outside(stop: Stop, is_outside: bool) -> Stop {
    match stop.wanted {
        Wanted::Step if is_outside => Stop {
            wanted: Wanted::Process,
            ..stop
        },
        _ => stop,
    }
}

/// Where a line stops that has this fault. One that is right by itself can't stand where it does: to end a process, what is entered must
/// be left first, and to use or leave, something must be entered.
fn stop_of(line: &[u8], fault: ScriptFault, is_outside: bool) -> Stop
    requires { HasNone 10 line.now }
{
    let form = match read_form(line) {
        Ok(form) => form,
        Err(stop) => return stop_outside(stop, is_outside),
    };
    let wanted = match (fault, form) {
        (ScriptFault::Undeclared(_), Form::Enter(name)) => return stop_at(name, Wanted::Operation),
        (ScriptFault::BadLine(_), Form::Process(_)) => Wanted::Step,
        (ScriptFault::BadLine(_), _) => Wanted::Process,
        (ScriptFault::Unbalanced(_), Form::End) => Wanted::ProcessEnd,
        (ScriptFault::Unbalanced(_), _) => Wanted::Entry,
        (_, Form::Process(_)) => Wanted::ScriptEnd,
        _ => Wanted::ProcessEnd,
    };
    stop_at(line, wanted)
}

/// Whether a text has no more than so many lines.
fn ends_before(text: &[u8], lines: u32) -> bool {
    match behind(text, lines) {
        Some(rest) => rest.is_empty(),
        None => true,
    }
}

/// The finding of a script's fault in the line of this number, counted from 0. At the end of the text a process wants its end, and no
/// byte tells the cause.
fn line_finding<'a, A: Allocator + Copy>(
    alloc: A,
    decl: &Decl<A>,
    text: &'a [u8],
    number: u32,
    fault: ScriptFault,
) -> Result<Finding<'a, A>, OutOfMemory>
    ensures { IfOk result (λ finding. IsSpotBehind text.now number finding.spot) }
{
    let ends = ends_before(text, number);
    let stop = if ends {
        stop_at(b"", Wanted::ProcessEnd)
    } else {
        stop_of(line_of(text, number), fault, is_outside(text, number))
    };
    let (wrong, words) = (Wrong::Script(fault), wanted_words(stop.wanted));
    let mut finding = found(alloc, decl, text, number, stop, wrong, words)?;
    if !ends {
        return Ok(finding);
    }
    finding.likely = None;
    Ok(finding)
}

/// Where the text of a script has this fault, which [`read_script`](path_script::read_script) found in it; `None` if memory was wanting
/// then. Fails only if allocation fails. The cost is three passes over the text up to the end of the fault's line, and a look at each
/// declared name.
pub fn script_finding<'a, A: Allocator + Copy>(
    alloc: A,
    decl: &Decl<A>,
    text: &'a [u8],
    fault: ScriptFault,
) -> Result<Option<Finding<'a, A>>, OutOfMemory>
    ensures spot { IfOk result (λ found. IfSome found (λ finding. IsLineSpot text.now (script_number fault) finding.spot)) }
    ensures none { IfOk result (λ found. IfNone found (fault ≡ faults.OutOfMemory)) }
{
    let number = match fault {
        ScriptFault::OutOfMemory => return Ok(None),
        ScriptFault::TooLong => return Ok(Some(too_long(alloc, text, LIMIT, Wrong::Script(fault)))),
        ScriptFault::BadLine(number)
        | ScriptFault::Undeclared(number)
        | ScriptFault::Unbalanced(number)
        | ScriptFault::TooDeep(number)
        | ScriptFault::TooMany(number) => number,
    };
    Ok(Some(line_finding(alloc, decl, text, number, fault)?))
}
