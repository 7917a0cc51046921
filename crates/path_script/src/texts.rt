//! Texts of scripts.

ghost use Rattle.std.specs.Prelude.{◌≡◌, ◌≢◌, ◌+◌, ◌<◌, ◌≤◌, ◌↔◌, List, [], length, IfOk, IfErr, IsErrOf};
ghost use Rattle.std.specs.String.{string_bytes};
ghost use Rattle.path_model.specs.Declarations.{Declaration};
ghost use Rattle.path_lex.specs.Names.{IsName};
ghost use Rattle.path_fields.specs.Splits.{HasNone};
ghost use Rattle.path_script.specs.declared.fault.ScriptFault.{ScriptFault};
ghost use Rattle.path_script.specs.declared.fault.ScriptFault.TheVariants as faults;
ghost use Rattle.path_script.specs.Scripts.{Plan};
ghost use Rattle.path_script.specs.ScriptLines.{begins, line_text};
ghost use Rattle.path_script.specs.ScriptTexts.{IsScriptText, IsNoScriptText};
ghost use Rattle.path_script.specs.ScriptFaults.{between, Refuses, IsScriptFault};

use crate::fault::{Cause, ScriptFault, fault_at};
use crate::line::{Form, read_form};
use crate::script::{Process, Script};
use crate::steps::read_steps;
use path_decl::Decl;
use path_fields::{after_line, until};
use std::alloc::{AllocError, Allocator};

/// The most bytes that a script may have.
pub const LIMIT: usize = 262_144;

/// The most processes of a script.
const MOST_PROCESSES: u32 = 16;

/// The name of the process that a line begins, after `processes` processes.
fn read_begin(line: &[u8], processes: u32) -> Result<&[u8], Cause>
    requires { HasNone 10 line.now }
    ensures ok { IfOk result (λ name. (line.now ≡ line_text (begins name.now)) × IsName name.now × (processes < 16)) }
    ensures err { IfErr result (λ cause. (d : Declaration) → Refuses d (between processes) line.now cause) }
{
    let Ok(form) = read_form(line) else {
        return Err(Cause::Bad);
    };
    let name = match form {
        Form::Process(name) => name,
        Form::Enter(_) | Form::Use(_) | Form::Leave | Form::End => return Err(Cause::Bad),
    };
    if processes >= MOST_PROCESSES {
        return Err(Cause::TooMany);
    }
    Ok(name)
}

/// A copy of a name.
fn own_name<A: Allocator + Copy>(alloc: A, name: &[u8]) -> Result<String<A>, AllocError>
    requires { IsName name.now }
    ensures { IfOk result (λ text. string_bytes text ≡ name.now) }
{
    let name = unsafe { std::str::from_utf8_unchecked(name) };
    String::from_str(alloc, name)
}

/// Reads the script of a text, over the operations of the declaration. Each process is a line `process NAME`, its steps, one a line,
/// and a line `end`; a step is `enter NAME`, `use put X`, `use take`, `use look`, `use add X` or `leave`. The line feed after the last
/// line may be missing, and an empty text has no processes.
///
/// Fails with `TooLong` exactly when the text has more than [`LIMIT`] bytes; else with the number of the first line that can't follow
/// the lines before it, counted from 0, and the reason: the first of `BadLine`, `Undeclared`, `Unbalanced`, `TooDeep` and `TooMany`
/// that applies to it. Fails with `OutOfMemory` if allocation fails.
///
/// One pass over the text, with a look-up of each name that is entered; memory for each name and each step.
pub fn read_script<A: Allocator + Copy, B: Allocator + Copy>(
    alloc: B,
    decl: &Decl<A>,
    text: &[u8],
) -> Result<Script<B>, ScriptFault>
    ensures ok { IfOk result (λ s. IsScriptText decl.now.declaration text.now s.processes) }
    // A text has one script.
    ensures one { IfOk result (λ s. (ps : List Plan) → IsScriptText decl.now.declaration text.now ps → ps ≡ s.processes) }
    ensures err { IfErr result (λ e. IsScriptFault decl.now.declaration text.now e) }
    // A text that isn't too long has at most one fault, OutOfMemory aside.
    ensures one_fault { IfErr result (λ e. (f : ScriptFault) → length text.now ≤ 262144
        → e ≢ faults.OutOfMemory → f ≢ faults.OutOfMemory → IsScriptFault decl.now.declaration text.now f → f ≡ e) }
    ensures too_long { IsErrOf result faults.TooLong ↔ (262144 < length text.now) }
    // Any error but TooLong and OutOfMemory: the text isn't a script.
    ensures none { IfErr result (λ e. e ≢ faults.TooLong → e ≢ faults.OutOfMemory → IsNoScriptText decl.now.declaration text.now) }
{
    if text.len() > LIMIT {
        return Err(ScriptFault::TooLong);
    }
    let mut processes = Vec::new(alloc);
    let mut told = 0;
    let mut rest = text;
    while !rest.is_empty() {
        let (line, _) = until(rest, b'\n');
        let count = processes.len() as u32;
        // Each process has a line for each of its steps, and two more.
        let lines = told + 2 * count;
        let name = match read_begin(line, count) {
            Ok(name) => own_name(alloc, name)?,
            Err(cause) => return Err(fault_at(lines, cause)),
        };
        let behind = after_line(rest, line.len());
        let (steps, after) = read_steps(alloc, decl, behind, lines + 1, told)?;
        told += steps.len() as u32;
        processes.push(Process { name, steps })?;
        rest = after;
    }
    Ok(Script { processes })
}
