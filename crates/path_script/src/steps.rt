//! The steps of a process.

ghost use Rattle.std.specs.Prelude.{◌≡◌, ℕ, ◌+◌, ◌^◌, ◌<◌, ◌≤◌, [], ◌∷◌, ◌++◌, map, length, All, IfSome, IfNone, IfOk, IfErr, OnOk};
ghost use Rattle.path_fields.specs.Splits.{HasNone};
ghost use Rattle.path_script.specs.Scripts.{MayStep, entered_after, IsBalanced};
ghost use Rattle.path_script.specs.ScriptLines.{ends, line_text, Reads};
ghost use Rattle.path_script.specs.ScriptTexts.{step_line, StepFits};
ghost use Rattle.path_script.specs.ScriptFaults.{within, Bars, Refuses, IsStepFault, Says};

use crate::fault::{Cause, ScriptFault, fault_at};
use crate::line::{Form, read_form};
use crate::script::Step;
use path_decl::Decl;
use path_fields::{after_line, until};
use path_lines::declared;
use std::alloc::Allocator;

/// The most operations that a process may have entered at once.
const MOST_ENTERED: u32 = 16;

/// The most steps of all processes.
const MOST_STEPS: u32 = 4_096;

/// Whether a step can be taken after `steps` steps of all processes, when `entered` operations are entered.
fn check(step: Step, steps: u32, entered: u32) -> Result<(), Cause>
    ensures ok { OnOk result (MayStep entered step × (steps < 4096)) }
    ensures err { IfErr result (λ cause. Bars steps entered step cause) }
{
    match step {
        Step::Enter(_) => {
            if entered >= MOST_ENTERED {
                return Err(Cause::TooDeep);
            }
        }
        Step::Apply(_) | Step::Leave => {
            if entered == 0 {
                return Err(Cause::Unbalanced);
            }
        }
    }
    if steps >= MOST_STEPS {
        return Err(Cause::TooMany);
    }
    Ok(())
}

/// The step that a line inside a process says, which may be one that can't be taken; `None` if the process ends.
fn step_said<A: Allocator + Copy>(decl: &Decl<A>, line: &[u8]) -> Result<Option<Step>, Cause>
    requires { HasNone 10 line.now }
    ensures step { IfOk result (λ said. IfSome said (λ s.
        (line.now ≡ line_text (step_line decl.now.declaration s)) × StepFits decl.now.declaration s)) }
    ensures end { IfOk result (λ said. IfNone said (line.now ≡ line_text ends)) }
    ensures err { IfErr result (λ cause. (steps entered : ℕ) → Refuses decl.now.declaration (within steps entered) line.now cause) }
{
    let Ok(form) = read_form(line) else {
        return Err(Cause::Bad);
    };
    match form {
        Form::Process(_) => Err(Cause::Bad),
        Form::Enter(name) => match declared(decl, name) {
            Some(op) => Ok(Some(Step::Enter(op))),
            None => Err(Cause::Undeclared),
        },
        Form::Use(verb) => Ok(Some(Step::Apply(verb))),
        Form::Leave => Ok(Some(Step::Leave)),
        Form::End => Ok(None),
    }
}

/// A line inside a process, after `steps` steps of all processes and with `entered` operations entered: a step, or `None` if the
/// process ends.
fn read_step<A: Allocator + Copy>(
    decl: &Decl<A>,
    line: &[u8],
    steps: u32,
    entered: u32,
) -> Result<Option<Step>, Cause>
    requires { HasNone 10 line.now }
    ensures step { IfOk result (λ told. IfSome told (λ s.
        (line.now ≡ line_text (step_line decl.now.declaration s)) × StepFits decl.now.declaration s × MayStep entered s × (steps < 4096))) }
    ensures end { IfOk result (λ told. IfNone told ((line.now ≡ line_text ends) × (entered ≡ 0))) }
    ensures err { IfErr result (λ cause. Refuses decl.now.declaration (within steps entered) line.now cause) }
{
    let Some(step) = step_said(decl, line)? else {
        if entered > 0 {
            return Err(Cause::Unbalanced);
        }
        return Ok(None);
    };
    check(step, steps, entered)?;
    Ok(Some(step))
}

/// How many operations are entered after a step.
fn after_step(entered: u32, step: Step) -> u32
    requires { MayStep entered step }
    ensures { result ≡ entered_after entered step }
{
    match step {
        Step::Enter(_) => entered + 1,
        Step::Apply(_) => entered,
        Step::Leave => entered - 1,
    }
}

/// The steps of a process, up to its line `end`, and the text after that line. The text begins after the line `process`; `lines`
/// lines precede it, and `before` steps of other processes.
pub fn read_steps<'a, A: Allocator + Copy, B: Allocator + Copy>(
    alloc: B,
    decl: &Decl<A>,
    text: &'a [u8],
    lines: u32,
    before: u32,
) -> Result<(Vec<Step, B>, &'a [u8]), ScriptFault>
    requires few_lines { lines + 4096 < 2 ^ 32 }
    requires few_steps { before ≤ 4096 }
    ensures reads { IfOk result (λ p. Reads text.now (map (step_line decl.now.declaration) p.0.items ++ ends ∷ []) p.1.now) }
    ensures fits { IfOk result (λ p. All (StepFits decl.now.declaration) p.0.items) }
    ensures balanced { IfOk result (λ p. IsBalanced p.0.items) }
    ensures few { IfOk result (λ p. before + length p.0.items ≤ 4096) }
    ensures shorter { IfOk result (λ p. length p.1.now ≤ length text.now) }
    ensures err { IfErr result (λ e. Says ⊥ (IsStepFault decl.now.declaration text.now lines before) e) }
{
    let mut steps = Vec::new(alloc);
    let mut entered = 0;
    let mut rest = text;
    while !rest.is_empty() {
        let (line, _) = until(rest, b'\n');
        let told = before + steps.len() as u32;
        match read_step(decl, line, told, entered) {
            Ok(Some(step)) => {
                steps.push(step)?;
                entered = after_step(entered, step);
                rest = after_line(rest, line.len());
            }
            Ok(None) => return Ok((steps, after_line(rest, line.len()))),
            Err(cause) => return Err(fault_at(lines + steps.len() as u32, cause)),
        }
    }
    Err(ScriptFault::BadLine(lines + steps.len() as u32))
}
