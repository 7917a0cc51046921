//! What is said of operations.

ghost use Rattle.std.specs.Prelude.{◌≡◌, ◌++◌, ◌≤◌, length, IfOk, OnOk};
ghost use Rattle.std.specs.String.{string_bytes};
ghost use Rattle.cmd_explore.specs.Reaches.{Tells, fine_text, never_line, never_lines};

use path_decl::Decl;
use path_lines::push_operation;
use path_model::{OpId, OutOfMemory};
use std::alloc::Allocator;
use tell_base::Status;

/// Appends a line of an operation that never begins.
fn push_never<A: Allocator + Copy>(
    text: &mut String<A>,
    decl: &Decl<A>,
    op: OpId,
    begins: bool,
) -> Result<(), OutOfMemory>
    ensures { OnOk result (string_bytes text.new ≡ string_bytes text.old ++ never_line decl.now.declaration op.0 begins) }
{
    if begins {
        return Ok(());
    }
    text.push_str("never ")?;
    push_operation(text, decl, op)?;
    text.push_str("\n")?;
    Ok(())
}

/// A line for each operation that never begins, by the marks of all in order. Fails only if allocation fails.
fn never_text<A: Allocator + Copy>(
    alloc: A,
    decl: &Decl<A>,
    begins: &[bool],
) -> Result<String<A>, OutOfMemory>
    requires { length begins.now ≤ 256 }
    ensures { IfOk result (λ text. string_bytes text ≡ never_lines decl.now.declaration 0 begins.now) }
{
    let mut text = String::new(alloc);
    for (number, begins) in begins.iter().enumerate() {
        push_never(&mut text, decl, OpId(number as u32), *begins)?;
    }
    Ok(text)
}

/// What is written if every operation begins and no history freezes a group. Fails only if allocation fails.
fn fine<A: Allocator + Copy>(alloc: A, states: usize) -> Result<String<A>, OutOfMemory>
    ensures { IfOk result (λ text. string_bytes text ≡ fine_text states) }
{
    let mut text = String::new(alloc);
    write!(
        text,
        "every operation begins, the resources never all freeze\nstates {states}\n"
    )?;
    Ok(text)
}

/// What is written of a declaration of which no group can freeze, with so many states and these marks, and how that ends. Fails only if
/// allocation fails.
pub fn goes_text<A: Allocator + Copy>(
    alloc: A,
    decl: &Decl<A>,
    states: usize,
    begins: &[bool],
) -> Result<(Status, String<A>), OutOfMemory>
    requires { length begins.now ≤ 256 }
    ensures { IfOk result (λ p. Tells states (never_lines decl.now.declaration 0 begins.now) p.0 (string_bytes p.1)) }
{
    let mut text = never_text(alloc, decl, begins)?;
    if text.is_empty() {
        return Ok((Status::Done, fine(alloc, states)?));
    }
    write!(text, "states {states}\n")?;
    Ok((Status::Unsound, text))
}
