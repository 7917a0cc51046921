//! The text that shows compiled paths.

ghost use Rattle.std.specs.Prelude.{◌≡◌, ◌++◌, ◌∷◌, [], map, option_map, codes, IfOk, OnOk};
ghost use Rattle.std.specs.String.{string_bytes};
ghost use Rattle.path_code.specs.Listing.{name_or_number, operation_text, resource_text, pair_text, prologue_text};
ghost use Rattle.path_code.specs.Listing.{epilogue_text, terms_text, header_line, semaphore_line, counter_line, mutex_line, op_line};
ghost use Rattle.path_code.specs.Listing.{lines_text, parts_text, listing_text};

use crate::code::{Code, PathCode};
use crate::terms::{Epilogue, OpCode, Prologue};
use path_decl::{Decl, op_name, resource_name};
use path_model::{OpId, OutOfMemory, ResId};
use std::alloc::{AllocError, Allocator};

/// How a listing writes a pair of braces.
#[derive(Clone, Copy, Debug, PartialEq, Eq)]
pub enum Mutexes {
    /// By its counter and its mutex, as `c0,m0`.
    Listed,
    /// By its counter, as `c0`: mutexes are removed.
    Trimmed,
}

/// Appends the name, or `#` and the number if there is none.
fn push_name<B: Allocator + Copy>(
    out: &mut String<B>,
    name: Option<&str>,
    number: u32,
) -> Result<(), OutOfMemory>
    ensures { OnOk result (string_bytes out.new ≡ string_bytes out.old ++ name_or_number (option_map (λ s. s.now) name.entry) number) }
{
    match name {
        Some(name) => out.push_str(name)?,
        None => write!(out, "#{number}")?,
    }
    Ok(())
}

/// Appends the name of an operation, or `#` and its number if the declaration doesn't have it. Fails only if allocation fails; what
/// the text contains then isn't specified.
pub fn push_operation<A: Allocator + Copy, B: Allocator + Copy>(
    out: &mut String<B>,
    decl: &Decl<A>,
    op: OpId,
) -> Result<(), OutOfMemory>
    ensures { OnOk result (string_bytes out.new ≡ string_bytes out.old ++ operation_text decl.now.declaration op.0) }
{
    push_name(out, op_name(decl, op), op.0)
}

/// Appends the name of a resource, or `#` and its number if the declaration doesn't have it.
fn push_resource<A: Allocator + Copy, B: Allocator + Copy>(
    out: &mut String<B>,
    decl: &Decl<A>,
    resource: ResId,
) -> Result<(), OutOfMemory>
    ensures { OnOk result (string_bytes out.new ≡ string_bytes out.old ++ resource_text decl.now.declaration resource.0) }
{
    push_name(out, resource_name(decl, resource), resource.0)
}

/// Appends a pair of braces, and a comma.
fn push_pair<B: Allocator + Copy>(
    out: &mut String<B>,
    mutexes: Mutexes,
    pair: u16,
) -> Result<(), AllocError>
    ensures { OnOk result (string_bytes out.new ≡ string_bytes out.old ++ pair_text mutexes pair) }
{
    match mutexes {
        Mutexes::Listed => write!(out, "c{pair},m{pair},"),
        Mutexes::Trimmed => write!(out, "c{pair},"),
    }
}

/// Appends a prologue, or `-` if there is none.
fn push_prologue<B: Allocator + Copy>(
    out: &mut String<B>,
    mutexes: Mutexes,
    prologue: Option<Prologue>,
) -> Result<(), AllocError>
    ensures { OnOk result (string_bytes out.new ≡ string_bytes out.old ++ prologue_text mutexes prologue) }
{
    match prologue {
        None => out.push_str("-"),
        Some(Prologue::P(semaphore)) => write!(out, "P(s{semaphore})"),
        Some(Prologue::PP { pair, semaphore }) => {
            out.push_str("PP(")?;
            push_pair(out, mutexes, pair)?;
            write!(out, "P(s{semaphore}))")
        }
        Some(
            Prologue::PPN {
                pair,
                semaphore,
                bound,
            },
        ) => {
            write!(out, "P(s{bound}); PP(")?;
            push_pair(out, mutexes, pair)?;
            write!(out, "P(s{semaphore}))")
        }
    }
}

/// Appends an epilogue, or `-` if there is none.
fn push_epilogue<B: Allocator + Copy>(
    out: &mut String<B>,
    mutexes: Mutexes,
    epilogue: Option<Epilogue>,
) -> Result<(), AllocError>
    ensures { OnOk result (string_bytes out.new ≡ string_bytes out.old ++ epilogue_text mutexes epilogue) }
{
    match epilogue {
        None => out.push_str("-"),
        Some(Epilogue::V(semaphore)) => write!(out, "V(s{semaphore})"),
        Some(Epilogue::VV { pair, semaphore }) => {
            out.push_str("VV(")?;
            push_pair(out, mutexes, pair)?;
            write!(out, "V(s{semaphore}))")
        }
        Some(
            Epilogue::VVN {
                pair,
                semaphore,
                bound,
            },
        ) => {
            out.push_str("VV(")?;
            push_pair(out, mutexes, pair)?;
            write!(out, "V(s{semaphore})); V(s{bound})")
        }
    }
}

/// Appends `: PROLOGUE | EPILOGUE`, with `-` for none, and ends the line. Fails only if allocation fails; what the text contains then
/// isn't specified.
pub fn push_terms<B: Allocator + Copy>(
    out: &mut String<B>,
    mutexes: Mutexes,
    prologue: Option<Prologue>,
    epilogue: Option<Epilogue>,
) -> Result<(), OutOfMemory>
    ensures { OnOk result (string_bytes out.new ≡ string_bytes out.old ++ (terms_text mutexes prologue epilogue ++ 10 ∷ [])) }
{
    out.push_str(": ")?;
    push_prologue(out, mutexes, prologue)?;
    out.push_str(" | ")?;
    push_epilogue(out, mutexes, epilogue)?;
    out.push_str("\n")?;
    Ok(())
}

/// Appends `path N of RESOURCE` without a line feed, with `#` and the number for a resource that the declaration doesn't have.
/// Fails only if allocation fails; what the text contains then isn't specified.
pub fn push_header<A: Allocator + Copy, B: Allocator + Copy>(
    out: &mut String<B>,
    decl: &Decl<A>,
    number: u32,
    resource: ResId,
) -> Result<(), OutOfMemory>
    ensures { OnOk result (string_bytes out.new ≡
        string_bytes out.old ++ header_line decl.now.declaration number resource.0) }
{
    write!(out, "path {number} of ")?;
    push_resource(out, decl, resource)
}

/// Appends a line `sK = V` for each of these semaphores and its opening value, in order. Fails only if allocation fails;
/// what the text contains then isn't specified. The cost is that of the text.
pub fn push_semaphores<B: Allocator + Copy>(
    out: &mut String<B>,
    semaphores: &[(u16, u16)],
) -> Result<(), OutOfMemory>
    ensures { OnOk result (string_bytes out.new ≡ string_bytes out.old ++ lines_text (map semaphore_line semaphores.now)) }
{
    for (number, value) in semaphores {
        write!(out, "s{number} = {value}\n")?;
    }
    Ok(())
}

/// Appends a line `cK = 0` for each of these counters, in order. Fails only if allocation fails; what the text contains then isn't
/// specified. The cost is that of the text.
pub fn push_counters<B: Allocator + Copy>(
    out: &mut String<B>,
    counters: &[u16],
) -> Result<(), OutOfMemory>
    ensures { OnOk result (string_bytes out.new ≡ string_bytes out.old ++ lines_text (map counter_line counters.now)) }
{
    for number in counters {
        write!(out, "c{number} = 0\n")?;
    }
    Ok(())
}

/// Appends a line for each mutex.
fn push_mutexes<B: Allocator + Copy>(out: &mut String<B>, mutexes: &[u16]) -> Result<(), AllocError>
    ensures { OnOk result (string_bytes out.new ≡ string_bytes out.old ++ lines_text (map mutex_line mutexes.now)) }
{
    for number in mutexes {
        write!(out, "m{number} = 1\n")?;
    }
    Ok(())
}

/// Appends the line of an operation.
fn push_op<A: Allocator + Copy, B: Allocator + Copy>(
    out: &mut String<B>,
    decl: &Decl<A>,
    op: &OpCode,
) -> Result<(), OutOfMemory>
    ensures { OnOk result (string_bytes out.new ≡
        string_bytes out.old ++ lines_text (op_line decl.now.declaration op.now ∷ [])) }
{
    push_operation(out, decl, op.op)?;
    push_terms(out, Mutexes::Listed, Some(op.prologue), Some(op.epilogue))
}

/// Appends a line for each operation.
fn push_ops<A: Allocator + Copy, B: Allocator + Copy>(
    out: &mut String<B>,
    decl: &Decl<A>,
    ops: &[OpCode],
) -> Result<(), OutOfMemory>
    ensures { OnOk result (string_bytes out.new ≡
        string_bytes out.old ++ lines_text (map (op_line decl.now.declaration) ops.now)) }
{
    for op in ops {
        push_op(out, decl, op)?;
    }
    Ok(())
}

/// Appends the lines of a path.
fn push_path<A: Allocator + Copy, B: Allocator + Copy, C: Allocator + Copy>(
    out: &mut String<C>,
    decl: &Decl<A>,
    number: u32,
    path: &PathCode<'_, B>,
) -> Result<(), OutOfMemory>
    ensures { OnOk result (string_bytes out.new ≡ string_bytes out.old ++
        parts_text decl.now.declaration number path.now.resource.0 path.now.semaphores.items path.now.braces.items path.now.ops.items) }
{
    push_header(out, decl, number, path.resource)?;
    out.push_str("\n")?;
    push_semaphores(out, &path.semaphores)?;
    push_counters(out, &path.braces)?;
    push_mutexes(out, &path.braces)?;
    push_ops(out, decl, &path.ops)
}

/// The text of compiled paths. For each path: the line `path N of RESOURCE`; a line `sK = V` for each semaphore, `cK = 0` for each
/// counter and `mK = 1` for each mutex, ascending; and a line `NAME: PROLOGUE | EPILOGUE` for each operation, in the order of the
/// names in the path. Each line ends with a line feed. A name that the declaration doesn't have is written as `#` and its number.
///
/// Fails only if allocation fails. The cost is that of the text.
pub fn listing<A: Allocator + Copy, B: Allocator + Copy, C: Allocator + Copy>(
    alloc: C,
    decl: &Decl<A>,
    code: &Code<'_, B>,
) -> Result<String<C>, OutOfMemory>
    ensures { IfOk result (λ text. string_bytes text ≡ listing_text decl.now.declaration code.now.paths) }
{
    let mut out = String::new(alloc);
    let mut number = 0;
    for path in code.paths() {
        push_path(&mut out, decl, number, path)?;
        number += 1;
    }
    Ok(out)
}
