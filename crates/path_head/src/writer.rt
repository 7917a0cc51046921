//! From what a head says to its text.

ghost use Rattle.std.specs.Prelude.{◌≡◌, ◌++◌, ◌∷◌, [], IfOk, OnOk};
ghost use Rattle.std.specs.String.{string_bytes};
ghost use Rattle.hex.specs.Hex.{encode_lower};
ghost use Rattle.path_head.specs.HeadTexts.{of_before, counts_before, link_before, room_before, front_before, fact_before, facts_before};
ghost use Rattle.path_head.specs.HeadTexts.{lines_before, head_before};

use crate::fact::Fact;
use crate::front::{Counts, Front};
use crate::hash::Sum;
use hex::encode;
use path_decl::Decl;
use path_lines::push_operation;
use path_model::OutOfMemory;
use sha2::{Digest, Sha256};
use std::alloc::Allocator;

/// Appends the hex digits of a sum, and a line feed.
fn push_sum<A: Allocator + Copy>(
    out: &mut String<A>,
    alloc: A,
    sum: [u8; 32],
) -> Result<(), OutOfMemory>
    ensures { OnOk result (string_bytes out.new ≡ string_bytes out.old ++ (encode_lower sum ++ 10 ∷ [])) }
{
    let digits = encode(alloc, &sum[..])?;
    out.push_str(&digits)?;
    out.push_str("\n")?;
    Ok(())
}

/// Appends the line of the room.
fn push_room<A: Allocator + Copy>(out: &mut String<A>, room: u32) -> Result<(), OutOfMemory>
    ensures { OnOk result (string_bytes out.new ≡ string_bytes out.old ++ room_before room []) }
{
    write!(out, "journal 4 room {room}\n")?;
    Ok(())
}

/// Appends the line of what there was in the files before.
fn push_counts<A: Allocator + Copy>(out: &mut String<A>, counts: Counts) -> Result<(), OutOfMemory>
    ensures { OnOk result (string_bytes out.new ≡ string_bytes out.old ++ counts_before counts []) }
{
    let Counts {
        lines,
        starts,
        highest,
        files,
    } = counts;
    write!(
        out,
        "after {lines} lines {starts} starts {highest} workers {files} files\n"
    )?;
    Ok(())
}

/// Appends the line of the link; without one also the printed declaration.
fn push_link<A: Allocator + Copy>(
    out: &mut String<A>,
    alloc: A,
    print: &str,
    link: Option<Sum>,
) -> Result<(), OutOfMemory>
    ensures { OnOk result (string_bytes out.new ≡ string_bytes out.old ++ link_before print.now link []) }
{
    match link {
        None => {
            out.push_str("link -\ndeclares ")?;
            out.push_str(print)?;
            out.push_str("\n")?;
        }
        Some(sum) => {
            out.push_str("link ")?;
            let bytes = sum.0;
            push_sum(out, alloc, bytes)?;
        }
    }
    Ok(())
}

/// Appends the first lines of a head.
fn push_front<A: Allocator + Copy>(
    out: &mut String<A>,
    alloc: A,
    print: &str,
    front: &Front,
) -> Result<(), OutOfMemory>
    ensures { OnOk result (string_bytes out.new ≡ string_bytes out.old ++ front_before print.now front.now []) }
{
    push_room(out, front.room)?;
    out.push_str("of ")?;
    push_sum(out, alloc, Sha256::digest(print.as_bytes()))?;
    push_counts(out, front.before)?;
    push_link(out, alloc, print, front.link)?;
    Ok(())
}

/// Appends the line of a fact.
fn push_fact<A: Allocator + Copy, B: Allocator + Copy>(
    out: &mut String<A>,
    decl: &Decl<B>,
    fact: Fact,
) -> Result<(), OutOfMemory>
    ensures { OnOk result (string_bytes out.new ≡ string_bytes out.old ++ fact_before decl.now.declaration fact []) }
{
    match fact {
        Fact::Live(activation) => {
            let act = activation.act.0;
            let worker = activation.worker;
            write!(out, "live {act} {worker} ")?;
            push_operation(out, decl, activation.op)?;
            out.push_str("\n")?;
        }
        Fact::Stands(stand) => {
            let number = stand.number;
            let place = stand.place;
            let path = stand.path.0;
            write!(out, "stands {number} at {place} of path {path}\n")?;
        }
        Fact::Contains(contained) => {
            let resource = contained.resource.0;
            let number = contained.number;
            write!(out, "contains {resource} {number}\n")?;
        }
    }
    Ok(())
}

/// Appends the lines of facts.
fn push_facts<A: Allocator + Copy, B: Allocator + Copy>(
    out: &mut String<A>,
    decl: &Decl<B>,
    facts: &[Fact],
) -> Result<(), OutOfMemory>
    ensures { OnOk result (string_bytes out.new ≡ string_bytes out.old ++ facts_before decl.now.declaration facts.now []) }
{
    for fact in facts {
        push_fact(out, decl, *fact)?;
    }
    Ok(())
}

/// The text of a head of a declaration whose printed text, without its line feed, is `print`; each line with its line feed. What is in
/// progress has to be of its operations, else the text is read as none. Fails only if allocation fails. The cost is that of the text.
pub fn write_head<A: Allocator + Copy, B: Allocator + Copy>(
    alloc: A,
    decl: &Decl<B>,
    print: &str,
    front: &Front,
    facts: &[Fact],
) -> Result<String<A>, OutOfMemory>
    ensures { IfOk result (λ text. string_bytes text ≡ head_before decl.now.declaration print.now front.now facts.now []) }
{
    let mut text = String::new(alloc);
    push_front(&mut text, alloc, print, front)?;
    push_facts(&mut text, decl, facts)?;
    let sum = Sha256::digest(text.as_bytes());
    text.push_str("sum ")?;
    push_sum(&mut text, alloc, sum)?;
    Ok(text)
}
