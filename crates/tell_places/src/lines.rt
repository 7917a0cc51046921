//! What is found in a line.

ghost use Rattle.std.specs.Prelude.{IfOk};
ghost use Rattle.path_fields.specs.Splits.{HasNone};
ghost use Rattle.tell_places.specs.Places.{IsSpotBehind};

use crate::finding::Finding;
use crate::likely::{Likely, likely_at};
use crate::near::{misspelled, nearest_name};
use crate::places::{Spot, behind, spot_at, spot_behind};
use crate::wording::{Wrong, words_of};
use path_decl::{Decl, counts, op_name};
use path_fields::until;
use path_lines::{Stop, Wanted, word};
use path_model::{OpId, OutOfMemory};
use std::alloc::Allocator;

/// The line of this number, counted from 0; empty if the text has no such line.
pub fn line_of(text: &[u8], number: u32) -> &[u8]
    ensures { HasNone 10 result.now }
{
    match behind(text, number) {
        Some(rest) => until(rest, b'\n').0,
        None => b"",
    }
}

/// The names of all declared operations.
fn names_of<A: Allocator + Copy>(alloc: A, decl: &Decl<A>) -> Result<Vec<&str, A>, OutOfMemory> {
    let mut names = Vec::new(alloc);
    for number in 0..counts(decl).operations {
        if let Some(name) = op_name(decl, OpId(number)) {
            names.push(name)?;
        }
    }
    Ok(names)
}

/// The declared operation that is nearest to the token at a place; empty if none is near.
fn nearest_at<A: Allocator + Copy>(
    alloc: A,
    decl: &Decl<A>,
    spot: &Spot<'_>,
) -> Result<String<A>, OutOfMemory> {
    let rest = spot.text.get(spot.at..).unwrap_or(&[]);
    let (name, _) = word(rest);
    match std::str::from_utf8(name) {
        Ok(name) => nearest_name(alloc, name, &names_of(alloc, decl)?),
        Err(_) => Ok(String::new(alloc)),
    }
}

/// The likely cause of a stop at this place: what a byte tells, or a word that is misspelled.
fn likely_cause<A: Allocator + Copy>(
    alloc: A,
    spot: &Spot<'_>,
    wanted: Wanted,
) -> Result<Option<Likely>, OutOfMemory> {
    match likely_at(spot) {
        Some(likely) => Ok(Some(likely)),
        None => Ok(misspelled(alloc, spot.token(), words_of(wanted))?.map(Likely::Misspelled)),
    }
}

/// The finding of a stop in the line of this number, counted from 0. The words say what could stand there.
pub fn found<'a, A: Allocator + Copy>(
    alloc: A,
    decl: &Decl<A>,
    text: &'a [u8],
    number: u32,
    stop: Stop,
    wrong: Wrong,
    words: &str,
) -> Result<Finding<'a, A>, OutOfMemory>
    ensures { IfOk result (λ finding. IsSpotBehind text.now number finding.spot) }
{
    let spot = spot_behind(text, number, stop.left);
    let wanted = String::from_str(alloc, words)?;
    let nearest = match stop.wanted {
        Wanted::Operation => nearest_at(alloc, decl, &spot)?,
        _ => String::new(alloc),
    };
    Ok(Finding {
        spot,
        wrong,
        wanted,
        nearest,
        likely: likely_cause(alloc, &spot, stop.wanted)?,
    })
}

/// The finding of a text that is longer than its limit.
pub fn too_long<A: Allocator + Copy>(
    alloc: A,
    text: &[u8],
    limit: usize,
    wrong: Wrong,
) -> Finding<'_, A> {
    Finding {
        spot: spot_at(text, limit),
        wrong,
        wanted: String::new(alloc),
        nearest: String::new(alloc),
        likely: None,
    }
}
