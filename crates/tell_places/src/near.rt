//! The nearest of some names, and misspelled words.

use path_model::OutOfMemory;
use std::alloc::Allocator;
use strsim::osa_distance;

/// How many edits two names may be apart to be near: a third of the name's bytes or two, but fewer than it has.
fn near(name: &str) -> usize {
    (name.len() / 3).max(2).min(name.len().saturating_sub(1))
}

/// The first of the names with the fewest edits from this one, if it is near: at most a third of its bytes or two, but fewer than it has.
/// An edit adds, drops or changes a character, or swaps two neighbours. Fails only if allocation fails. The cost is the product of the
/// lengths, for each name.
pub fn nearest<'n, A: Allocator + Copy>(
    alloc: A,
    name: &str,
    names: &[&'n str],
) -> Result<Option<&'n str>, OutOfMemory> {
    let mut best = None;
    let mut edits = near(name).saturating_add(1);
    for other in names {
        let apart = osa_distance(alloc, name, *other)?;
        if apart < edits {
            edits = apart;
            best = Some(*other);
        }
    }
    Ok(best)
}

/// The first of the names with the fewest edits from this one, as [`nearest`] finds it; empty if none is near.
pub fn nearest_name<A: Allocator + Copy>(
    alloc: A,
    name: &str,
    names: &[&str],
) -> Result<String<A>, OutOfMemory> {
    let near = nearest(alloc, name, names)?.unwrap_or("");
    Ok(String::from_str(alloc, near)?)
}

/// Whether these bytes are this word misspelled: other than it, and at most an edit away for each three letters of it.
pub fn is_misspelled<A: Allocator + Copy>(
    alloc: A,
    token: &[u8],
    word: &str,
) -> Result<bool, OutOfMemory> {
    match std::str::from_utf8(token) {
        Ok(token) if token.len() > 1 => {
            let apart = osa_distance(alloc, token, word)?;
            Ok(0 < apart && apart <= word.len() / 3)
        }
        _ => Ok(false),
    }
}

/// The first of these words that the bytes are misspelled, as [`is_misspelled`] says it.
pub fn misspelled<A: Allocator + Copy>(
    alloc: A,
    token: &[u8],
    words: &[&'static str],
) -> Result<Option<&'static str>, OutOfMemory> {
    for word in words {
        if is_misspelled(alloc, token, *word)? {
            return Ok(Some(*word));
        }
    }
    Ok(None)
}
