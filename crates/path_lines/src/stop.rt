//! How far a line was read, and what could stand there.
//!
//! Each reader takes a text and returns what follows what it read, or where it stopped.

ghost use Rattle.std.specs.Prelude.{◌≡◌, ◌≢◌, ℕ, ◌≤◌, ◌∷◌, ◌++◌, List, decimal, IfSome, IfNone, IfOk, IfErr, OnOk, OnErr};
ghost use Rattle.std.specs.Bool.{OnTrue};
ghost use Rattle.path_fields.specs.Splits.{EndsAt, HasNoDigitNext};

use crate::entry::LineFault;
use path_fields::{at_end, number, strip};

/// What could stand in a line of attempts, of a journal or of a script.
#[derive(Clone, Copy, Debug, PartialEq, Eq)]
pub enum Wanted {
    /// The number of a worker.
    Worker,
    /// One space.
    Space,
    /// What the worker attempts.
    Attempt,
    /// The name of an operation.
    Operation,
    /// The number of an activation.
    Activation,
    /// What is done with a device.
    Verb,
    /// The number of a verb.
    Value,
    /// The end of the line.
    End,
    /// A colon and a space.
    Colon,
    /// A reply.
    Reply,
    /// The number of a reply.
    ReplyNumber,
    /// The first line of a journal of version 2.
    Head,
    /// The first line of a process.
    Process,
    /// A name of a process.
    ProcessName,
    /// A step of a process, or its end.
    Step,
    /// What leaves all operations that are entered, and then ends the process.
    ProcessEnd,
    /// A step when nothing is entered.
    Entry,
    /// The end of a script.
    ScriptEnd,
}

/// Where the first line of a text stops being what it should be.
#[derive(Clone, Copy, Debug, PartialEq, Eq)]
pub struct Stop {
    /// Why the line isn't what it should be.
    pub fault: LineFault,
    /// How many bytes of the text are left there.
    pub left: usize,
    /// What could stand there.
    pub wanted: Wanted,
}

/// A stop at the beginning of what is left, in a line of none of the forms.
pub fn stop_at(left: &[u8], wanted: Wanted) -> Stop
    ensures { result.fault ≡ LineFault.Bad }
{
    Stop {
        fault: LineFault::Bad,
        left: left.len(),
        wanted,
    }
}

/// Whether a word can have this byte: letters, digits, underscores, and the sign of a number without a name.
fn is_of_word(byte: u8) -> bool
    ensures { OnTrue result ((byte ≢ 32) × (byte ≢ 10)) }
{
    byte.is_ascii_alphanumeric() || byte == b'_' || byte == b'#'
}

/// The word at the beginning of a text, which may be empty, and what follows it. One pass over the word.
pub fn word(text: &[u8]) -> (&[u8], &[u8]) {
    match text.iter().position(|byte| !is_of_word(*byte)) {
        Some(end) => (&text[..end], &text[end..]),
        None => (text, &[]),
    }
}

/// Whether a text begins with a byte of a word.
fn begins_word(text: &[u8]) -> bool
    ensures spaced { OnTrue result ((rest : List ℕ) → text.now ≢ 32 ∷ rest) }
    ensures ended { OnTrue result (EndsAt 10 text.now → ⊥) }
{
    match text.first() {
        Some(byte) => is_of_word(*byte),
        None => false,
    }
}

/// What follows this word if the text begins with it; `None` if it doesn't, or goes on with a longer word.
pub fn keyword<'a>(text: &'a [u8], front: &[u8]) -> Option<&'a [u8]>
    ensures some { IfSome result (λ rest. text.now ≡ front.now ++ rest.now) }
    ensures spaced { IfNone result ((rest : List ℕ) → text.now ≢ front.now ++ 32 ∷ rest) }
    ensures ended { IfNone result ((rest : List ℕ) → EndsAt 10 rest → text.now ≢ front.now ++ rest) }
{
    let rest = strip(text, front)?;
    if begins_word(rest) {
        return None;
    }
    Some(rest)
}

/// What follows these bytes; else a stop at the beginning.
pub fn after<'a>(text: &'a [u8], front: &[u8], wanted: Wanted) -> Result<&'a [u8], Stop>
    ensures ok { IfOk result (λ rest. text.now ≡ front.now ++ rest.now) }
    ensures err { OnErr result ((rest : List ℕ) → text.now ≢ front.now ++ rest) }
    ensures bad { IfErr result (λ stop. stop.fault ≡ LineFault.Bad) }
{
    match strip(text, front) {
        Some(rest) => Ok(rest),
        None => Err(stop_at(text, wanted)),
    }
}

/// Nothing is left of the line; else a stop there.
pub fn end(text: &[u8]) -> Result<(), Stop>
    ensures ok { OnOk result (EndsAt 10 text.now) }
    ensures err { OnErr result (EndsAt 10 text.now → ⊥) }
    ensures bad { IfErr result (λ stop. stop.fault ≡ LineFault.Bad) }
{
    match at_end(text) {
        Some(_) => Ok(()),
        None => Err(stop_at(text, Wanted::End)),
    }
}

/// A number of at most `most`, without leading zeros, and what follows its last digit; else a stop at the beginning. One pass over the
/// digits.
pub fn number_to(text: &[u8], most: u64, wanted: Wanted) -> Result<(u64, &[u8]), Stop>
    ensures ok { IfOk result (λ p. (text.now ≡ decimal p.0 ++ p.1.now) × (p.0 ≤ most) × HasNoDigitNext p.1.now) }
    ensures err { OnErr result ((n : ℕ) (rest : List ℕ) → n ≤ most → HasNoDigitNext rest → text.now ≢ decimal n ++ rest) }
    ensures bad { IfErr result (λ stop. stop.fault ≡ LineFault.Bad) }
{
    let Some((value, rest)) = number(text) else {
        return Err(stop_at(text, wanted));
    };
    if value > most {
        return Err(stop_at(text, wanted));
    }
    Ok((value, rest))
}

/// A number of at most `most` up to the end of the line, and the text from there on; else a stop at the beginning, or behind the number.
pub fn last(text: &[u8], most: u64, wanted: Wanted) -> Result<(u64, &[u8]), Stop>
    ensures ok { IfOk result (λ p. (text.now ≡ decimal p.0 ++ p.1.now) × (p.0 ≤ most) × EndsAt 10 p.1.now) }
    ensures err { OnErr result ((n : ℕ) (rest : List ℕ) → n ≤ most → EndsAt 10 rest → text.now ≢ decimal n ++ rest) }
    ensures bad { IfErr result (λ stop. stop.fault ≡ LineFault.Bad) }
{
    let (value, rest) = number_to(text, most, wanted)?;
    end(rest)?;
    Ok((value, rest))
}
