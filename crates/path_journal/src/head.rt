//! The first line of a text of version 2, which names the room of its journal.

ghost use Rattle.std.specs.Prelude.{◌≡◌, ◌≢◌, ℕ, ◌++◌, List, IfOk, OnErr};
ghost use Rattle.std.specs.String.{string_bytes};
ghost use Rattle.path_fields.specs.Splits.{EndsAt};
ghost use Rattle.path_model.specs.Rooms.{IsRoom};
ghost use Rattle.path_journal.specs.JournalTexts.{head_text};
ghost use Rattle.path_journal.specs.JournalTexts.{kept_head};

use path_lines::{Stop, Wanted, after, last, stop_at};
use path_model::{MOST_LINES, OutOfMemory};
use std::alloc::Allocator;

/// The room that the first line of a text names, and the text from the end of that line on; else where that line stops being a head.
pub fn read_head(text: &[u8]) -> Result<(u32, &[u8]), Stop>
    ensures ok { IfOk result (λ p. (text.now ≡ head_text p.0 ++ p.1.now) × IsRoom p.0 × EndsAt 10 p.1.now) }
    ensures err { OnErr result ((room : ℕ) (rest : List ℕ) → IsRoom room → EndsAt 10 rest → text.now ≢ head_text room ++ rest) }
{
    let named = after(text, b"journal 2 room ", Wanted::Head)?;
    let (room, rest) = last(named, u64::from(MOST_LINES), Wanted::Head)?;
    if room == 0 {
        return Err(stop_at(named, Wanted::Head));
    }
    Ok((room as u32, rest))
}

/// The same of a first line of version 3.
pub fn read_kept_head(text: &[u8]) -> Result<(u32, &[u8]), Stop>
    ensures ok { IfOk result (λ p. (text.now ≡ kept_head p.0 ++ p.1.now) × IsRoom p.0 × EndsAt 10 p.1.now) }
    ensures err { OnErr result ((room : ℕ) (rest : List ℕ) → IsRoom room → EndsAt 10 rest → text.now ≢ kept_head room ++ rest) }
{
    let named = after(text, b"journal 3 room ", Wanted::Head)?;
    let (room, rest) = last(named, u64::from(MOST_LINES), Wanted::Head)?;
    if room == 0 {
        return Err(stop_at(named, Wanted::Head));
    }
    Ok((room as u32, rest))
}

/// The first line of a journal's text of version 2, without a line feed: `journal 2 room` and the room, which must be 1 to
/// [`MOST_LINES`](path_model::MOST_LINES). Fails only if allocation fails.
pub fn write_head<A: Allocator + Copy>(alloc: A, room: u32) -> Result<String<A>, OutOfMemory>
    requires { IsRoom room }
    ensures { IfOk result (λ text. string_bytes text ≡ head_text room) }
{
    let text = format!(in alloc; "journal 2 room {room}")?;
    Ok(text)
}

/// The first line of a journal's text of version 3, without a line feed: `journal 3 room` and the room, which must be 1 to
/// [`MOST_LINES`](path_model::MOST_LINES). Fails only if allocation fails.
pub fn write_kept_head<A: Allocator + Copy>(alloc: A, room: u32) -> Result<String<A>, OutOfMemory>
    requires { IsRoom room }
    ensures { IfOk result (λ text. string_bytes text ≡ kept_head room) }
{
    let text = format!(in alloc; "journal 3 room {room}")?;
    Ok(text)
}
