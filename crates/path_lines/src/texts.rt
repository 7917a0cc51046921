//! Texts of attempts, one a line.

ghost use Rattle.std.specs.Prelude.{◌≡◌, ◌≢◌, ◌<◌, ◌↔◌, List, length, IfOk, IfErr, IsErrOf};
ghost use Rattle.path_lines.specs.declared.texts.TextFault.TheVariants.{OutOfMemory};
ghost use Rattle.path_lines.specs.AttemptTexts.{Entry, IsAttemptsText, IsNoAttemptsText, IsTextFault, fault_of};

use crate::entry::{LineFault, first_entry};
use path_decl::Decl;
use path_fields::after_line;
use path_model::Attempt;
use std::alloc::{AllocError, AllocFailed, Allocator};
use thiserror::Error;

/// The most bytes that a text of attempts may have.
pub const LIMIT: usize = 134_217_728;

/// Why a text isn't a list of attempts. Lines count from 0.
#[derive(Clone, Copy, Debug, PartialEq, Eq, Error)]
pub enum TextFault {
    /// It has more than 134,217,728 bytes.
    #[error("too long")]
    TooLong,
    /// The first faulty line has none of the forms.
    #[error("bad line {0}")]
    BadLine(u32),
    /// The first faulty line is right except that its name isn't a declared operation.
    #[error("undeclared in line {0}")]
    Undeclared(u32),
    /// An allocation failed.
    #[error("out of memory")]
    OutOfMemory,
}

impl From<AllocError> for TextFault {
    ghost from_gives = { λ _ e. e ≡ OutOfMemory };

    fn from(_error: AllocError) -> TextFault {
        TextFault::OutOfMemory
    }
}

impl<T: Drop> From<AllocFailed<T>> for TextFault {
    ghost from_gives = { λ _ e. e ≡ OutOfMemory };

    fn from(_error: AllocFailed<T>) -> TextFault {
        TextFault::OutOfMemory
    }
}

/// The most attempts that a text can have: each line has at least ten bytes with its line feed.
fn lines_at_most(text: &[u8]) -> usize {
    let ends = text.iter().filter(|byte| **byte == b'\n').count();
    ends.min(text.len() / 10) + 1
}

/// The fault of a text whose first faulty line is this one.
pub fn fault_at(line: u32, fault: LineFault) -> TextFault
    ensures { result ≡ fault_of line fault }
{
    match fault {
        LineFault::Bad => TextFault::BadLine(line),
        LineFault::Undeclared => TextFault::Undeclared(line),
    }
}

/// The workers and attempts of a text, one a line, in order. The line feed after the last line may be missing, and an empty text has no
/// lines. Fails with `TooLong` exactly when the text has more than [`LIMIT`] bytes; else with `BadLine` or `Undeclared` for the first
/// line that isn't an attempt, or with `OutOfMemory`. One pass over the text; the list is allocated once.
pub fn read_attempts<A: Allocator + Copy, B: Allocator + Copy>(
    alloc: B,
    decl: &Decl<A>,
    text: &[u8],
) -> Result<Vec<(u32, Attempt), B>, TextFault>
    ensures ok { IfOk result (λ v. IsAttemptsText decl.now.declaration text.now v.items) }
    // A text has one list of attempts.
    ensures one { IfOk result (λ v. (es : List Entry) → IsAttemptsText decl.now.declaration text.now es → es ≡ v.items) }
    ensures err { IfErr result (λ e. IsTextFault decl.now.declaration text.now e) }
    ensures too_long { IsErrOf result TextFault.TooLong ↔ (134217728 < length text.now) }
    // Any error but TooLong and OutOfMemory: the text isn't a list of attempts.
    ensures none { IfErr result (λ e. e ≢ TextFault.TooLong → e ≢ TextFault.OutOfMemory → IsNoAttemptsText decl.now.declaration text.now) }
{
    if text.len() > LIMIT {
        return Err(TextFault::TooLong);
    }
    let mut entries = Vec::with_capacity(alloc, lines_at_most(text))?;
    let mut rest = text;
    while !rest.is_empty() {
        match first_entry(decl, rest) {
            Ok(line) => {
                entries.push((line.worker, line.attempt))?;
                rest = after_line(rest, line.length);
            }
            Err(stop) => return Err(fault_at(entries.len() as u32, stop.fault)),
        }
    }
    Ok(entries)
}
