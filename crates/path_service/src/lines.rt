//! The lines of a service that keeps a journal.

ghost use Rattle.std.specs.Prelude.{◌≡◌, ◌≤◌, [], vec_capacity, IfOk};

use path_model::{Line, OutOfMemory};
use std::alloc::Global;
use std::mem::swap;

/// The lines since the last rotation, and the memory of the journal after the next one.
#[derive(Drop)]
pub struct Lines {
    /// The lines so far.
    pub(crate) present: Vec<Line>,
    /// A list whose lines don't count.
    spare: Vec<Line>,
}

impl Lines {
    /// No lines, and memory for so many of them, twice. Fails only if allocation fails.
    pub(crate) fn with_room(alloc: Global, room: u32) -> Result<Lines, OutOfMemory>
        ensures empty { IfOk result (λ lines. lines.present.items ≡ []) }
        ensures present { IfOk result (λ lines. room ≤ vec_capacity lines.present) }
        ensures spare { IfOk result (λ lines. room ≤ vec_capacity lines.spare) }
    {
        let present = Vec::with_capacity(alloc, room as usize)?;
        let spare = Vec::with_capacity(alloc, room as usize)?;
        Ok(Lines { present, spare })
    }

    /// Gives the lines up. Takes constant time and no memory.
    pub(crate) fn clear(&mut self)
        ensures empty { self.new.present.items ≡ [] }
        ensures present { vec_capacity self.new.present ≡ vec_capacity self.old.spare }
        ensures spare { vec_capacity self.new.spare ≡ vec_capacity self.old.present }
    {
        swap(&mut self.present, &mut self.spare);
        self.present.clear();
    }
}
