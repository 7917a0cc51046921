//! Where the lines of a follow are kept.

ghost use Rattle.std.specs.Prelude.{◌++◌, ◌∷◌, [], List, OnOk, OnErr};
ghost use Rattle.path_model.specs.declared.journal.Line.{Line};

use path_model::Line;

/// Why a line isn't kept.
#[derive(Clone, Copy, Debug, PartialEq, Eq)]
pub enum KeepFault {
    /// It can't be written, or not to the disk.
    Unkept,
    /// An allocation failed.
    OutOfMemory,
}

/// What keeps the lines of a follow, each before its answer is written.
pub trait Keeper {
    /// Whether it has kept the second lines of a journal, and no others. The first are those that it had when it was the first keeper: that
    /// is what it was at the beginning of a follow.
    ghost keeps: { (first now : Self) → (found ls : List Line) → Type 0 };

    /// Whether it has failed to keep the last of these lines, behind the second ones. What is left then is for each keeper to say.
    ghost left: { (first now : Self) → (found ls more : List Line) → Type 0 };

    /// Keeps a line behind the others.
    fn keep(&mut self, line: Line) -> Result<(), KeepFault>
        ensures kept { (first : Self) (found ls : List Line) → keeps first self.old found ls
            → OnOk result (keeps first self.new found (ls ++ line ∷ [])) }
        ensures left { (first : Self) (found ls : List Line) → keeps first self.old found ls
            → OnErr result (left first self.new found ls (line ∷ [])) };
}

/// Keeps no lines.
#[derive(Clone, Copy, Debug)]
pub struct Forgetful;

impl Keeper for Forgetful {
    ghost keeps = { λ first now found ls. Unit {0} };

    ghost left = { λ first now found ls more. Unit {0} };

    fn keep(&mut self, _line: Line) -> Result<(), KeepFault> {
        Ok(())
    }
}
