//! Why a text isn't a script.

ghost use Rattle.std.specs.Prelude.{◌≡◌};
ghost use Rattle.path_script.specs.declared.fault.ScriptFault.TheVariants.{OutOfMemory};
ghost use Rattle.path_script.specs.ScriptFaults.{fault_of};

use std::alloc::{AllocError, AllocFailed};
use thiserror::Error;

/// Why a text isn't a script. Lines count from 0. If a line has several faults, the first of this list counts.
#[derive(Clone, Copy, Debug, PartialEq, Eq, Error)]
pub enum ScriptFault {
    /// It has more than 262,144 bytes.
    #[error("too long")]
    TooLong,
    /// The first faulty line has none of the forms, or one that can't come there. If the text ends inside a process, the number is
    /// that of all lines.
    #[error("bad line {0}")]
    BadLine(u32),
    /// The first faulty line enters a name that isn't a declared operation.
    #[error("undeclared in line {0}")]
    Undeclared(u32),
    /// The first faulty line uses or leaves when nothing is entered, or ends a process that hasn't left everything.
    #[error("unbalanced in line {0}")]
    Unbalanced(u32),
    /// The first faulty line would enter a 17th operation at once.
    #[error("too deep in line {0}")]
    TooDeep(u32),
    /// The first faulty line would be the 17th process, or the 4,097th step of all processes.
    #[error("too many in line {0}")]
    TooMany(u32),
    /// An allocation failed.
    #[error("out of memory")]
    OutOfMemory,
}

/// Why a line can't follow the lines before it.
#[derive(Clone, Copy, Debug, PartialEq, Eq)]
pub enum Cause {
    /// It has no form that can come there.
    Bad,
    /// It enters a name that isn't a declared operation.
    Undeclared,
    /// It uses or leaves when nothing is entered, or ends when something is.
    Unbalanced,
    /// It enters when 16 operations are entered.
    TooDeep,
    /// There are 16 processes, or 4,096 steps, already.
    TooMany,
}

impl From<AllocError> for ScriptFault {
    ghost from_gives = { λ _ e. e ≡ OutOfMemory };

    fn from(_error: AllocError) -> ScriptFault {
        ScriptFault::OutOfMemory
    }
}

impl<T: Drop> From<AllocFailed<T>> for ScriptFault {
    ghost from_gives = { λ _ e. e ≡ OutOfMemory };

    fn from(_error: AllocFailed<T>) -> ScriptFault {
        ScriptFault::OutOfMemory
    }
}

/// The fault of a text whose first faulty line is this one.
pub fn fault_at(line: u32, cause: Cause) -> ScriptFault
    ensures { result ≡ fault_of line cause }
{
    match cause {
        Cause::Bad => ScriptFault::BadLine(line),
        Cause::Undeclared => ScriptFault::Undeclared(line),
        Cause::Unbalanced => ScriptFault::Unbalanced(line),
        Cause::TooDeep => ScriptFault::TooDeep(line),
        Cause::TooMany => ScriptFault::TooMany(line),
    }
}
