//! Why a text isn't a declaration.

ghost use Rattle.std.specs.Prelude.{◌≡◌};
ghost use Rattle.path_lex.specs.declared.fault.DeclFault.TheVariants.{OutOfMemory};

use path_model::OutOfMemory;
use std::alloc::{AllocError, AllocFailed};
use thiserror::Error;

/// Why a text isn't a declaration. A number is the offset of the first byte of the token at fault; at the end of the text it is the
/// text's length.
#[derive(Clone, Copy, Debug, PartialEq, Eq, Error)]
pub enum DeclFault {
    /// The text has more than 65,536 bytes.
    #[error("text too long")]
    TooLong,
    /// No token can begin with this byte, and one would have to.
    #[error("bad byte at {0}")]
    BadByte(u32),
    /// A word of more than 32 bytes.
    #[error("word too long at {0}")]
    WordTooLong(u32),
    /// A number of more than nine digits.
    #[error("number too long at {0}")]
    NumberTooLong(u32),
    /// The first token that continues no text of the grammar.
    #[error("unexpected at {0}")]
    Unexpected(u32),
    /// A parenthesis or a brace that would be the 33rd open one.
    #[error("too deep at {0}")]
    TooDeep(u32),
    /// A resource has the name of an earlier resource.
    #[error("duplicate resource at {0}")]
    DuplicateResource(u32),
    /// An operation has the name of an earlier operation, of any resource.
    #[error("duplicate operation at {0}")]
    DuplicateOperation(u32),
    /// A path names something that isn't an operation of the path's own resource.
    #[error("undeclared at {0}")]
    Undeclared(u32),
    /// A path names an operation twice.
    #[error("repeated name at {0}")]
    RepeatedName(u32),
    /// A brace inside open braces.
    #[error("nested braces at {0}")]
    NestedBraces(u32),
    /// The capacity of a queue begins with the digit 0, or is greater than 1,024.
    #[error("bad capacity at {0}")]
    BadCapacity(u32),
    /// The bound of braces begins with the digit 0, or is greater than 65,535.
    #[error("bad count at {0}")]
    BadCount(u32),
    /// One resource, operation, path or name in a path more than the limit.
    #[error("too many at {0}")]
    TooMany(u32),
    /// An allocation failed.
    #[error("out of memory")]
    OutOfMemory,
}

impl From<AllocError> for DeclFault {
    ghost from_gives = { λ _ e. e ≡ OutOfMemory };

    fn from(_error: AllocError) -> DeclFault {
        DeclFault::OutOfMemory
    }
}

impl<T: Drop> From<AllocFailed<T>> for DeclFault {
    ghost from_gives = { λ _ e. e ≡ OutOfMemory };

    fn from(_error: AllocFailed<T>) -> DeclFault {
        DeclFault::OutOfMemory
    }
}

impl From<OutOfMemory> for DeclFault {
    ghost from_gives = { λ _ e. e ≡ OutOfMemory };

    fn from(_error: OutOfMemory) -> DeclFault {
        DeclFault::OutOfMemory
    }
}
