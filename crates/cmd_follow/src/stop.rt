//! Why a follow stops before the end of its input.

ghost use Rattle.std.specs.Prelude.{◌≡◌, ◌⊎◌};
ghost use Rattle.cmd_follow.specs.Stops.{IsReading, IsWriting, stop_status};

use crate::keeper::KeepFault;
use path_model::OutOfMemory;
use std::alloc::AllocError;
use std::io::{Error, ErrorKind, Write};
use tell_base::{Fault, Status, tell};

/// How a fault names the input.
const INPUT: &str = "standard input";

/// Why a follow stops before the end of its input.
#[derive(Clone, Copy)]
pub enum Stop {
    /// Nobody reads the output any more, or a refused line can't be told. Nobody is told of it.
    Quiet,
    /// The output can't be written.
    Output,
    /// The input can't be read.
    Unreadable,
    /// A line of the input is too long.
    TooLong,
    /// A line can't be kept.
    Unkept,
    /// An allocation failed.
    OutOfMemory,
}

impl Stop {
    /// Why a block isn't read.
    pub fn of_reading(error: &Error) -> Stop
        ensures { IsReading result }
    {
        match error.kind() {
            ErrorKind::OutOfMemory => Stop::OutOfMemory,
            _ => Stop::Unreadable,
        }
    }

    /// Why an answer isn't written.
    pub fn of_writing(error: &Error) -> Stop
        ensures { IsWriting result }
    {
        match error.kind() {
            ErrorKind::BrokenPipe => Stop::Quiet,
            _ => Stop::Output,
        }
    }
}

impl From<OutOfMemory> for Stop {
    ghost from_gives = { λ _ stop. IsWriting stop → ⊥ };

    fn from(_error: OutOfMemory) -> Stop {
        Stop::OutOfMemory
    }
}

impl From<AllocError> for Stop {
    ghost from_gives = { λ _ stop. IsWriting stop → ⊥ };

    fn from(_error: AllocError) -> Stop {
        Stop::OutOfMemory
    }
}

impl From<KeepFault> for Stop {
    ghost from_gives = { λ _ stop. IsWriting stop → ⊥ };

    fn from(fault: KeepFault) -> Stop {
        match fault {
            KeepFault::Unkept => Stop::Unkept,
            KeepFault::OutOfMemory => Stop::OutOfMemory,
        }
    }
}

/// Tells why a follow stopped, in one line on `err` or not at all, and returns its status; `StreamFailed` if the line can't be written.
pub fn tell_stop<E: Write>(err: &mut E, stop: Stop) -> Status
    ensures { (result ≡ stop_status stop) ⊎ (result ≡ Status.StreamFailed) }
{
    match stop {
        Stop::Quiet | Stop::Unkept => Status::StreamFailed,
        Stop::Output => tell(err, Fault::Unwritable),
        Stop::Unreadable => tell(err, Fault::Unreadable(INPUT)),
        Stop::TooLong => tell(err, Fault::TooLong(INPUT)),
        Stop::OutOfMemory => tell(err, Fault::OutOfMemory),
    }
}
