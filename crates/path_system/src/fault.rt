//! Why a system can't be opened, why a device can't be replaced, and why a line isn't taken over.

ghost use Rattle.std.specs.Prelude.{◌≡◌};
ghost use Rattle.path_system.specs.declared.fault.OpenFault.TheVariants as faults;
ghost use Rattle.path_system.specs.Faults.{as_open_fault};

use path_model::{OutOfMemory, Reply, ResId};
use path_shelf::ShelfFault;
use thiserror::Error;

/// Why a system can't be opened.
#[derive(Clone, Copy, Debug, PartialEq, Eq, Error)]
pub enum OpenFault {
    /// The room is 0 or above 1,048,576 lines.
    #[error("bad room")]
    BadRoom,
    /// The number of devices isn't the number of resources.
    #[error("wrong count")]
    WrongCount,
    /// This resource is the first whose device has another law.
    #[error("wrong device {number}", number = .0.0)]
    WrongDevice(ResId),
    /// An allocation failed.
    #[error("out of memory")]
    OutOfMemory,
}

impl From<OutOfMemory> for OpenFault {
    ghost from_gives = { λ _ e. e ≡ faults.OutOfMemory };

    fn from(_error: OutOfMemory) -> OpenFault {
        OpenFault::OutOfMemory
    }
}

impl From<ShelfFault> for OpenFault {
    ghost from_gives = { λ fault e. e ≡ as_open_fault fault };

    fn from(fault: ShelfFault) -> OpenFault {
        match fault {
            ShelfFault::WrongCount => OpenFault::WrongCount,
            ShelfFault::WrongDevice(resource) => OpenFault::WrongDevice(resource),
        }
    }
}

/// Why the device of a resource can't be replaced.
#[derive(Clone, Copy, Debug, PartialEq, Eq, Error)]
pub enum ReplaceFault {
    /// An activation of the resource is live.
    #[error("busy")]
    Busy,
    /// A line of the journal has asked the resource's device.
    #[error("used")]
    Used,
    /// The new device has another law than the resource.
    #[error("other law")]
    OtherLaw,
}

/// Why a line that another answered isn't taken over.
#[derive(Clone, Copy, Debug, PartialEq, Eq)]
pub enum TakeFault {
    /// This reply was owed, and not that of the line.
    NotOwed(Reply),
    /// The line is right, but its device failed now.
    DeviceFailed,
}

/// Why a system doesn't go on behind a journal.
#[derive(Clone, Copy, Debug, PartialEq, Eq)]
pub enum ResumeFault {
    /// It can't be opened.
    Open(OpenFault),
    /// This line, counted from 0, is the first that isn't taken over.
    Line(u32, TakeFault),
}
