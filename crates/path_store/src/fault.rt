//! Why a store can't be opened or go on.

ghost use Rattle.std.specs.Prelude.{◌≡◌};
ghost use Rattle.path_store.specs.declared.fault.StoreFault.TheVariants.{Device, Text, OutOfMemory};

use crate::device::DeviceFault;
use path_lines::TextFault;
use path_model::OutOfMemory;
use thiserror::Error;

/// Why a store can't be opened or go on.
#[derive(Clone, Copy, Debug, PartialEq, Eq, Error)]
pub enum StoreFault {
    /// A line of the file is broken, and it isn't one that a crash left, or the file is too long, or there was no memory for what it
    /// has. Lines count from 0, the head too.
    #[error("{0}")]
    Text(TextFault),
    /// The file doesn't begin with the head of a store with this room.
    #[error("other head")]
    OtherHead,
    /// The device failed.
    #[error("{0}")]
    Device(DeviceFault),
    /// An earlier call failed, so what stands at the end of the file isn't known. Open it again.
    #[error("an earlier call failed")]
    Broken,
    /// With this line the file would be longer than one that can be opened. Nothing was written.
    #[error("too long to be opened again")]
    TooLong,
    /// There was no memory to spell a line.
    #[error("out of memory")]
    OutOfMemory,
}

impl From<DeviceFault> for StoreFault {
    ghost from_gives = { λ fault e. e ≡ Device fault };

    fn from(fault: DeviceFault) -> StoreFault {
        StoreFault::Device(fault)
    }
}

impl From<TextFault> for StoreFault {
    ghost from_gives = { λ fault e. e ≡ Text fault };

    fn from(fault: TextFault) -> StoreFault {
        StoreFault::Text(fault)
    }
}

impl From<OutOfMemory> for StoreFault {
    ghost from_gives = { λ _ e. e ≡ OutOfMemory };

    fn from(_error: OutOfMemory) -> StoreFault {
        StoreFault::OutOfMemory
    }
}
