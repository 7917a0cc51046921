//! A file as a store sees it.

ghost use Rattle.std.specs.Prelude.{◌≡◌, ◌≤◌, ◌++◌, List, ℕ, length, take, IfOk, IfErr, OnOk};
ghost use Rattle.path_store.specs.declared.device.DeviceFault.{DeviceFault};
ghost use Rattle.path_store.specs.declared.device.DeviceFault.TheVariants.{OutOfMemory};
ghost use Rattle.path_store.specs.Devices.{Torn, Cut, Follows, Only, Elapses};

use std::alloc::{AllocError, AllocFailed, Allocator};
use thiserror::Error;

/// Why a device doesn't do what it was asked.
#[derive(Clone, Copy, Debug, PartialEq, Eq, Error)]
pub enum DeviceFault {
    /// An allocation failed.
    #[error("out of memory")]
    OutOfMemory,
    /// There is no room for more bytes.
    #[error("no space left")]
    Full,
    /// The file couldn't be read, written, cut or synced.
    #[error("the file failed")]
    Failed,
}

impl From<AllocError> for DeviceFault {
    ghost from_gives = { λ _ fault. fault ≡ OutOfMemory };

    fn from(_error: AllocError) -> DeviceFault {
        DeviceFault::OutOfMemory
    }
}

impl<T: Drop> From<AllocFailed<T>> for DeviceFault {
    ghost from_gives = { λ _ fault. fault ≡ OutOfMemory };

    fn from(_error: AllocFailed<T>) -> DeviceFault {
        DeviceFault::OutOfMemory
    }
}

/// A file that grows at its end, on a disk that may crash. A crash leaves what was synced; of each byte written since, it leaves that byte
/// or a zero, and the end may be missing. So do file systems that show no blocks of other files, as ext4, XFS, Btrfs and ZFS do.
/// That a real file is such a device is a premise: no contract can say what a file gives.
pub trait Device {
    /// Whether a read is known to return these bytes.
    ghost holds: { Self → List ℕ → Type 0 };

    /// What a crash at this moment may leave.
    ghost may_leave: { Self → List ℕ → Type 0 };

    /// The moment, as a number that doesn't fall.
    ghost moment: { Self → ℕ };

    /// What a crash at some moment from that one on might have left, during a call or between two.
    ghost left_since: { Self → ℕ → List ℕ → Type 0 };

    /// Whether the last call that failed ended with this fault.
    ghost fails_with: { Self → DeviceFault → Type 0 };

    /// All the bytes.
    fn read<B: Allocator + Copy>(&mut self, alloc: B) -> Result<Vec<u8, B>, DeviceFault>
        ensures bytes { (b : List ℕ) → holds self.old b → IfOk result (λ bytes. bytes.items ≡ b) }
        ensures holds { (b : List ℕ) → holds self.old b → holds self.new b }
        ensures crash { (c : List ℕ) → may_leave self.new c → may_leave self.old c }
        ensures time { Elapses (moment self.old) (moment self.new) (left_since self.old) (left_since self.new) (may_leave self.new) }
        ensures cause { IfErr result (λ fault. fails_with self.new fault) };

    /// The first bytes, so many, or all if there are fewer.
    fn front<B: Allocator + Copy>(
        &mut self,
        alloc: B,
        size: usize,
    ) -> Result<Vec<u8, B>, DeviceFault>
        ensures bytes { (b : List ℕ) → holds self.old b → IfOk result (λ bytes. bytes.items ≡ take size b) }
        ensures holds { (b : List ℕ) → holds self.old b → holds self.new b }
        ensures crash { (c : List ℕ) → may_leave self.new c → may_leave self.old c }
        ensures time { Elapses (moment self.old) (moment self.new) (left_since self.old) (left_since self.new) (may_leave self.new) }
        ensures cause { IfErr result (λ fault. fails_with self.new fault) };

    /// Writes bytes behind the last one. After an error a part of them may stand there.
    fn append(&mut self, bytes: &[u8]) -> Result<(), DeviceFault>
        ensures written { (b : List ℕ) → holds self.old b → OnOk result (holds self.new (b ++ bytes.now)) }
        ensures crash { (b : List ℕ) → holds self.old b → Follows (Torn (length b) bytes.now) (may_leave self.old) (may_leave self.new) }
        ensures time { Elapses (moment self.old) (moment self.new) (left_since self.old) (left_since self.new) (may_leave self.new) }
        ensures cause { IfErr result (λ fault. fails_with self.new fault) };

    /// Cuts the file to its first bytes, so many. It must have as many.
    fn cut(&mut self, size: usize) -> Result<(), DeviceFault>
        ensures cut { (b : List ℕ) → holds self.old b → size ≤ length b → OnOk result (holds self.new (take size b)) }
        ensures crash { (b : List ℕ) → holds self.old b → size ≤ length b → Follows (Cut size) (may_leave self.old) (may_leave self.new) }
        ensures time { Elapses (moment self.old) (moment self.new) (left_since self.old) (left_since self.new) (may_leave self.new) }
        ensures cause { IfErr result (λ fault. fails_with self.new fault) };

    /// Waits until all bytes are on the disk.
    fn sync(&mut self) -> Result<(), DeviceFault>
        ensures durable { (b : List ℕ) → holds self.old b → OnOk result (Only b (may_leave self.new)) }
        ensures holds { (b : List ℕ) → holds self.old b → holds self.new b }
        ensures crash { (c : List ℕ) → may_leave self.new c → may_leave self.old c }
        ensures time { Elapses (moment self.old) (moment self.new) (left_since self.old) (left_since self.new) (may_leave self.new) }
        ensures cause { IfErr result (λ fault. fails_with self.new fault) };

    /// This moment is one of those since an earlier one.
    ghost counts_now: { (file : Self) (t : ℕ) (c : List ℕ) → t ≤ moment file → may_leave file c → left_since file t c };

    /// Since this moment there is no other.
    ghost only_now: { (file : Self) (c : List ℕ) → left_since file (moment file) c → may_leave file c };
}
