//! A file in memory, on a disk that may crash.

ghost use Rattle.std.specs.Prelude.{◌≡◌, ◌⊎◌, true, [], ◌∷◌, ◌++◌, length, drop, OnOk, OnErr, IfOk, IfErr};
ghost use Rattle.std.proofs.Common.{inl};
ghost use Rattle.tests_store.specs.Memory.{FailsWith, IsLeftOf, HadBeen, only_left};

use path_store::{Device, DeviceFault};
use std::alloc::{Allocator, Global};

/// The bytes of a file: those on the disk, and those written since.
#[derive(Drop)]
pub struct State {
    pub kept: Vec<u8>,
    pub fresh: Vec<u8>,
}

/// A file in memory, on a disk that may crash at any moment. It keeps each state that it had, and fails after so many calls.
#[derive(Drop)]
pub struct MemoryFile {
    alloc: Global,
    state: State,
    past: Vec<State>,
    calls: u64,
    failed: bool,
}

impl MemoryFile {
    /// A file with these bytes, all of them on the disk; it fails after `calls` calls.
    pub fn new(alloc: Global, bytes: Vec<u8>, calls: u64) -> MemoryFile {
        MemoryFile {
            alloc,
            state: State {
                kept: bytes,
                fresh: Vec::new(alloc),
            },
            past: Vec::new(alloc),
            calls,
            failed: false,
        }
    }

    /// The bytes that are on the disk.
    pub fn kept(&self) -> &[u8] {
        &self.state.kept
    }

    /// The bytes that were written since.
    pub fn fresh(&self) -> &[u8] {
        &self.state.fresh
    }

    /// How often it was changed.
    pub fn changes(&self) -> usize {
        self.past.len()
    }

    // Counts a call, or fails.
    fn called(&mut self) -> Result<(), DeviceFault>
        ensures now { self.new.state ≡ self.old.state }
        ensures past { self.new.past ≡ self.old.past }
        ensures failed { IfErr result (λ fault. FailsWith self.new.failed fault) }
    {
        if self.calls == 0 {
            self.failed = true;
            return Err(DeviceFault::Failed);
        }
        self.calls -= 1;
        Ok(())
    }

    // All the bytes.
    fn all(&self) -> Result<Vec<u8>, DeviceFault>
        ensures bytes { IfOk result (λ v. v.items ≡ self.now.state.kept.items ++ self.now.state.fresh.items) }
        ensures memory { IfErr result (λ fault. fault ≡ DeviceFault.OutOfMemory) }
    {
        let mut bytes = self.state.kept.to_vec(self.alloc)?;
        bytes.extend_from_slice(&self.state.fresh)?;
        Ok(bytes)
    }

    // Counts a call and goes over to another state, or fails; remembers the last state.
    fn change(&mut self, kept: Vec<u8>, fresh: Vec<u8>) -> Result<(), DeviceFault>
        ensures kept { OnOk result (self.new.state.kept.items ≡ kept.items) }
        ensures fresh { OnOk result (self.new.state.fresh.items ≡ fresh.items) }
        ensures past { OnOk result ((s : _) × (s.kept.items ≡ self.old.state.kept.items) × (s.fresh.items ≡ self.old.state.fresh.items)
            × (self.new.past.items ≡ self.old.past.items ++ s ∷ [])) }
        ensures same { OnErr result ((self.new.state ≡ self.old.state) × (self.new.past.items ≡ self.old.past.items)) }
        ensures failed { IfErr result (λ fault. FailsWith self.new.failed fault) }
    {
        let last = State {
            kept: self.state.kept.to_vec(self.alloc)?,
            fresh: self.state.fresh.to_vec(self.alloc)?,
        };
        self.called()?;
        self.past.push(last)?;
        self.state = State { kept, fresh };
        Ok(())
    }
}

impl Device for MemoryFile {
    ghost holds = { λ m b. b ≡ m.state.kept.items ++ m.state.fresh.items };

    ghost may_leave = { λ m c. IsLeftOf m.state.kept.items m.state.fresh.items c };

    ghost moment = { λ m. length m.past.items };

    ghost left_since = { λ m t c. IsLeftOf m.state.kept.items m.state.fresh.items c ⊎ HadBeen (drop t m.past.items) c };

    ghost fails_with = { λ m fault. FailsWith m.failed fault };

    ghost counts_now = { λ m t c le now. inl now };

    ghost only_now = { λ m c left. only_left m.past.items m.state.kept.items m.state.fresh.items c left };

    fn read<B: Allocator + Copy>(&mut self, alloc: B) -> Result<Vec<u8, B>, DeviceFault> {
        self.called()?;
        let mut bytes = self.state.kept.to_vec(alloc)?;
        bytes.extend_from_slice(&self.state.fresh)?;
        Ok(bytes)
    }

    fn front<B: Allocator + Copy>(
        &mut self,
        alloc: B,
        size: usize,
    ) -> Result<Vec<u8, B>, DeviceFault> {
        let mut bytes = self.read(alloc)?;
        bytes.truncate(size);
        Ok(bytes)
    }

    fn append(&mut self, bytes: &[u8]) -> Result<(), DeviceFault> {
        let kept = self.state.kept.to_vec(self.alloc)?;
        let mut fresh = self.state.fresh.to_vec(self.alloc)?;
        fresh.extend_from_slice(bytes)?;
        self.change(kept, fresh)?;
        Ok(())
    }

    fn cut(&mut self, size: usize) -> Result<(), DeviceFault> {
        let mut kept = self.all()?;
        kept.truncate(size);
        self.change(kept, Vec::new(self.alloc))?;
        Ok(())
    }

    fn sync(&mut self) -> Result<(), DeviceFault> {
        let kept = self.all()?;
        self.change(kept, Vec::new(self.alloc))?;
        Ok(())
    }
}
