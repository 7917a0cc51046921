//! What a crash has left of a file, and how its end is repaired.

ghost use Rattle.std.specs.Prelude.{◌≡◌, ◌≢◌, ◌⊎◌, ◌≤◌, ◌++◌, [], List, ℕ, take, length, OnOk, IfOk, IfErr};
ghost use Rattle.std.specs.Bool.{OnTrue, OnFalse};
ghost use Rattle.std.specs.String.{string_bytes};
ghost use Rattle.path_model.specs.declared.journal.Line.{Line};
ghost use Rattle.path_model.specs.Rooms.{IsRoom};
ghost use Rattle.path_journal.specs.declared.version.Version.TheVariants.{Three};
ghost use Rattle.path_journal.specs.CutTexts.{front_of};
ghost use Rattle.path_store.specs.Devices.{IsImage, Cut, Only, LeavesOnly, IsUntouched};
ghost use Rattle.path_store.specs.Stores.{Finds, FindsSome, IsTornBy, IsFile, IsRecovered};
ghost use Rattle.path_store.specs.Faults.{IsNoStore, IsOpenFault, IsRefusal};

use crate::device::{Device, DeviceFault};
use crate::fault::StoreFault;
use path_decl::Decl;
use path_journal::{Version, read_cut, write_kept_head};
use path_model::{Line, OutOfMemory};
use std::alloc::Allocator;

/// The first line of a store's file, with its line feed.
fn front<B: Allocator + Copy>(alloc: B, room: u32) -> Result<String<B>, OutOfMemory>
    requires { IsRoom room }
    ensures { IfOk result (λ text. string_bytes text ≡ front_of (Three room)) }
{
    let mut text = write_kept_head(alloc, room)?;
    text.push_str("\n")?;
    Ok(text)
}

/// Whether a crash may have left these bytes of what was written: each is there or is zero, and the end may be missing.
fn is_image(written: &[u8], left: &[u8]) -> bool
    ensures yes { OnTrue result (IsImage written.now left.now) }
    ensures no { OnFalse result (IsImage written.now left.now → ⊥) }
{
    if left.len() > written.len() {
        return false;
    }
    for at in 0..left.len() {
        if left[at] != written[at] && left[at] != 0 {
            return false;
        }
    }
    true
}

/// Whether a crash may have left these bytes of what was written, and not all of them.
fn is_torn(written: &[u8], left: &[u8]) -> bool
    ensures yes { OnTrue result (IsImage written.now left.now × (left.now ≢ written.now)) }
    ensures no { OnFalse result (IsImage written.now left.now → left.now ≡ written.now) }
{
    left != written && is_image(written, left)
}

/// Whether this is the version of a store, with this room.
fn is_of_room(version: Version, room: u32) -> bool
    ensures yes { OnTrue result (version ≡ Three room) }
    ensures no { OnFalse result (version ≡ Three room → ⊥) }
{
    match version {
        Version::Three(named) => named == room,
        _ => false,
    }
}

/// Leaves the first `size` bytes of a file that has `count`, all of them on the disk.
fn repair<D: Device>(device: &mut D, count: usize, size: usize) -> Result<(), DeviceFault>
    ensures holds { (b : List ℕ) → D.holds device.old b → count ≡ length b → size ≤ count → OnOk result (D.holds device.new (take size b)) }
    ensures only { (b : List ℕ) → D.holds device.old b → count ≡ length b → size ≤ count
        → OnOk result (Only (take size b) (D.may_leave device.new)) }
    ensures cause { IfErr result (λ fault. D.fails_with device.new fault) }
    ensures any_moment { (b : List ℕ) → D.holds device.old b → count ≡ length b → size ≤ count
        → LeavesOnly D.moment D.left_since device.old device.new (λ c. D.may_leave device.old c ⊎ Cut size b c) }
{
    // What was read may not be on the disk yet.
    device.sync()?;
    if size < count {
        device.cut(size)?;
        device.sync()?;
    }
    Ok(())
}

/// Writes the first line of a file that is empty.
fn begin<D: Device>(device: &mut D, front: &[u8]) -> Result<(), DeviceFault>
    ensures holds { D.holds device.old [] → OnOk result (D.holds device.new front.now) }
    ensures only { D.holds device.old [] → OnOk result (Only front.now (D.may_leave device.new)) }
    ensures cause { IfErr result (λ fault. D.fails_with device.new fault) }
    ensures any_moment { D.holds device.old [] → Only [] (D.may_leave device.old)
        → LeavesOnly D.moment D.left_since device.old device.new (IsImage front.now) }
{
    device.append(front)?;
    device.sync()
}

/// What was found in a file.
#[derive(Drop)]
pub struct Recovered<B: Allocator + Copy> {
    /// Its lines.
    pub lines: Vec<Line, B>,
    /// How many bytes it has now.
    pub length: usize,
    /// How many bytes were cut off.
    pub cut: usize,
}

/// Reads the lines of a file that a crash may have left, and repairs its end.
pub fn recover<A: Allocator + Copy, B: Allocator + Copy, D: Device>(
    alloc: B,
    decl: &Decl<A>,
    room: u32,
    device: &mut D,
) -> Result<Recovered<B>, StoreFault>
    requires { IsRoom room }
    ensures found { (b : List ℕ) → D.holds device.old b → IfOk result (λ r. Finds decl.now.declaration room b r.lines.items) }
    ensures cut { (b : List ℕ) → D.holds device.old b → IfOk result (λ r. IsTornBy decl.now.declaration room b r.lines.items r.cut) }
    ensures fault { (b : List ℕ) → D.holds device.old b
        → IfErr result (λ e. IsOpenFault decl.now.declaration room b (D.fails_with device.new) e) }
    ensures refused { IfErr result (λ e. IsRefusal e → IsUntouched D.holds D.may_leave D.moment D.left_since device.old device.new) }
    ensures other { (b : List ℕ) → D.holds device.old b → IsNoStore decl.now.declaration room b
        → IsUntouched D.holds D.may_leave D.moment D.left_since device.old device.new }
    ensures lines { (synced fresh : List Line) → IsFile D.holds D.may_leave decl.now.declaration room device.old synced fresh
        → IfOk result (λ r. r.lines.items ≡ synced ++ fresh) }
    ensures recovered { (synced fresh : List Line) → IsFile D.holds D.may_leave decl.now.declaration room device.old synced fresh
        → IfOk result (λ r. IsRecovered D.holds D.may_leave decl.now.declaration room device.new (synced ++ fresh) r.length) }
    ensures any_moment { (synced fresh : List Line) → IsFile D.holds D.may_leave decl.now.declaration room device.old synced fresh
        → LeavesOnly D.moment D.left_since device.old device.new (FindsSome decl.now.declaration room synced fresh) }
{
    let text = device.read(alloc)?;
    let front = front(alloc, room)?;
    if is_torn(front.as_bytes(), &text) {
        repair(device, text.len(), 0)?;
        begin(device, front.as_bytes())?;
        return Ok(Recovered {
            lines: Vec::new(alloc),
            length: front.len(),
            cut: text.len(),
        });
    }
    let journal = read_cut(alloc, decl, &text)?;
    if !is_of_room(journal.version, room) {
        return Err(StoreFault::OtherHead);
    }
    repair(device, text.len(), journal.bytes)?;
    Ok(Recovered {
        lines: journal.lines,
        length: journal.bytes,
        cut: text.len() - journal.bytes,
    })
}
