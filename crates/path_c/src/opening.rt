//! Opening and closing, operations by their names, and the audit of texts.

ghost use Rattle.std.specs.Prelude.{◌≡◌, ◌≢◌, ◌<◌, ◌⊎◌, ℕ, length, map, true, false, slice_get, Some, Contains};
ghost use Rattle.std.specs.Prelude.{IfOk, IfErr, IfSome, IfNone, pos};
ghost use Rattle.std.specs.Str.{IsUtf8};
ghost use Rattle.path_service.specs.Services.{IsOpened, IsServiceFault};
ghost use Rattle.path_c.specs.Answers.{already_open, opened};
ghost use Rattle.path_c.specs.Calls.{IsJudged, IsUnjudged, IsUnopened};

use crate::answer::{CodedAnswer, judged, plainly, unjudged, unopened};
use crate::codes;
use crate::handle::Handle;
use crate::texts::{put_front, put_words};
use path_model::OpId;
use path_service::{Service, ServiceFault, audit_text};
use std::alloc::Global;

/// A service of a declaration's text, which keeps its lines or gives each up.
fn service_of(alloc: Global, text: &[u8], room: u32, keeps: bool) -> Result<Service, ServiceFault>
    ensures ok { IfOk result (λ service. (service.keeps ≡ keeps) × IsOpened text.now room service.account) }
    ensures err { IfErr result (IsServiceFault text.now room) }
{
    if keeps {
        Service::open(alloc, text, room)
    } else {
        Service::open_without_journal(alloc, text, room)
    }
}

/// The same in a box.
fn boxed(
    alloc: Global,
    text: &[u8],
    room: u32,
    keeps: bool,
) -> Result<Box<Service, Global>, ServiceFault>
    ensures ok { IfOk result (λ b. (b.value.keeps ≡ keeps) × IsOpened text.now room b.value.account) }
    ensures err { IfErr result (IsServiceFault text.now room) }
{
    let service = service_of(alloc, text, room, keeps)?;
    match Box::new(alloc, service) {
        Ok(service) => Ok(service),
        Err(_) => Err(ServiceFault::OutOfMemory),
    }
}

/// Opens a closed handle: a service of the declaration in this text, with this room, which keeps its lines or not. Without them the room
/// is that of what is live. The message says in words why nothing was opened, as far as it fits, and ends with a zero byte.
#[unsafe(no_mangle)]
pub extern "C" fn path_c_open(
    alloc: Global,
    handle: &mut Handle,
    text: &[u8],
    room: u32,
    keeps: bool,
    message: &mut [u8],
) -> CodedAnswer
    ensures opened { result ≡ opened → (handle.old.live ≡ false) × (handle.new.live ≡ true)
        × (handle.new.held.service.keeps ≡ keeps) × IsOpened text.now room handle.new.held.service.account }
    ensures already { handle.old.live ≡ true → result ≡ already_open }
    ensures unopened { handle.old.live ≡ false → result ≢ opened → IsUnopened text.now room result }
    ensures kept { result ≢ opened → handle.new ≡ handle.old }
    ensures message { 0 < length message.old → Contains message.new 0 }
{
    if handle.is_live() {
        put_front(message, b"already open");
        return plainly(codes::ALREADY_OPEN);
    }
    match boxed(alloc, text, room, keeps) {
        Ok(service) => {
            handle.put(service);
            put_front(message, b"");
            plainly(codes::OPENED)
        }
        Err(fault) => {
            put_words(alloc, message, fault);
            unopened(fault)
        }
    }
}

/// A number, or -1.
fn number_or_less(op: Option<OpId>) -> i64
    ensures some { IfSome op (λ a. result ≡ pos a.0) }
    ensures none { IfNone op ((n : ℕ) → result ≢ pos n) }
{
    match op {
        Some(op) => i64::from(op.0),
        None => -1,
    }
}

/// The number of the operation with this name; -1 where none is declared, or the handle is closed.
#[unsafe(no_mangle)]
pub extern "C" fn path_c_operation(alloc: Global, handle: &mut Handle, name: &[u8]) -> i64
    ensures live { handle.new.live ≡ handle.old.live }
    ensures kept { handle.old.live ≡ true → handle.new.held.service ≡ handle.old.held.service }
    ensures closed { handle.old.live ≡ false → (n : ℕ) → result ≢ pos n }
    ensures found { handle.old.live ≡ true → (n : ℕ) → result ≡ pos n
        → slice_get (map (λ o. o.name) handle.old.held.service.account.declaration.operations) n ≡ Some name.now }
    ensures missing { handle.old.live ≡ true → IsUtf8 name.now → ((n : ℕ) → result ≢ pos n)
        → Contains (map (λ o. o.name) handle.old.held.service.account.declaration.operations) name.now → ⊥ }
{
    match handle.take(alloc) {
        None => number_or_less(None),
        Some(service) => {
            let found = service.operation(name);
            handle.put(service);
            number_or_less(found)
        }
    }
}

/// Closes a handle: all its memory is given back, whatever is live. A closed handle stays so.
#[unsafe(no_mangle)]
pub extern "C" fn path_c_close(alloc: Global, handle: &mut Handle)
    ensures { handle.new.live ≡ false }
{
    drop(handle.take(alloc));
}

/// Replays the journal in a text under the declaration in another. The message says in words why there is no verdict, as far as it
/// fits, and ends with a zero byte.
#[unsafe(no_mangle)]
pub extern "C" fn path_c_audit(
    alloc: Global,
    text: &[u8],
    room: u32,
    journal: &[u8],
    message: &mut [u8],
) -> CodedAnswer
    ensures told { IsJudged text.now room journal.now result ⊎ IsUnjudged text.now room journal.now result }
    ensures message { 0 < length message.old → Contains message.new 0 }
{
    match audit_text(alloc, text, room, journal) {
        Ok(verdict) => {
            put_front(message, b"");
            judged(verdict)
        }
        Err(refusal) => {
            put_words(alloc, message, refusal);
            unjudged(refusal)
        }
    }
}
