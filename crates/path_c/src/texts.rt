//! Texts that are written into a buffer of the caller.

ghost use Rattle.std.specs.Prelude.{◌≡◌, ◌≢◌, ◌<◌, ◌≤◌, length, true, false, Contains};
ghost use Rattle.path_journal.specs.JournalTexts.{lines_text};
ghost use Rattle.path_print.specs.Printed.{printed};
ghost use Rattle.path_system.specs.Accounts.{all_lines};
ghost use Rattle.path_c.specs.Answers.{closed, no_journal, out_of_memory};
ghost use Rattle.path_c.specs.Calls.{IsGiven, IsGivenAs, IsReportGiven, with_text};

use crate::answer::{CodedAnswer, no_text, plainly, with};
use crate::codes;
use crate::handle::Handle;
use std::alloc::Global;
use std::fmt::Display;

/// Writes a text and a zero byte to the front of a buffer that is large enough.
fn put_whole(buffer: &mut [u8], text: &[u8])
    requires { length text.now < length buffer.old }
    ensures { buffer.new ≡ with_text buffer.old text.now }
{
    let (front, back) = buffer.split_at_mut(text.len());
    front.copy_from_slice(text);
    back[0] = 0;
}

/// Writes a text to a buffer, as far as it fits before a zero byte.
pub(crate) fn put_front(buffer: &mut [u8], text: &[u8])
    ensures { 0 < length buffer.old → Contains buffer.new 0 }
{
    if !buffer.is_empty() {
        let fits = text.len().min(buffer.len() - 1);
        put_whole(buffer, &text[..fits]);
    }
}

/// Writes what a fault shows to a buffer, as far as it fits before a zero byte.
pub(crate) fn put_words<T: Display + Drop>(alloc: Global, buffer: &mut [u8], fault: T)
    ensures { 0 < length buffer.old → Contains buffer.new 0 }
{
    match format!(in alloc; "{fault}") {
        Ok(words) => put_front(buffer, words.as_bytes()),
        Err(_) => put_front(buffer, b"out of memory"),
    }
}

/// Writes a text and a zero byte to a buffer, if they fit, and answers with this code and the length of the text.
pub(crate) fn give_as(code: u32, buffer: &mut [u8], text: &[u8]) -> CodedAnswer
    ensures { IsGivenAs code text.now buffer.old result buffer.new }
{
    let length = text.len() as u64;
    if text.len() >= buffer.len() {
        return with(codes::TOO_SMALL, length);
    }
    put_whole(buffer, text);
    with(code, length)
}

/// Writes a text and a zero byte to a buffer, if they fit.
pub(crate) fn give(buffer: &mut [u8], text: &[u8]) -> CodedAnswer
    ensures { IsGiven text.now buffer.old result buffer.new }
{
    give_as(codes::WRITTEN, buffer, text)
}

/// The text of the lines since the last rotation, if they are kept.
#[unsafe(no_mangle)]
pub extern "C" fn path_c_journal(
    alloc: Global,
    handle: &mut Handle,
    buffer: &mut [u8],
) -> CodedAnswer
    ensures live { handle.new.live ≡ handle.old.live }
    ensures kept { handle.old.live ≡ true → handle.new.held.service ≡ handle.old.held.service }
    ensures closed { handle.old.live ≡ false → (result ≡ closed) × (buffer.new ≡ buffer.old) }
    ensures memory { result ≡ out_of_memory → buffer.new ≡ buffer.old }
    ensures unkept { handle.old.live ≡ true → handle.old.held.service.keeps ≡ false
        → (result ≡ no_journal) × (buffer.new ≡ buffer.old) }
    ensures given { handle.old.live ≡ true → handle.old.held.service.keeps ≡ true → result ≢ out_of_memory → IsGiven
        (lines_text handle.old.held.service.account.declaration handle.old.held.service.account.journal) buffer.old result buffer.new }
{
    match handle.take(alloc) {
        None => plainly(codes::CLOSED),
        Some(service) => {
            let text = service.journal_text(alloc);
            handle.put(service);
            match text {
                Ok(text) => give(buffer, text.as_bytes()),
                Err(fault) => no_text(fault),
            }
        }
    }
}

/// The text of a report.
#[unsafe(no_mangle)]
pub extern "C" fn path_c_report(
    alloc: Global,
    handle: &mut Handle,
    buffer: &mut [u8],
) -> CodedAnswer
    ensures live { handle.new.live ≡ handle.old.live }
    ensures kept { handle.old.live ≡ true → handle.new.held.service ≡ handle.old.held.service }
    ensures closed { handle.old.live ≡ false → (result ≡ closed) × (buffer.new ≡ buffer.old) }
    ensures memory { result ≡ out_of_memory → buffer.new ≡ buffer.old }
    ensures given { handle.old.live ≡ true → result ≢ out_of_memory → IsReportGiven
        handle.old.held.service.account.declaration (all_lines handle.old.held.service.account) buffer.old result buffer.new }
{
    match handle.take(alloc) {
        None => plainly(codes::CLOSED),
        Some(service) => {
            let text = service.report_text(alloc);
            handle.put(service);
            match text {
                Ok(text) => give(buffer, text.as_bytes()),
                Err(_) => plainly(codes::OUT_OF_MEMORY),
            }
        }
    }
}

/// The text of the declaration, in one line.
#[unsafe(no_mangle)]
pub extern "C" fn path_c_declaration(
    alloc: Global,
    handle: &mut Handle,
    buffer: &mut [u8],
) -> CodedAnswer
    ensures live { handle.new.live ≡ handle.old.live }
    ensures kept { handle.old.live ≡ true → handle.new.held.service ≡ handle.old.held.service }
    ensures closed { handle.old.live ≡ false → (result ≡ closed) × (buffer.new ≡ buffer.old) }
    ensures memory { result ≡ out_of_memory → buffer.new ≡ buffer.old }
    ensures given { handle.old.live ≡ true → result ≢ out_of_memory
        → IsGiven (printed handle.old.held.service.account.declaration) buffer.old result buffer.new }
{
    match handle.take(alloc) {
        None => plainly(codes::CLOSED),
        Some(service) => {
            let text = service.declaration_text(alloc);
            handle.put(service);
            match text {
                Ok(text) => give(buffer, text.as_bytes()),
                Err(_) => plainly(codes::OUT_OF_MEMORY),
            }
        }
    }
}
