//! Replies that are owed, lines that others answered, and handles that go on behind a journal.

ghost use Rattle.std.specs.Prelude.{◌≡◌, ◌≢◌, ◌<◌, ◌≤◌, length, true, false, Contains, IfOk, IfErr};
ghost use Rattle.path_model.specs.declared.journal.Attempt.TheVariants.{Start, Apply, Finish};
ghost use Rattle.path_service.specs.Taken.{IsResumeRefusal, IsResumed};
ghost use Rattle.path_c.specs.Answers.{already_open, closed, no_verb, verb_at};
ghost use Rattle.path_c.specs.Calls.{IsVerb};
ghost use Rattle.path_c.specs.Taken.{IsOwedAnswer, IsUnresumed, TakesOver, amount_of, nothing_taken};

use crate::answer::{CodedAnswer, no_journal, plainly, replied, taken_over, unresumed, with};
use crate::calls::verb_of;
use crate::codes;
use crate::handle::Handle;
use crate::texts::{put_front, put_words};
use path_model::{ActId, Attempt, OpId, Reply};
use path_service::{ResumeRefusal, Service, TakenText};
use std::alloc::Global;

/// How much of a text was taken over, as `wanzoche.h` has it.
#[repr(C)]
#[derive(Clone, Copy, Debug, PartialEq, Eq)]
pub struct Taken {
    /// How many lines were taken.
    pub lines: u64,
    /// In how many bytes of the text whole lines stand.
    pub bytes: u64,
    /// The reply that is owed to the first line that wasn't taken, if there is one.
    pub owed: CodedAnswer,
}

/// The reply that the service of a handle owes to an attempt.
fn owed(alloc: Global, handle: &mut Handle, worker: u32, attempt: Attempt) -> CodedAnswer
    ensures live { handle.new.live ≡ handle.old.live }
    ensures closed { handle.old.live ≡ false → result ≡ closed }
    ensures kept { handle.old.live ≡ true → handle.new.held.service ≡ handle.old.held.service }
    ensures owed { handle.old.live ≡ true → IsOwedAnswer handle.old.held.service.account worker attempt result }
{
    match handle.take(alloc) {
        None => plainly(codes::CLOSED),
        Some(service) => {
            let reply = service.owed(worker, attempt);
            handle.put(service);
            replied(reply)
        }
    }
}

/// What the start of an operation would be answered.
#[unsafe(no_mangle)]
pub extern "C" fn path_c_owed_start(
    alloc: Global,
    handle: &mut Handle,
    worker: u32,
    operation: u32,
) -> CodedAnswer
    ensures live { handle.new.live ≡ handle.old.live }
    ensures closed { handle.old.live ≡ false → result ≡ closed }
    ensures kept { handle.old.live ≡ true → handle.new.held.service ≡ handle.old.held.service }
    ensures owed { handle.old.live ≡ true
        → IsOwedAnswer handle.old.held.service.account worker (Start (record { 0 = operation })) result }
{
    owed(alloc, handle, worker, Attempt::Start(OpId(operation)))
}

/// What a use would be answered. The verbs are those of a use, and there is no other.
#[unsafe(no_mangle)]
pub extern "C" fn path_c_owed_use(
    alloc: Global,
    handle: &mut Handle,
    worker: u32,
    activation: u64,
    verb: u32,
    number: u64,
) -> CodedAnswer
    ensures live { handle.new.live ≡ handle.old.live }
    ensures closed { handle.old.live ≡ false → verb < 4 → result ≡ closed }
    ensures no_verb { 4 ≤ verb → (result ≡ no_verb) × (handle.new ≡ handle.old) }
    ensures kept { handle.old.live ≡ true → handle.new.held.service ≡ handle.old.held.service }
    ensures owed { handle.old.live ≡ true → IsVerb (verb_at verb number)
        (λ v. IsOwedAnswer handle.old.held.service.account worker (Apply (record { 0 = activation }) v) result) }
{
    match verb_of(verb, number) {
        None => plainly(codes::NO_VERB),
        Some(verb) => owed(
            alloc,
            handle,
            worker,
            Attempt::Apply(ActId(activation), verb),
        ),
    }
}

/// What a finish would be answered.
#[unsafe(no_mangle)]
pub extern "C" fn path_c_owed_finish(
    alloc: Global,
    handle: &mut Handle,
    worker: u32,
    activation: u64,
) -> CodedAnswer
    ensures live { handle.new.live ≡ handle.old.live }
    ensures closed { handle.old.live ≡ false → result ≡ closed }
    ensures kept { handle.old.live ≡ true → handle.new.held.service ≡ handle.old.held.service }
    ensures owed { handle.old.live ≡ true
        → IsOwedAnswer handle.old.held.service.account worker (Finish (record { 0 = activation })) result }
{
    owed(alloc, handle, worker, Attempt::Finish(ActId(activation)))
}

/// How much was taken, as C sees it.
fn amount(taken: TakenText) -> Taken
    ensures { result ≡ amount_of taken }
{
    Taken {
        lines: taken.lines as u64,
        bytes: taken.bytes as u64,
        owed: match taken.owed {
            Some(reply) => replied(reply),
            None => plainly(0),
        },
    }
}

/// Takes over the lines of a journal's text, up to the first that isn't owed.
#[unsafe(no_mangle)]
pub extern "C" fn path_c_take_over(
    alloc: Global,
    handle: &mut Handle,
    text: &[u8],
    taken: &mut Taken,
) -> CodedAnswer
    ensures live { handle.new.live ≡ handle.old.live }
    ensures closed { handle.old.live ≡ false → (result ≡ closed) × (taken.new ≡ nothing_taken) }
    ensures taken { handle.old.live ≡ true
        → TakesOver handle.old.held.service text.now result taken.new handle.new.held.service }
{
    *taken = Taken {
        lines: 0,
        bytes: 0,
        owed: plainly(0),
    };
    match handle.take(alloc) {
        None => plainly(codes::CLOSED),
        Some(mut service) => {
            let told = service.take_text(alloc, text);
            handle.put(service);
            match told {
                Ok(text) => {
                    *taken = amount(text);
                    taken_over(text)
                }
                Err(fault) => no_journal(fault),
            }
        }
    }
}

/// A service that goes on behind a journal, in a box, and in how many bytes the journal stands.
fn boxed(
    alloc: Global,
    text: &[u8],
    room: u32,
    keeps: bool,
    journal: &[u8],
) -> Result<(Box<Service, Global>, usize), ResumeRefusal>
    ensures ok { IfOk result (λ resumed. IsResumed text.now room keeps journal.now resumed.1 resumed.0.value) }
    ensures err { IfErr result (IsResumeRefusal text.now room keeps journal.now) }
{
    let (service, bytes) = Service::resume(alloc, text, room, keeps, journal)?;
    match Box::new(alloc, service) {
        Ok(service) => Ok((service, bytes)),
        Err(_) => Err(ResumeRefusal::OutOfMemory),
    }
}

/// Opens a closed handle behind the journal in a text, which keeps its lines or not. The message says in words why nothing was opened, as
/// far as it fits, and ends with a zero byte.
#[unsafe(no_mangle)]
pub extern "C" fn path_c_resume(
    alloc: Global,
    handle: &mut Handle,
    text: &[u8],
    room: u32,
    keeps: bool,
    journal: &[u8],
    message: &mut [u8],
) -> CodedAnswer
    ensures opened { result.code ≡ 19 → (handle.old.live ≡ false) × (handle.new.live ≡ true)
        × IsResumed text.now room keeps journal.now result.number handle.new.held.service }
    ensures already { handle.old.live ≡ true → result ≡ already_open }
    ensures unresumed { handle.old.live ≡ false → result.code ≢ 19 → IsUnresumed text.now room keeps journal.now result }
    ensures kept { result.code ≢ 19 → handle.new ≡ handle.old }
    ensures message { 0 < length message.old → Contains message.new 0 }
{
    if handle.is_live() {
        put_front(message, b"already open");
        return plainly(codes::ALREADY_OPEN);
    }
    match boxed(alloc, text, room, keeps, journal) {
        Ok((service, bytes)) => {
            handle.put(service);
            put_front(message, b"");
            with(codes::OPENED, bytes as u64)
        }
        Err(refusal) => {
            put_words(alloc, message, refusal);
            unresumed(refusal)
        }
    }
}
