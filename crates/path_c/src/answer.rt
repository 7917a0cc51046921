//! What a call answers to C: a code and a number.

ghost use Rattle.std.specs.Prelude.{◌≡◌};
ghost use Rattle.path_c.specs.Answers.{declaration_answer, fault_answer, journal_answer, may_answer, next_answer, numbered, plain};
ghost use Rattle.path_c.specs.Answers.{order_answer, refusal_answer, reply_answer, resume_answer, ruling_answer};
ghost use Rattle.path_c.specs.Answers.{script_answer, search_answer, taken_answer, text_answer, verdict_answer};

use crate::codes;
use path_audit::Verdict;
use path_lex::DeclFault;
use path_lines::TextFault;
use path_model::Reply;
use path_order::Ruling;
use path_script::ScriptFault;
use path_service::{
    AuditRefusal, ExploreRefusal, JournalFault, OrderFault, ResumeRefusal, ServiceFault, TakenText,
};
use path_system::StartRefusal;

/// A code of `wanzoche.h`, and the number that it says, or 0.
#[repr(C)]
#[derive(Clone, Copy, Debug, PartialEq, Eq)]
pub struct CodedAnswer {
    /// Which answer.
    pub code: u32,
    /// As of a start that is admitted the activation, and of a fault its place.
    pub number: u64,
}

/// An answer without a number.
pub(crate) fn plainly(code: u32) -> CodedAnswer
    ensures { result ≡ plain code }
{
    CodedAnswer { code, number: 0 }
}

/// An answer with a number.
pub(crate) fn with(code: u32, number: u64) -> CodedAnswer
    ensures { result ≡ numbered code number }
{
    CodedAnswer { code, number }
}

/// The code of a reply.
#[inline(always)]
fn code_of(reply: Reply) -> u32
    ensures { result ≡ (reply_answer reply).code }
{
    match reply {
        Reply::Started(_) => codes::STARTED,
        Reply::Blocked(_) => codes::BLOCKED,
        Reply::UnknownOperation => codes::UNKNOWN_OPERATION,
        Reply::Used(_) => codes::USED,
        Reply::NotOffered => codes::NOT_OFFERED,
        Reply::Empty => codes::EMPTY,
        Reply::Full => codes::FULL,
        Reply::Overflow => codes::OVERFLOW,
        Reply::DeviceFailed => codes::DEVICE_FAILED,
        Reply::Finished => codes::FINISHED,
        Reply::Stale => codes::STALE,
        Reply::NotYours => codes::NOT_YOURS,
        Reply::NoRoom => codes::NO_ROOM,
    }
}

/// The number that a reply says, or 0.
#[inline(always)]
fn number_of(reply: Reply) -> u64
    ensures { result ≡ (reply_answer reply).number }
{
    match reply {
        Reply::Started(act) => act.0,
        Reply::Blocked(path) => u64::from(path.0),
        Reply::Used(number) => number,
        _ => 0,
    }
}

/// The answer of a reply.
#[inline(always)]
pub(crate) fn replied(reply: Reply) -> CodedAnswer
    ensures { result ≡ reply_answer reply }
{
    with(code_of(reply), number_of(reply))
}

/// The answer of whether an operation may start.
pub(crate) fn may(told: Result<(), StartRefusal>) -> CodedAnswer
    ensures { result ≡ may_answer told }
{
    match told {
        Ok(()) => plainly(codes::CAN_START),
        Err(StartRefusal::Blocked(path)) => with(codes::BLOCKED, u64::from(path.0)),
        Err(StartRefusal::UnknownOperation) => plainly(codes::UNKNOWN_OPERATION),
        Err(StartRefusal::NoRoom) => plainly(codes::NO_ROOM),
    }
}

/// The answer where it isn't told who comes next.
fn unordered(fault: OrderFault) -> CodedAnswer
    ensures { result ≡ order_answer fault }
{
    match fault {
        OrderFault::UnknownOperation => plainly(codes::UNKNOWN_OPERATION),
        OrderFault::NoRoom => plainly(codes::NO_ROOM),
        OrderFault::OutOfMemory => plainly(codes::OUT_OF_MEMORY),
    }
}

/// The answer of what becomes of a start.
pub(crate) fn ruled(told: Result<Ruling, OrderFault>) -> CodedAnswer
    ensures { result ≡ ruling_answer told }
{
    match told {
        Ok(Ruling::Goes) => plainly(codes::CAN_START),
        Ok(Ruling::Refused(path)) => with(codes::BLOCKED, u64::from(path.0)),
        Ok(Ruling::Withheld(place)) => with(codes::WITHHELD, place as u64),
        Err(fault) => unordered(fault),
    }
}

/// The answer of who is next.
pub(crate) fn next(told: Result<Option<usize>, OrderFault>) -> CodedAnswer
    ensures { result ≡ next_answer told }
{
    match told {
        Ok(Some(place)) => with(codes::NEXT, place as u64),
        Ok(None) => plainly(codes::NOBODY),
        Err(fault) => unordered(fault),
    }
}

/// The answer of a text that isn't a declaration.
pub(crate) fn undeclared(fault: DeclFault) -> CodedAnswer
    ensures { result ≡ declaration_answer fault }
{
    match fault {
        DeclFault::OutOfMemory => plainly(codes::OUT_OF_MEMORY),
        DeclFault::TooLong => plainly(codes::TOO_LONG),
        DeclFault::BadByte(at) => with(codes::BAD_BYTE, u64::from(at)),
        DeclFault::WordTooLong(at) => with(codes::WORD_TOO_LONG, u64::from(at)),
        DeclFault::NumberTooLong(at) => with(codes::NUMBER_TOO_LONG, u64::from(at)),
        DeclFault::Unexpected(at) => with(codes::UNEXPECTED, u64::from(at)),
        DeclFault::TooDeep(at) => with(codes::TOO_DEEP, u64::from(at)),
        DeclFault::DuplicateResource(at) => with(codes::DUPLICATE_RESOURCE, u64::from(at)),
        DeclFault::DuplicateOperation(at) => with(codes::DUPLICATE_OPERATION, u64::from(at)),
        DeclFault::Undeclared(at) => with(codes::UNDECLARED, u64::from(at)),
        DeclFault::RepeatedName(at) => with(codes::REPEATED_NAME, u64::from(at)),
        DeclFault::NestedBraces(at) => with(codes::NESTED_BRACES, u64::from(at)),
        DeclFault::BadCapacity(at) => with(codes::BAD_CAPACITY, u64::from(at)),
        DeclFault::BadCount(at) => with(codes::BAD_COUNT, u64::from(at)),
        DeclFault::TooMany(at) => with(codes::TOO_MANY, u64::from(at)),
    }
}

/// The answer of a service that can't be opened.
pub(crate) fn unopened(fault: ServiceFault) -> CodedAnswer
    ensures { result ≡ fault_answer fault }
{
    match fault {
        ServiceFault::Declaration(fault) => undeclared(fault),
        ServiceFault::BadRoom => plainly(codes::BAD_ROOM),
        ServiceFault::OutOfMemory => plainly(codes::OUT_OF_MEMORY),
    }
}

/// The answer where there is no text of a journal.
pub(crate) fn no_text(fault: JournalFault) -> CodedAnswer
    ensures { result ≡ text_answer fault }
{
    match fault {
        JournalFault::NotKept => plainly(codes::NO_JOURNAL),
        JournalFault::OutOfMemory => plainly(codes::OUT_OF_MEMORY),
    }
}

/// The answer of a verdict.
pub(crate) fn judged(verdict: Verdict) -> CodedAnswer
    ensures { result ≡ verdict_answer verdict }
{
    match verdict {
        Verdict::Sound => plainly(codes::SOUND),
        Verdict::WrongLine(line) => with(codes::WRONG_LINE, u64::from(line)),
    }
}

/// The answer of a text that isn't a journal.
pub(crate) fn no_journal(fault: TextFault) -> CodedAnswer
    ensures { result ≡ journal_answer fault }
{
    match fault {
        TextFault::TooLong => plainly(codes::JOURNAL_TOO_LONG),
        TextFault::BadLine(line) => with(codes::BAD_LINE, u64::from(line)),
        TextFault::Undeclared(line) => with(codes::UNDECLARED_LINE, u64::from(line)),
        TextFault::OutOfMemory => plainly(codes::OUT_OF_MEMORY),
    }
}

/// The answer of a text without a verdict.
pub(crate) fn unjudged(refusal: AuditRefusal) -> CodedAnswer
    ensures { result ≡ refusal_answer refusal }
{
    match refusal {
        AuditRefusal::Declaration(fault) => undeclared(fault),
        AuditRefusal::Journal(fault) => no_journal(fault),
        AuditRefusal::BadRoom => plainly(codes::BAD_ROOM),
        AuditRefusal::OutOfMemory => plainly(codes::OUT_OF_MEMORY),
    }
}

/// The answer of lines that were taken over.
pub(crate) fn taken_over(taken: TakenText) -> CodedAnswer
    ensures { result ≡ taken_answer taken }
{
    match taken.owed {
        None => with(codes::TAKEN, taken.lines as u64),
        Some(_) => with(codes::WRONG_LINE, taken.lines as u64),
    }
}

/// The answer where nothing goes on behind a journal.
pub(crate) fn unresumed(refusal: ResumeRefusal) -> CodedAnswer
    ensures { result ≡ resume_answer refusal }
{
    match refusal {
        ResumeRefusal::Declaration(fault) => undeclared(fault),
        ResumeRefusal::Journal(fault) => no_journal(fault),
        ResumeRefusal::BadRoom => plainly(codes::BAD_ROOM),
        ResumeRefusal::WrongLine(line, _) => with(codes::WRONG_LINE, line as u64),
        ResumeRefusal::OutOfMemory => plainly(codes::OUT_OF_MEMORY),
    }
}

/// The answer of a text that isn't a script.
fn no_script(fault: ScriptFault) -> CodedAnswer
    ensures { result ≡ script_answer fault }
{
    match fault {
        ScriptFault::TooLong => plainly(codes::SCRIPT_TOO_LONG),
        ScriptFault::BadLine(line) => with(codes::SCRIPT_BAD_LINE, u64::from(line)),
        ScriptFault::Undeclared(line) => with(codes::SCRIPT_UNDECLARED, u64::from(line)),
        ScriptFault::Unbalanced(line) => with(codes::SCRIPT_UNBALANCED, u64::from(line)),
        ScriptFault::TooDeep(line) => with(codes::SCRIPT_TOO_DEEP, u64::from(line)),
        ScriptFault::TooMany(line) => with(codes::SCRIPT_TOO_MANY, u64::from(line)),
        ScriptFault::OutOfMemory => plainly(codes::OUT_OF_MEMORY),
    }
}

/// The answer where no schedules are searched.
pub(crate) fn unsearched(refusal: ExploreRefusal) -> CodedAnswer
    ensures { result ≡ search_answer refusal }
{
    match refusal {
        ExploreRefusal::Declaration(fault) => undeclared(fault),
        ExploreRefusal::Script(fault) => no_script(fault),
        ExploreRefusal::OutOfMemory => plainly(codes::OUT_OF_MEMORY),
    }
}
