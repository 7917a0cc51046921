//! What a command answers, and how an answer gets into buffers.

ghost use Rattle.std.specs.Prelude.{◌≡◌, ◌≢◌, ◌≤◌, [], length, OnOk, OnErr};
ghost use Rattle.page_answers.specs.Buffers.{IsShort, overlaid};

use std::alloc::Allocator;
use tell_base::Status;

/// The bytes that are set aside for the line of a fault before anything else is allocated. No line of a fault alone is longer.
const LONGEST_FAULT: usize = 64;

/// How a command ended, and the two texts that it wrote.
#[derive(Drop)]
pub struct Answer<A: Allocator> {
    /// How it ended, as the program's exit status.
    pub status: Status,
    /// What the program writes on standard output.
    pub out: Vec<u8, A>,
    /// What the program writes on standard error: a fault in one line or with its place, or nothing.
    pub err: Vec<u8, A>,
}

/// What is answered of a search of all schedules, or of all histories.
#[derive(Drop)]
pub enum SearchAnswer<A: Allocator> {
    /// It ended as other commands do.
    Ended(Answer<A>),
    /// There are more states than were to be looked at, as the answer's `err` says. Its `out` is empty, and its status says nothing.
    Undecided(Answer<A>),
}

/// A buffer is too short for its text.
#[derive(Clone, Copy, Debug, PartialEq, Eq)]
pub struct TooShort;

impl<A: Allocator + Copy> Answer<A> {
    /// An answer that says nothing yet, with memory for a fault; `NoMemory`, and no memory for one, if allocation fails.
    pub(crate) fn blank(alloc: A) -> Answer<A>
        ensures { result.out.items ≡ [] }
    {
        let out = Vec::new(alloc);
        match Vec::with_capacity(alloc, LONGEST_FAULT) {
            Ok(err) => Answer {
                status: Status::Done,
                out,
                err,
            },
            Err(_) => Answer {
                status: Status::NoMemory,
                out,
                err: Vec::new(alloc),
            },
        }
    }
}

impl<A: Allocator> Answer<A> {
    /// The answer of a command that ended so. Its writers are lists, and they fail only if memory runs out: so this is what a
    /// failed stream is here, and then nothing counts as written.
    pub(crate) fn ended(self, status: Status) -> Answer<A>
        ensures kept { status ≢ Status.StreamFailed → (result.status ≡ status) × (result.out.items ≡ self.out.items) }
        ensures failed { status ≡ Status.StreamFailed → (result.status ≡ Status.NoMemory) × (result.out.items ≡ []) }
    {
        let Answer {
            status: _,
            mut out,
            err,
        } = self;
        match status {
            Status::StreamFailed => {
                out.clear();
                Answer {
                    status: Status::NoMemory,
                    out,
                    err,
                }
            }
            _ => Answer { status, out, err },
        }
    }

    /// Copies both texts over the fronts of two buffers. Fails if one of them is too short, and both are then as before. The cost is
    /// that of the texts.
    pub fn fill(&self, out: &mut [u8], err: &mut [u8]) -> Result<(), TooShort>
        ensures out { OnOk result (out.new ≡ overlaid self.now.out.items out.old) }
        ensures err { OnOk result (err.new ≡ overlaid self.now.err.items err.old) }
        ensures fits { OnOk result ((length self.now.out.items ≤ length out.old) × (length self.now.err.items ≤ length err.old)) }
        ensures short { OnErr result (IsShort self.now.out.items self.now.err.items out.old err.old) }
        ensures kept { OnErr result ((out.new ≡ out.old) × (err.new ≡ err.old)) }
    {
        if out.len() < self.out.len() || err.len() < self.err.len() {
            return Err(TooShort);
        }
        overlay(&self.out, out);
        overlay(&self.err, err);
        Ok(())
    }
}

/// Copies a text over the front of a buffer.
fn overlay(text: &[u8], buffer: &mut [u8])
    requires { length text.now ≤ length buffer.old }
    ensures { buffer.new ≡ overlaid text.now buffer.old }
{
    let (front, _) = buffer.split_at_mut(text.len());
    front.copy_from_slice(text);
}
