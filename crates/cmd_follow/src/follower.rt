//! One line after the other.

ghost use Rattle.std.specs.Prelude.{◌≡◌, ◌++◌, false, [], None, List, IfErr, OnOk};
ghost use Rattle.std.specs.Io.KnownBytes.{Appends};
ghost use Rattle.path_model.specs.declared.journal.Line.{Line};
ghost use Rattle.path_fields.specs.Splits.{HasNone};
ghost use Rattle.path_shelf.specs.States.{MayFail};
ghost use Rattle.cmd_follow.specs.Inner.Taken.{Leaves, Passes, Stopped, StoppedLine, Takes};
ghost use Rattle.cmd_follow.specs.Stops.{IsWriting};

use crate::answer::{Answered, answer};
use crate::keeper::Keeper;
use crate::stop::Stop;
use path_decl::Decl;
use path_fields::cut;
use path_lines::{LIMIT, LineFault, fault_at};
use path_shelf::Device;
use path_system::Controller;
use std::alloc::Allocator;
use std::io::Write;
use tell_base::{Fault, Status, tell};
use tell_places::{TextKind, push_finding, text_finding};

/// How places in the input name it.
const INPUT: &str = "standard input";

/// A system that answers the lines of an input.
#[derive(Drop)]
pub struct Follower<D: Device, A: Allocator + Copy> {
    /// The answer to the present line; its memory serves for the next.
    told: Vec<u8, A>,
    /// How many lines there were; stops at 4,294,967,295.
    number: u32,
    /// Whether a line was refused.
    pub refused: bool,
    /// Last, because a controller keeps its declaration last.
    pub system: Controller<D, A>,
}

/// Writes all of an answer, and flushes it.
fn send<O: Write>(out: &mut O, told: &[u8]) -> Result<(), Stop>
    ensures ok { OnOk result (Appends (O.contents out.old) (O.contents out.new) told.now) }
    ensures err { IfErr result (λ stop. IsWriting stop) }
{
    if let Err(error) = out.write_all(told) {
        return Err(Stop::of_writing(&error));
    }
    match out.flush() {
        Ok(()) => Ok(()),
        Err(error) => Err(Stop::of_writing(&error)),
    }
}

/// Where a line with this fault stops being an attempt, as [`push_finding`] says it; its number counts from 0. `None` if there is no
/// memory to say it.
fn place_in<A: Allocator + Copy>(
    alloc: A,
    decl: &Decl<A>,
    number: u32,
    line: &[u8],
    fault: LineFault,
) -> Option<String<A>> {
    let found = text_finding(alloc, decl, TextKind::Attempts, line, fault_at(0, fault));
    let mut finding = found.ok()??;
    finding.spot.line = finding.spot.line.saturating_add(number as usize);
    let mut place = String::new(alloc);
    push_finding(&mut place, INPUT, &finding).ok()?;
    Some(place)
}

/// Tells on `err` that the line of this number, counted from 0, is refused, and below that where it stops being an attempt. Where there
/// is no memory to say that, it is left out.
fn refuse<A: Allocator + Copy, E: Write>(
    alloc: A,
    decl: &Decl<A>,
    number: u32,
    line: &[u8],
    fault: LineFault,
    err: &mut E,
) -> Result<(), Stop>
    ensures { IfErr result (λ stop. IsWriting stop) }
{
    if tell(err, Fault::Text(fault_at(number, fault))) == Status::StreamFailed {
        return Err(Stop::Quiet);
    }
    let Some(place) = place_in(alloc, decl, number, line, fault) else {
        return Ok(());
    };
    match write!(err, "{place}") {
        Ok(()) => Ok(()),
        Err(_) => Err(Stop::Quiet),
    }
}

impl<D: Device, A: Allocator + Copy> Follower<D, A> {
    /// A follower of an input of which nothing was read. Allocates nothing.
    pub fn new(alloc: A, system: Controller<D, A>) -> Follower<D, A>
        ensures system { result.system ≡ system }
        ensures none { result.refused ≡ false }
    {
        Follower {
            told: Vec::new(alloc),
            number: 0,
            refused: false,
            system,
        }
    }

    /// Answers one line on `out`, or tells on `err` why it is refused. A line of the journal is kept before.
    pub fn take_line<K: Keeper, O: Write, E: Write>(
        &mut self,
        alloc: A,
        keeper: &mut K,
        line: &[u8],
        out: &mut O,
        err: &mut E,
    ) -> Result<(), Stop>
        requires first { self.old.system.opened ≡ None }
        requires whole { self.old.system.earlier ≡ [] }
        requires one { HasNone 10 line.now }
        ensures ok { OnOk result (Takes (MayFail D.state) self.old.system self.new.system line.now self.old.refused self.new.refused
            (O.contents out.old) (O.contents out.new)) }
        ensures kept { (first : K) (found : List Line) → K.keeps first keeper.old found self.old.system.journal
            → OnOk result (K.keeps first keeper.new found self.new.system.journal) }
        // What can't be kept isn't answered, and where a write failed the line is kept.
        ensures stopped { IfErr result (λ stop. StoppedLine (MayFail D.state) self.old.system line.now self.old.refused
            (O.contents out.old) (O.contents out.new) stop (Leaves K.keeps K.left keeper.old keeper.new self.old.system.journal)) }
    {
        let number = self.number;
        self.number = number.saturating_add(1);
        match answer(alloc, &mut self.system, line, &mut self.told)? {
            Answered::Line(line) => {
                keeper.keep(line)?;
                send(out, &self.told)
            }
            Answered::Told => send(out, &self.told),
            Answered::Refused(fault) => {
                self.refused = true;
                refuse(alloc, self.system.decl(), number, line, fault, err)
            }
        }
    }

    /// Takes each line that a block of the input ends. `pending` is what the input has before the block, from its last line feed on, and
    /// then what it has behind its last line feed.
    pub fn take_block<K: Keeper, O: Write, E: Write>(
        &mut self,
        alloc: A,
        keeper: &mut K,
        block: &[u8],
        pending: &mut Vec<u8, A>,
        out: &mut O,
        err: &mut E,
    ) -> Result<(), Stop>
        requires first { self.old.system.opened ≡ None }
        requires whole { self.old.system.earlier ≡ [] }
        requires one { HasNone 10 pending.old.items }
        ensures one { OnOk result (HasNone 10 pending.new.items) }
        ensures ok { OnOk result (Passes (MayFail D.state) self.old.system self.new.system (pending.old.items ++ block.now)
            pending.new.items self.old.refused self.new.refused (O.contents out.old) (O.contents out.new)) }
        ensures kept { (first : K) (found : List Line) → K.keeps first keeper.old found self.old.system.journal
            → OnOk result (K.keeps first keeper.new found self.new.system.journal) }
        ensures stopped { IfErr result (λ stop. Stopped (MayFail D.state) self.old.system (pending.old.items ++ block.now) self.old.refused
            (O.contents out.old) (O.contents out.new) stop (Leaves K.keeps K.left keeper.old keeper.new self.old.system.journal)) }
    {
        let mut rest = block;
        while let Some((line, after)) = cut(rest, b'\n') {
            pending.extend_from_slice(line)?;
            self.take_line(alloc, keeper, pending, out, err)?;
            pending.clear();
            rest = after;
        }
        if pending.len().saturating_add(rest.len()) > LIMIT {
            return Err(Stop::TooLong);
        }
        pending.extend_from_slice(rest)?;
        Ok(())
    }
}
