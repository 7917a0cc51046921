//! An auditor judges the segments of a journal, one after another.

ghost use Rattle.std.specs.Prelude.{◌≡◌, ◌≢◌, ◌↔◌, ◌<◌, ◌++◌, ◌∷◌, [], ℕ, List, IsTrue, IfOk, IfErr, OnOk, MatchOption, length, map};
ghost use Rattle.path_model.specs.declared.journal.Line.{Line};
ghost use Rattle.path_model.specs.declared.journal.Reply.TheVariants as replies;
ghost use Rattle.path_model.specs.Declarations as declarations;
ghost use Rattle.path_model.specs.Devices.{Fits};
ghost use Rattle.path_audit.specs.declared.auditor.AuditFault.TheVariants as faults;
ghost use Rattle.path_audit.specs.declared.auditor.JudgeFault.TheVariants as judge_faults;
ghost use Rattle.path_audit.specs.Verdicts.{AllFit, IsAuditable, IsAuditFault, IsFirstMisfit};
ghost use Rattle.path_audit.specs.Judged.{HasJudged, IsExamined, IsJudgeFault};

use crate::replay::Replay;
use path_decl::{Decl, counts, law_of};
use path_gate::Gate;
use path_model::{Activation, Law, Line, OutOfMemory, Reply, ResId, is_room};
use std::alloc::{Allocator, Global};
use std::marker::Model;
use thiserror::Error;

/// Why a journal can't be audited.
#[derive(Clone, Copy, Debug, PartialEq, Eq, Error)]
pub enum AuditFault {
    /// The room is 0 or above 1,048,576 lines.
    #[error("bad room")]
    BadRoom,
    /// The number of openings isn't the number of resources.
    #[error("wrong count")]
    WrongCount,
    /// This resource is the first whose opening doesn't fit its law.
    #[error("bad opening {}", .0.0)]
    BadOpening(ResId),
    /// An allocation failed.
    #[error("out of memory")]
    OutOfMemory,
}

impl From<OutOfMemory> for AuditFault {
    ghost from_gives = { λ _ e. e ≡ faults.OutOfMemory };

    fn from(_error: OutOfMemory) -> AuditFault {
        AuditFault::OutOfMemory
    }
}

/// Why an auditor doesn't go on behind a segment.
#[derive(Clone, Copy, Debug, PartialEq, Eq, Error)]
pub enum JudgeFault {
    /// This line of the segment, counted from 0, is the first that is wrong.
    #[error("wrong line {0}")]
    WrongLine(u32),
    /// An allocation failed.
    #[error("out of memory")]
    OutOfMemory,
}

impl From<OutOfMemory> for JudgeFault {
    ghost from_gives = { λ _ e. e ≡ judge_faults.OutOfMemory };

    fn from(_error: OutOfMemory) -> JudgeFault {
        JudgeFault::OutOfMemory
    }
}

/// The law of a declared resource.
fn law_at<A: Allocator + Copy>(decl: &Decl<A>, resource: ResId) -> Law
    requires { resource.0 < length decl.now.declaration.resources }
    ensures { result ≡ declarations.law_of decl.now.declaration resource.0 }
{
    law_of(decl, resource).unwrap()
}

/// Whether a device of this law may contain these numbers.
fn fits<A: Allocator + Copy>(law: Law, numbers: &Vec<u64, A>) -> bool
    ensures { IsTrue result ↔ Fits law numbers.now.items }
{
    match law {
        Law::Cell | Law::Tally => numbers.len() == 1,
        Law::Queue(capacity) => numbers.len() <= capacity as usize,
    }
}

/// The first resource whose opening doesn't fit its law, if there is one. There is one opening for each resource.
fn first_misfit<A: Allocator + Copy>(decl: &Decl<A>, openings: &[Vec<u64, A>]) -> Option<ResId>
    requires { length openings.now ≡ length decl.now.declaration.resources }
    ensures { MatchOption result (AllFit decl.now.declaration (map (λ opening. opening.items) openings.now))
        (λ r. IsFirstMisfit decl.now.declaration (map (λ opening. opening.items) openings.now) r.0) }
{
    for (i, opening) in openings.iter().enumerate() {
        let resource = ResId(i as u32);
        if !fits(law_at(decl, resource), opening) {
            return Some(resource);
        }
    }
    None
}

/// Whether a line has the reply that is owed. `NoRoom` never counts as right in a line.
fn is_told(owed: Reply, told: Reply) -> bool
    ensures { IsTrue result ↔ ((owed ≡ told) × (told ≢ replies.NoRoom)) }
{
    owed == told && !matches!(told, Reply::NoRoom)
}

/// An auditor of a journal: it judges one segment after another, in order. Contracts see what it replayed so far.
#[derive(Drop)]
pub struct Auditor<A: Allocator + Copy = Global> {
    replay: Replay<A>,
    room: u32,
}

impl<A: Allocator + Copy> Model for Auditor<A> {
    ghost use Rattle.std.specs.Coded.{codes};
    ghost use Rattle.path_gate.specs.Standings.{standing_code};
    ghost use Rattle.path_audit.specs.Judged.{AuditorValue};

    ghost Value = { AuditorValue };

    ghost coded = { Prim.hlevel (codes, standing_code) };

    ghost view = { λ a. record { replay = a.replay; room = a.room } };
}

/// The first wrong line of a segment.
#[derive(Clone, Copy, Debug, PartialEq, Eq)]
pub struct Wrong {
    /// Its number in the segment, counted from 0.
    pub line: u32,
    /// The reply that was owed to its attempt.
    pub owed: Reply,
}

/// A segment that was replayed to its end, or up to and with the attempt of its first wrong line as it should have been answered.
/// Contracts see how things stand then.
#[derive(Drop)]
pub struct Examined<A: Allocator + Copy = Global> {
    replay: Replay<A>,
    room: u32,
    wrong: Option<Wrong>,
}

impl<A: Allocator + Copy> Model for Examined<A> {
    ghost use Rattle.std.specs.Coded.{codes};
    ghost use Rattle.path_gate.specs.Standings.{standing_code};
    ghost use Rattle.path_audit.specs.Judged.{ExaminedValue};

    ghost Value = { ExaminedValue };

    ghost coded = { Prim.hlevel (codes, standing_code) };

    ghost view = { λ e. record { replay = e.replay; room = e.room; wrong = e.wrong } };
}

impl<A: Allocator + Copy> Examined<A> {
    /// The first wrong line, and the reply that was owed to it; `None` if all lines are right. Takes constant time.
    pub fn wrong(&self) -> Option<Wrong>
        ensures { result ≡ self.now.wrong }
    {
        self.wrong
    }

    /// The gate behind the right lines and the first wrong one as it should have been answered. Takes constant time.
    pub fn gate(&self) -> &Gate<A>
        ensures { result.now ≡ self.now.replay.present.standing }
    {
        self.replay.gate()
    }

    /// What is live there, in the order of the starts. Fails only if allocation fails. The cost is a look at each activation.
    pub fn live(&self, alloc: A) -> Result<Vec<Activation, A>, OutOfMemory>
        ensures { IfOk result (λ live. live.items ≡ self.now.replay.present.register.live) }
    {
        self.replay.live(alloc)
    }
}

impl<A: Allocator + Copy> Auditor<A> {
    /// An auditor that has judged no line, for segments that each have this room, 1 to [`MOST_LINES`](path_model::MOST_LINES), over
    /// resources that opened with these contents, a list for each.
    ///
    /// Fails with `BadRoom` if the room is outside that range, else with `WrongCount` if there isn't one opening for each resource, else
    /// with `BadOpening(r)` if r is the first resource whose opening doesn't fit its law: one number for a cell or a tally, at most as many
    /// as its capacity for a queue. Else fails only if allocation fails. The cost is that of opening a gate, and of the openings.
    pub fn open(
        alloc: A,
        decl: &Decl<A>,
        room: u32,
        openings: &[Vec<u64, A>],
    ) -> Result<Auditor<A>, AuditFault>
        ensures opened { IfOk result (λ auditor.
            HasJudged auditor decl.now.declaration (map (λ opening. opening.items) openings.now) []) }
        ensures room { IfOk result (λ auditor. auditor.room ≡ room) }
        ensures auditable { OnOk result (IsAuditable decl.now.declaration room (map (λ opening. opening.items) openings.now)) }
        ensures fault { IfErr result (IsAuditFault decl.now.declaration room (map (λ opening. opening.items) openings.now)) }
    {
        if !is_room(room) {
            return Err(AuditFault::BadRoom);
        }
        if openings.len() != counts(decl).resources as usize {
            return Err(AuditFault::WrongCount);
        }
        if let Some(resource) = first_misfit(decl, openings) {
            return Err(AuditFault::BadOpening(resource));
        }
        let replay = Replay::open(alloc, decl, openings)?;
        Ok(Auditor { replay, room })
    }

    /// Replays one more segment, under the declaration that the auditor was opened with, up to its first wrong line: the reply that is
    /// owed to that line's attempt is told, and how things stand as if it had been given. What is right is said at
    /// [`judge`](Auditor::judge).
    ///
    /// Fails only if allocation fails. The cost is that of [`judge`](Auditor::judge).
    pub fn examine(self, decl: &Decl<A>, lines: &[Line]) -> Result<Examined<A>, OutOfMemory>
        requires { (openings : List (List ℕ)) × (segments : List (List Line)) × HasJudged self decl.now.declaration openings segments }
        ensures found { IfOk result (λ examined. (openings : List (List ℕ)) (segments : List (List Line))
            → HasJudged self decl.now.declaration openings segments
            → IsExamined examined decl.now.declaration openings segments lines.now) }
        ensures room { IfOk result (λ examined. examined.room ≡ self.room) }
    {
        let Auditor { mut replay, room } = self;
        for (n, line) in lines.iter().enumerate() {
            let place = n as u32;
            let owed = replay.answer(decl, room, place, *line)?;
            if !is_told(owed, line.reply) {
                let wrong = Some(Wrong { line: place, owed });
                return Ok(Examined {
                    replay,
                    room,
                    wrong,
                });
            }
        }
        Ok(Examined {
            replay,
            room,
            wrong: None,
        })
    }

    /// Judges one more segment, under the declaration that the auditor was opened with. The auditor goes on behind it if and only if each
    /// reply was owed by the lines of all segments before and by those before it in its own, and none is `NoRoom`. `DeviceFailed` is right
    /// in a line wherever the device's law would have served, and then nothing was served. Only the lines of a segment take its room, and
    /// what is live.
    ///
    /// Fails with `WrongLine(n)` if line n of the segment is the first that is wrong, and else only if allocation fails. Reads the lines
    /// once, and each costs what it cost the system: a look at the paths of its operation for a start or a finish, and a look-up by number
    /// for a use.
    pub fn judge(self, decl: &Decl<A>, lines: &[Line]) -> Result<Auditor<A>, JudgeFault>
        requires { (openings : List (List ℕ)) × (segments : List (List Line)) × HasJudged self decl.now.declaration openings segments }
        ensures right { IfOk result (λ next. (openings : List (List ℕ)) (segments : List (List Line))
            → HasJudged self decl.now.declaration openings segments
            → HasJudged next decl.now.declaration openings (segments ++ lines.now ∷ [])) }
        ensures room { IfOk result (λ next. next.room ≡ self.room) }
        ensures wrong { IfErr result (λ fault. (openings : List (List ℕ)) (segments : List (List Line))
            → HasJudged self decl.now.declaration openings segments
            → IsJudgeFault decl.now.declaration self.room openings segments lines.now fault) }
    {
        let Examined {
            replay,
            room,
            wrong,
        } = self.examine(decl, lines)?;
        match wrong {
            None => Ok(Auditor { replay, room }),
            Some(wrong) => Err(JudgeFault::WrongLine(wrong.line)),
        }
    }
}
