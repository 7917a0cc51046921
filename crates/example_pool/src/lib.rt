//! A pool of connections: three queries at once, or one backup alone. The rules are one path, and the pool has no other.
#![tactic(auto)]

ghost use Rattle.std.specs.Prelude.{◌≡◌, ◌≢◌, ◌↔◌, ◌⊎◌, ◌<◌, ◌≤◌, ◌++◌, ◌∷◌, [], IsOk};
ghost use Rattle.std.specs.Prelude.{IfOk, OnOk, IfErr, OnErr, IsErrOf};
ghost use Rattle.path_model.specs.declared.ids.ActId.{ActId};
ghost use Rattle.path_model.specs.declared.ids.PathId.{PathId};
ghost use Rattle.path_model.specs.declared.journal.Reply.TheVariants as replies;
ghost use Rattle.path_model.specs.Journals.{admitted_history, begun_in, live, without};
ghost use Rattle.path_model.specs.Refusals.{StandsAgainst};
ghost use Rattle.path_model.specs.JournalGuarantees.{Follows};
ghost use Rattle.example_pool.specs.Pool.{Holds, connection, IsPoolDeclaration, KeepsLimits, backup, backups, pool_tree, queries, query};
ghost use Rattle.example_pool.specs.declared.Refusal.TheVariants as refusals;

use path_decl::Decl;
use path_model::{ActId, Attempt, OpId, OutOfMemory, Reply};
use path_read::read_constant;
use path_shelf::Tally;
use path_system::{Controller, OpenFault};
use std::alloc::Global;
use std::marker::Model;

/// What the pool declares.
const TEXT: &[u8] =
    b"resource pool tally operation query, backup path { query : 3 } , backup end end";

/// Three connections that are in use, and two places for the next start.
const ROOM: u32 = 5;

/// Leave to use a connection, until the ticket is checked in.
#[derive(Drop)]
pub struct Ticket {
    /// Who has it.
    pub worker: u32,
    /// Its number.
    pub act: ActId,
}

/// Why a worker gets no connection.
#[derive(Clone, Copy, Debug, PartialEq, Eq)]
pub enum Refusal {
    /// Those that are in use stand against it.
    Busy,
    /// 4,294,967,295 tickets were handed out.
    OutOfNumbers,
}

/// A pool. Contracts see the lines of all that was asked of it.
#[derive(Drop)]
pub struct Pool {
    controller: Controller<Tally>,
}

impl Model for Pool {
    ghost use Rattle.std.specs.Prelude.{List};
    ghost use Rattle.path_model.specs.declared.journal.Line.{Line};
    ghost use Rattle.path_system.specs.Accounts.{all_lines};
    ghost use Rattle.example_pool.specs.Pool.{IsPool};

    ghost Value = { List Line };

    ghost view = { λ p. all_lines p.controller };

    ghost invariant = { λ p. IsPool p.controller };
}

/// The declaration of the pool.
#[tactic(auto, unfolding(path_read::specs::Computed::declared_in))]
fn declared(alloc: Global) -> Result<Decl, OutOfMemory>
    ensures { IfOk result (λ d. IsPoolDeclaration d.declaration) }
{
    read_constant(alloc, TEXT)
}

/// What a worker is told of this reply to a start.
fn ticket_of(worker: u32, reply: Reply) -> Result<Ticket, Refusal>
    ensures ticket { IfOk result (λ t. (t.worker ≡ worker) × (reply ≡ replies.Started t.act)) }
    ensures started { (n : ActId) → reply ≡ replies.Started n → IsOk result }
    ensures none { OnErr result ((n : ActId) → reply ≢ replies.Started n) }
    ensures busy { IsErrOf result refusals.Busy → (p : PathId) × (reply ≡ replies.Blocked p) }
    ensures other { IsErrOf result refusals.OutOfNumbers
        → ((n : ActId) → reply ≢ replies.Started n) × ((p : PathId) → reply ≢ replies.Blocked p) }
{
    match reply {
        Reply::Started(act) => Ok(Ticket { worker, act }),
        Reply::Blocked(_) => Err(Refusal::Busy),
        _ => Err(Refusal::OutOfNumbers),
    }
}

/// What a worker is told of this reply to the finish of the ticket.
fn taken_back(ticket: Ticket, reply: Reply) -> Result<(), Ticket>
    ensures ok { IsOk result ↔ (reply ≡ replies.Finished) }
    ensures taken { OnOk result (reply ≡ replies.Finished) }
    ensures back { IfErr result (λ back. (back ≡ ticket) × (reply ≢ replies.Finished)) }
{
    match reply {
        Reply::Finished => Ok(()),
        _ => Err(ticket),
    }
}

impl Pool {
    /// A pool of which nothing was asked.
    pub fn open(alloc: Global) -> Result<Pool, OpenFault>
        ensures { IfOk result (λ pool. pool ≡ []) }
    {
        let decl = declared(alloc)?;
        let mut devices = Vec::new(alloc);
        if devices.push(Tally::new(0)).is_err() {
            drop(decl);
            return Err(OpenFault::OutOfMemory);
        }
        match Controller::open(alloc, decl, devices, ROOM) {
            Ok(controller) => Ok(Pool { controller }),
            Err((fault, _devices)) => Err(fault),
        }
    }

    /// A ticket for the operation. The room counts anew before each start, so it is never used up.
    fn start(&mut self, worker: u32, op: OpId) -> Result<Ticket, Refusal>
        requires { op.0 < 2 }
        ensures before { Follows pool_tree self.old }
        ensures limits { KeepsLimits self.new }
        ensures handed_out { IfOk result (λ t. (t.worker ≡ worker) × (live self.new ≡ live self.old ++ connection worker op t.act ∷ [])) }
        ensures refused { OnErr result (live self.new ≡ live self.old) }
        ensures busy { IsErrOf result refusals.Busy → StandsAgainst pool_tree (admitted_history self.old) op }
        ensures numbers { IsErrOf result refusals.OutOfNumbers → 4294967295 ≤ begun_in self.old }
        ensures free { (StandsAgainst pool_tree (admitted_history self.old) op → ⊥) → begun_in self.old < 4294967295 → IsOk result }
    {
        self.controller.rotate();
        let reply = self.controller.step(worker, Attempt::Start(op));
        ticket_of(worker, reply)
    }

    /// A connection for a query.
    pub fn checkout(&mut self, worker: u32) -> Result<Ticket, Refusal>
        ensures limits { KeepsLimits self.new }
        // The ticket is one more query.
        ensures handed_out { IfOk result (λ t. (t.worker ≡ worker)
            × (live self.new ≡ live self.old ++ connection worker query t.act ∷ [])) }
        ensures refused { OnErr result (live self.new ≡ live self.old) }
        ensures numbers { IsErrOf result refusals.OutOfNumbers → 4294967295 ≤ begun_in self.old }
        // It is busy only while three queries or a backup have connections.
        ensures busy { IsErrOf result refusals.Busy → (queries self.old ≡ 3) ⊎ (0 < backups self.old) }
        // Where neither is so, a connection is handed out, while there are numbers.
        ensures free { queries self.old < 3 → backups self.old ≡ 0 → begun_in self.old < 4294967295 → IsOk result }
    {
        self.start(worker, OpId(0))
    }

    /// All connections, for a backup.
    pub fn backup(&mut self, worker: u32) -> Result<Ticket, Refusal>
        ensures limits { KeepsLimits self.new }
        ensures handed_out { IfOk result (λ t. (t.worker ≡ worker)
            × (live self.new ≡ live self.old ++ connection worker backup t.act ∷ [])) }
        ensures refused { OnErr result (live self.new ≡ live self.old) }
        ensures numbers { IsErrOf result refusals.OutOfNumbers → 4294967295 ≤ begun_in self.old }
        ensures busy { IsErrOf result refusals.Busy → (0 < queries self.old) ⊎ (0 < backups self.old) }
        ensures free { queries self.old ≡ 0 → backups self.old ≡ 0 → begun_in self.old < 4294967295 → IsOk result }
    {
        self.start(worker, OpId(1))
    }

    /// Ends the query or the backup that has this ticket. A ticket that is nobody's comes back.
    pub fn checkin(&mut self, ticket: Ticket) -> Result<(), Ticket>
        ensures limits { KeepsLimits self.new }
        ensures held { IsOk result ↔ Holds self.old ticket.worker ticket.act }
        // Its connection is free again.
        ensures freed { OnOk result (live self.new ≡ without ticket.act (live self.old)) }
        ensures back { IfErr result (λ back. (back ≡ ticket) × (live self.new ≡ live self.old)) }
    {
        self.controller.rotate();
        let reply = self
            .controller
            .step(ticket.worker, Attempt::Finish(ticket.act));
        taken_back(ticket, reply)
    }
}
