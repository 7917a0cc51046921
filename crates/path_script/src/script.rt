//! Scripts, their processes and steps.

ghost use Rattle.path_script.specs.Scripts.{LawfulScript};
ghost use Rattle.path_script.specs.Known.{LawfulScript-prop};

use path_model::{OpId, Verb};
use std::alloc::{Allocator, Global};
use std::marker::Model;

/// One step of a process.
#[derive(Clone, Copy, Debug, PartialEq, Eq)]
pub enum Step {
    /// It enters an operation.
    Enter(OpId),
    /// It uses the device of what it entered last and hasn't left.
    Apply(Verb),
    /// It leaves what it entered last and hasn't left.
    Leave,
}

/// A process: a name, which others may have too, and its steps in order. Contracts see its `name` and `steps`.
#[derive(Drop)]
pub struct Process<A: Allocator + Copy = Global> {
    pub(crate) name: String<A>,
    pub(crate) steps: Vec<Step, A>,
}

impl<A: Allocator + Copy> Model for Process<A> {
    ghost use Rattle.std.specs.String.{string_bytes};
    ghost use Rattle.path_script.specs.Scripts.{Plan};
    ghost use Rattle.path_script.specs.Known.{plan_code};

    ghost Value = { Plan };

    ghost coded = { plan_code };

    ghost view = { λ p. record { name = string_bytes p.name; steps = p.steps.items } };
}

impl<A: Allocator + Copy> Process<A> {
    ghost use Rattle.std.specs.Prelude.{◌≡◌};

    /// The process's name. Takes constant time, as do all methods of this module.
    pub fn name(&self) -> &str
        ensures { result.now ≡ self.now.name }
    {
        self.name.as_str()
    }

    /// The process's steps, in order.
    pub fn steps(&self) -> &[Step]
        ensures { result.now ≡ self.now.steps }
    {
        self.steps.as_slice()
    }
}

/// A script: at most 16 processes, with at most 4,096 steps in all. Each process uses and leaves only what it has entered, enters at
/// most 16 operations at once, and at the end has left all. Contracts see the processes in order, and what always holds of them as
/// `lawful`.
#[derive(Drop)]
pub struct Script<A: Allocator + Copy = Global> {
    pub(crate) processes: Vec<Process<A>, A>,
    ghost lawful: { LawfulScript processes.items } by { LawfulScript-prop _ },
}

impl<A: Allocator + Copy> Model for Script<A> {
    ghost use Rattle.path_script.specs.Known.{KnownScript, known_code};

    ghost Value = { KnownScript };

    ghost coded = { known_code };

    ghost view = { λ s. record { processes = s.processes.items; lawful = s.lawful } };
}

impl<A: Allocator + Copy> Script<A> {
    ghost use Rattle.std.specs.Prelude.{◌≡◌};

    /// The processes, in the order of the text; the index of each is its number.
    pub fn processes(&self) -> &[Process<A>]
        ensures { result.now ≡ self.now.processes }
    {
        self.processes.as_slice()
    }
}
