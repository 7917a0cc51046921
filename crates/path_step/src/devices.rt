//! Who serves a use.

ghost use Rattle.std.specs.Prelude.{◌<◌, length, IfOk};
ghost use Rattle.path_model.specs.Devices.{outcome_of};
ghost use Rattle.path_step.specs.Steps.{IsTold, Serves, held_at};

use path_model::{Law, Reply, ResId, Verb};

/// What serves the uses of resources. Contracts see what each resource contains.
pub trait Devices: Drop {
    ghost use Rattle.std.specs.Prelude.{ℕ, List};
    ghost use Rattle.path_model.specs.declared.journal.Reply.{Reply};
    ghost use Rattle.path_model.specs.declared.journal.Verb.{Verb};
    ghost use Rattle.path_model.specs.declared.resource.Law.{Law};

    ghost contents: { Self → List (List ℕ) };

    // The resource of this number has this law.
    ghost has_law: { Self → ℕ → Law → Type 0 };

    // What else is known when the resource of this number was asked for the verb, and this was its reply.
    ghost asked: { Self → ℕ → Verb → Reply → Self → Type 0 };

    /// Why a use isn't served at all.
    type Fault;

    /// Lets a resource of this law serve the verb: the reply is `Used`, `DeviceFailed` although the law would serve, or the law's refusal,
    /// and in these last two cases the contents stay. The other resources don't change. After a fault nothing is known of the contents.
    fn act(&mut self, law: Law, resource: ResId, verb: Verb) -> Result<Reply, Self::Fault>
        requires within { resource.0 < length (contents self.old) }
        requires law { has_law self.old resource.0 law }
        ensures serves { IfOk result (λ reply. Serves law resource.0 verb (contents self.old) reply (contents self.new)) }
        ensures asked { IfOk result (λ reply. asked self.old resource.0 verb reply self.new) };

    /// What `act` would reply now unless the device failed: `Used`, or the law's refusal. Changes nothing.
    fn foretell(&self, law: Law, resource: ResId, verb: Verb) -> Reply
        requires within { resource.0 < length (contents self.now) }
        requires law { has_law self.now resource.0 law }
        ensures { IsTold (outcome_of law verb (held_at (contents self.now) resource.0)) result };
}
