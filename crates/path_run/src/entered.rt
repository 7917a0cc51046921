//! What a process has entered and not left.

ghost use Rattle.std.specs.Prelude.{◌≡◌, ◌<◌, ◌∷◌, [], List, length, IfSome, IfNone};
ghost use Rattle.path_model.specs.declared.ids.ActId.{ActId as Act};

use path_model::ActId;
use std::marker::Model;

/// The most activations that a process can have entered at once.
const MOST: usize = 16;

/// The activations that a process has entered and not left. Contracts see them as a list, the last one first.
#[derive(Drop)]
pub struct Entered {
    acts: [ActId; MOST],
    /// The activations are from this index on.
    top: usize,
}

impl Model for Entered {
    ghost use Rattle.std.specs.Prelude.{ℕ, ◌≤◌, List, drop};
    ghost use Rattle.path_model.specs.declared.ids.ActId.{ActId};

    ghost Value = { List ActId };

    ghost view = { λ e. drop e.top e.acts };

    ghost invariant = { λ e. e.top ≤ 16 };
}

impl Entered {
    pub fn none() -> Entered
        ensures { result ≡ [] }
    {
        Entered {
            acts: [ActId(0); MOST],
            top: MOST,
        }
    }

    pub fn push(&mut self, act: ActId)
        requires { length self.old < 16 }
        ensures { self.new ≡ act ∷ self.old }
    {
        self.top -= 1;
        self.acts[self.top] = act;
    }

    /// The activation that was entered last. It stays.
    pub fn last(&self) -> ActId
        requires { 0 < length self.now }
        ensures { (rest : List Act) × (self.now ≡ result ∷ rest) }
    {
        self.acts[self.top]
    }

    /// Removes the activation that was entered last, if there is one.
    pub fn pop(&mut self) -> Option<ActId>
        ensures some { IfSome result (λ act. self.old ≡ act ∷ self.new) }
        ensures none { IfNone result ((self.old ≡ []) × (self.new ≡ [])) }
    {
        if self.top >= MOST {
            return None;
        }
        let act = self.acts[self.top];
        self.top += 1;
        Some(act)
    }
}
