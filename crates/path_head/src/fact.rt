//! What a head says of a state, one fact a line: what is in progress, what stands behind a `;`, and what devices contain.

ghost use Rattle.std.specs.Prelude.{◌≡◌, ◌≢◌, ◌<◌, ℕ, List, length, IfSome, IfNone};
ghost use Rattle.path_model.specs.declared.journal.Activation.{Activation};
ghost use Rattle.path_head.specs.declared.fact.Fact.{Fact};
ghost use Rattle.path_head.specs.declared.fact.Stand.{Stand};
ghost use Rattle.path_head.specs.declared.fact.Contained.{Contained};
ghost use Rattle.path_head.specs.HeadTexts.{live_rest, stand_rest, contained_rest, fact_before};
ghost use Rattle.path_head.specs.HeadTexts.{LiveFits, StandFits, ContainedFits, FactFits};

use crate::number::number_before;
use path_decl::Decl;
use path_fields::{strip, until};
use path_lines::declared;
use path_model::{ActId, Activation, PathId, ResId};
use std::alloc::Allocator;

/// So many executions stand behind a `;` of a path: their left operand is over, and their right one hasn't begun.
#[derive(Clone, Copy, Debug, PartialEq, Eq)]
pub struct Stand {
    /// How many.
    pub number: u64,
    /// Which `;`, counted from 0 in the order of the path's text.
    pub place: u32,
    /// Which path.
    pub path: PathId,
}

/// One of the numbers that the device of a resource contains.
#[derive(Clone, Copy, Debug, PartialEq, Eq)]
pub struct Contained {
    /// The resource.
    pub resource: ResId,
    /// The number.
    pub number: u64,
}

/// A fact of a state.
#[derive(Clone, Copy, Debug, PartialEq, Eq)]
pub enum Fact {
    /// `live N W OP`: an operation is in progress.
    Live(Activation),
    /// `stands N at K of path P`.
    Stands(Stand),
    /// `contains R N`: a device of several numbers has a line for each, in order.
    Contains(Contained),
}

/// What is in progress, by the rest of its line.
fn live_line<'a, A: Allocator + Copy>(
    decl: &Decl<A>,
    text: &'a [u8],
) -> Option<(Activation, &'a [u8])>
    ensures some { IfSome result (λ p. (text.now ≡ live_rest decl.now.declaration p.0 p.1.now) × LiveFits decl.now.declaration p.0) }
    ensures none { IfNone result ((a : Activation) (rest : List ℕ) → LiveFits decl.now.declaration a
        → text.now ≢ live_rest decl.now.declaration a rest) }
{
    let (act, rest) = number_before(text, u64::MAX, b" ")?;
    let (worker, rest) = number_before(rest, 4_294_967_295, b" ")?;
    let (name, rest) = until(rest, b'\n');
    let op = declared(decl, name)?;
    let rest = strip(rest, b"\n")?;
    let activation = Activation {
        act: ActId(act),
        worker: worker as u32,
        op,
    };
    Some((activation, rest))
}

/// What stands behind a `;`, by the rest of its line.
fn stand_line(text: &[u8]) -> Option<(Stand, &[u8])>
    ensures some { IfSome result (λ p. (text.now ≡ stand_rest p.0 p.1.now) × StandFits p.0) }
    ensures none { IfNone result ((s : Stand) (rest : List ℕ) → StandFits s → text.now ≢ stand_rest s rest) }
{
    let (number, rest) = number_before(text, u64::MAX, b" at ")?;
    let (place, rest) = number_before(rest, 4_294_967_295, b" of path ")?;
    let (path, rest) = number_before(rest, 4_294_967_295, b"\n")?;
    let stand = Stand {
        number,
        place: place as u32,
        path: PathId(path as u32),
    };
    Some((stand, rest))
}

/// What a device contains, by the rest of its line.
fn contained_line(text: &[u8]) -> Option<(Contained, &[u8])>
    ensures some { IfSome result (λ p. (text.now ≡ contained_rest p.0 p.1.now) × ContainedFits p.0) }
    ensures none { IfNone result ((c : Contained) (rest : List ℕ) → ContainedFits c → text.now ≢ contained_rest c rest) }
{
    let (resource, rest) = number_before(text, 4_294_967_295, b" ")?;
    let (number, rest) = number_before(rest, u64::MAX, b"\n")?;
    let contained = Contained {
        resource: ResId(resource as u32),
        number,
    };
    Some((contained, rest))
}

/// The fact of the first line of a text, and what follows the line.
pub(crate) fn first_fact<'a, A: Allocator + Copy>(
    decl: &Decl<A>,
    text: &'a [u8],
) -> Option<(Fact, &'a [u8])>
    ensures some { IfSome result (λ p. (text.now ≡ fact_before decl.now.declaration p.0 p.1.now) × FactFits decl.now.declaration p.0) }
    ensures shorter { IfSome result (λ p. length p.1.now < length text.now) }
    ensures none { IfNone result ((f : Fact) (rest : List ℕ) → FactFits decl.now.declaration f
        → text.now ≢ fact_before decl.now.declaration f rest) }
{
    if let Some(rest) = strip(text, b"live ") {
        let (activation, rest) = live_line(decl, rest)?;
        return Some((Fact::Live(activation), rest));
    }
    if let Some(rest) = strip(text, b"stands ") {
        let (stand, rest) = stand_line(rest)?;
        return Some((Fact::Stands(stand), rest));
    }
    let rest = strip(text, b"contains ")?;
    let (contained, rest) = contained_line(rest)?;
    Some((Fact::Contains(contained), rest))
}
