//! How many parts a tree has.

ghost use Rattle.std.specs.Prelude.{◌≡◌, ◌+◌, ◌<◌};
ghost use Rattle.path_model.specs.Trees.{shape};
ghost use Rattle.path_model.specs.Machine.{semicolons, braces};
ghost use Rattle.path_model.specs.Flat.{counted_braces};

use path_model::Expr;
use std::alloc::Allocator;

/// How many `;`, braces and bounds a tree has.
#[derive(Clone, Copy)]
pub struct Parts {
    /// How many `;`.
    pub semicolons: u32,
    /// How many pairs of braces.
    pub braces: u32,
    /// How many pairs of braces have a bound.
    pub bounds: u32,
}

impl Parts {
    /// Those of two trees together.
    fn with(self, other: Parts) -> Parts
        requires semicolons { self.semicolons + other.semicolons < 4294967296 }
        requires braces { self.braces + other.braces < 4294967296 }
        requires bounds { self.bounds + other.bounds < 4294967296 }
        ensures semicolons { result.semicolons ≡ self.semicolons + other.semicolons }
        ensures braces { result.braces ≡ self.braces + other.braces }
        ensures bounds { result.bounds ≡ self.bounds + other.bounds }
    {
        Parts {
            semicolons: self.semicolons + other.semicolons,
            braces: self.braces + other.braces,
            bounds: self.bounds + other.bounds,
        }
    }
}

/// Counts the parts of a tree. The cost is one walk over it.
pub fn parts_of<A: Allocator + Copy>(tree: &Expr<A>) -> Parts
    requires { semicolons (shape tree.now) + braces (shape tree.now) + counted_braces (shape tree.now) < 4294967296 }
    ensures semicolons { result.semicolons ≡ semicolons (shape tree.now) }
    ensures braces { result.braces ≡ braces (shape tree.now) }
    ensures bounds { result.bounds ≡ counted_braces (shape tree.now) }
{
    match tree {
        Expr::Op(_) => Parts {
            semicolons: 0,
            braces: 0,
            bounds: 0,
        },
        Expr::Seq(left, right) => {
            let both = parts_of(left).with(parts_of(right));
            Parts {
                semicolons: both.semicolons + 1,
                braces: both.braces,
                bounds: both.bounds,
            }
        }
        Expr::Alt(left, right) => parts_of(left).with(parts_of(right)),
        Expr::Burst(inner) => {
            let within = parts_of(inner);
            Parts {
                semicolons: within.semicolons,
                braces: within.braces + 1,
                bounds: within.bounds,
            }
        }
        Expr::Counted(inner, _) => {
            let within = parts_of(inner);
            Parts {
                semicolons: within.semicolons,
                braces: within.braces + 1,
                bounds: within.bounds + 1,
            }
        }
    }
}
