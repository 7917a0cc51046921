//! Segments of a journal that a system takes over.

ghost use Rattle.std.specs.Prelude.{◌≡◌, [], map, IfNone, IfSome};
ghost use Rattle.path_audit.specs.Judged.{IsFirstWrongBehind};
ghost use Rattle.path_system.specs.Accounts.{IsSystem};
ghost use Rattle.tell_journals.specs.Inner.{HasTaken, HasTakenAll, IsFirstWrongOf, IsFresh};

use path_model::Line;
use path_shelf::OwnDevice;
use path_system::Controller;
use std::alloc::Allocator;

/// A line of a journal in files.
#[derive(Clone, Copy, Debug, PartialEq, Eq)]
pub struct Place {
    /// Its file, counted from 0.
    pub file: usize,
    /// Its number in that file, counted from 0 without the head.
    pub line: usize,
}

/// Takes these lines over. Returns the first that the lines before it don't give.
fn take_lines<A: Allocator + Copy>(
    system: &mut Controller<OwnDevice<A>, A>,
    lines: &[Line],
) -> Option<usize>
    requires right { IsSystem system.old }
    requires empty { system.old.journal ≡ [] }
    ensures taken { IfNone result (HasTaken system.old lines.now system.new) }
    ensures wrong { IfSome result (IsFirstWrongBehind system.old.declaration system.old.room system.old.openings system.old.earlier
        lines.now) }
{
    for (n, line) in lines.iter().enumerate() {
        if let Err(_fault) = system.take_over(*line) {
            return Some(n);
        }
    }
    None
}

/// Takes these segments over, one after another; each has all the room. Returns the first line that those before it don't give.
pub fn take_segments<A: Allocator + Copy>(
    system: &mut Controller<OwnDevice<A>, A>,
    segments: &[Vec<Line, A>],
) -> Option<Place>
    requires { IsFresh system.old }
    ensures taken { IfNone result (HasTakenAll system.old (map (λ lines. lines.items) segments.now) system.new) }
    ensures wrong { IfSome result (IsFirstWrongOf system.old (map (λ lines. lines.items) segments.now)) }
{
    for (i, lines) in segments.iter().enumerate() {
        if i > 0 {
            system.rotate();
        }
        if let Some(line) = take_lines(system, lines) {
            return Some(Place { file: i, line });
        }
    }
    None
}
