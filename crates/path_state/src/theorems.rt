//! The laws of states. Each function does nothing: its `ensures` clause is the law.

ghost use Rattle.path_state.specs.Standings.{StandingsTellWhatMayFollow};
ghost use Rattle.path_state.specs.Pasts.{EachStandingHasAPast, EachStandingHasAShortPast};
ghost use Rattle.path_state.specs.Values.{StandingsTellTheValues};
ghost use Rattle.path_state.specs.States.{StatesOweTheSame};

/// Two histories of one path with the same in progress, and the same numbers behind each `;`, allow the same continuations.
pub fn standings_tell_what_may_follow()
    ensures { StandingsTellWhatMayFollow }
{}

/// The values of a path's semaphores follow from what is in progress and how many executions stand behind each `;`.
pub fn standings_tell_the_values()
    ensures { StandingsTellTheValues }
{}

/// A path can stand so exactly if bounds are kept and at most one execution of it is underway: then a history of the path leads there.
pub fn each_standing_has_a_past()
    ensures { EachStandingHasAPast }
{}

/// Wherever a path can stand, it can have come there by a short history: for each execution that is in progress or stands behind a `;`, at
/// most one start of each name.
pub fn each_standing_has_a_short_past()
    ensures { EachStandingHasAShortPast }
{}

/// Behind honest lines with one state the same is owed, for ever.
pub fn states_owe_the_same()
    ensures { StatesOweTheSame }
{}
