//! What a search of all schedules of a script tells of its runs. The function does nothing: its `ensures` clause is the law.

ghost use Rattle.search_foretold.specs.Foretold.{RunsEndAsForetold};

/// Where every schedule of a script ends done, so does each process of a run of it, unless something that no schedule knows of ended one.
pub fn runs_end_as_foretold()
    ensures { RunsEndAsForetold }
{}
