//! What follows of a run where nothing is pending.

ghost use Rattle.std.specs.Prelude.{List};
ghost use Rattle.probe_run.specs.declared.rules.PlayRules.{PlayRules};
ghost use Rattle.probe_run.specs.State.{State};
ghost use Rattle.probe_explain.specs.Explained.{RunStep};
ghost use Rattle.probe_explain.specs.NothingPending.{LinesDecide, OnlyLinesComeNext};

/// Where nothing is pending, a search has no move: the next step plays a line.
pub fn only_lines_come_next()
    ensures { (t : PlayRules) → (s : State) → OnlyLinesComeNext t s }
{}

/// Two runs over the same lines come to the same state, where nothing is pending at their lines nor at the end, and each line is played as
/// it is shown.
pub fn lines_decide()
    ensures { (t : PlayRules) → (s : State) → (one : List RunStep) → (other : List RunStep)
        → LinesDecide t s one other }
{}
