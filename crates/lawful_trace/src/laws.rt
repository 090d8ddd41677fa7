ghost use Rattle.std.specs.Prelude.{◌≡◌, false, List, [], ◌∷◌, ◌++◌};
ghost use Rattle.disk_calls.specs.of_schedule_lines.declared.line.ScheduleLine.{ScheduleLine};
ghost use Rattle.disk_calls.specs.of_schedule_lines.Cluster.{config_of};
ghost use Rattle.disk_calls.specs.of_schedule_lines.Schedule.{has_begun};
ghost use Rattle.lawful_trace.specs.Growth.{IsNextLine};
ghost use Rattle.tree_model.specs.Folds.{Trace};
ghost use Rattle.lawful_trace.specs.Lawful.{IsConsistent, IsLawful};

/// A trace that is lawful for some schedule is consistent in itself.
pub fn lawful_traces_are_consistent()
    ensures { (lines : List ScheduleLine) (trace : Trace) → IsLawful lines trace → IsConsistent (config_of lines) trace }
{}

/// A trace without records is lawful before the first event. A lawful trace stays so by one line more with the records
/// of that line, where these come as they may after those before and tell what the line must tell.
pub fn lawful_traces_grow()
    ensures start { (lines : List ScheduleLine) → has_begun lines ≡ false → IsLawful lines [] }
    ensures grow { (lines : List ScheduleLine) (trace : Trace) (l : ScheduleLine) (new : Trace) →
        IsLawful lines trace → IsNextLine lines trace l new → IsLawful (lines ++ l ∷ []) (new ++ trace) }
{}
