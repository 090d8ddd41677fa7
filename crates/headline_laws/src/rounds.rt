//! How rounds end.
ghost use Rattle.std.specs.Prelude.{◌≡◌, List, None};
ghost use Rattle.locus_ids.specs.declared.config.Config.{Config};
ghost use Rattle.schedule_lines.specs.Cluster.{config_of};
ghost use Rattle.schedule_lines.specs.Schedule.{AreInOrder};
ghost use Rattle.schedule_lines.specs.declared.line.ScheduleLine.{ScheduleLine};
ghost use Rattle.the_run.specs.Runs.{run};
ghost use Rattle.headline_laws.specs.Promises.Budgets.{BudgetsWerePassed};
ghost use Rattle.headline_laws.specs.Promises.Delivering.{CalmRoundsDeliverAll};
ghost use Rattle.headline_laws.specs.Promises.Steady.{SteadyRoundsAreCalm, TogetherIsTold};

/// When a round tells that it ended by its budget, more packets than its budget have been sent in the run so far.
pub fn budgets_were_passed()
    ensures { (c : Config) (lines : List ScheduleLine) → BudgetsWerePassed c lines }
{}

/// At the end of a round that is calm by the trace no packet of its epoch is under way, and no other between two of its members.
pub fn calm_rounds_deliver_all()
    ensures { (lines : List ScheduleLine) → AreInOrder lines → (run lines).over ≡ None → CalmRoundsDeliverAll (config_of lines) lines }
{}

/// A round with a budget of 262,144 or more that starts calm is a calm round by its records: at each of its moments the members are up in
/// their boots, in the epoch and reach each other, and it doesn't end by its budget. Being together in the world and being so by the records
/// is one, where the list of the epoch is told.
pub fn steady_rounds_are_calm()
    ensures calm { (lines : List ScheduleLine) → AreInOrder lines → SteadyRoundsAreCalm lines }
    ensures together { (lines : List ScheduleLine) → AreInOrder lines → TogetherIsTold lines }
{}
