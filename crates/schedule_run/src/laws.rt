ghost use Rattle.std.specs.Prelude.{◌≡◌, ℕ, ◌+◌, List, Option, [], ◌∷◌, ◌++◌, length, false};
ghost use Rattle.schedule_lines.specs.Cluster.{config_of};
ghost use Rattle.schedule_lines.specs.Schedule.{has_begun};
ghost use Rattle.schedule_lines.specs.declared.line.Line.{Line};
ghost use Rattle.schedule_lines.specs.declared.line.ScheduleLine.{ScheduleLine};
ghost use Rattle.schedule_lines.specs.declared.line.ScheduleLine.TheVariants.{Event};
ghost use Rattle.the_run.specs.Commands.{Asked};
ghost use Rattle.the_run.specs.Worlds.{first_world};
ghost use Rattle.the_run.specs.Runs.{act, run};
ghost use Rattle.the_run.specs.Asking.{Asks};

/// The run of a schedule with one event line more is that line done in the run of the others.
pub fn runs_grow()
    ensures event { (lines : List ScheduleLine) (e : Line) → run (lines ++ Event e ∷ []) ≡ act (config_of lines) (length lines + 1) e (run lines) }
    ensures quiet { (lines : List ScheduleLine) → has_begun lines ≡ false → run lines ≡ first_world (config_of lines) }
{}

/// Bytes ask one thing.
pub fn lines_ask_one_thing()
    ensures { (bytes : List ℕ) (a b : Option Asked) → Asks bytes a → Asks bytes b → a ≡ b }
{}
