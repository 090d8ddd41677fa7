ghost use Rattle.std.specs.Prelude.{List};
ghost use Rattle.locus_ids.specs.declared.config.Config.{Config};
ghost use Rattle.schedule_lines.specs.Cluster.{config_of};
ghost use Rattle.schedule_lines.specs.Schedule.{AreInOrder};
ghost use Rattle.schedule_lines.specs.declared.line.ScheduleLine.{ScheduleLine};
ghost use Rattle.the_run.specs.Runs.{run};
ghost use Rattle.the_run.specs.Worlds.{Line};
ghost use Rattle.tree_laws.specs.Printed.{entries};
ghost use Rattle.rest_laws.specs.of_store_laws.OneTree.Rest.{Past};
ghost use Rattle.rest_laws.specs.of_row_laws.Shown.{trace_of};
ghost use Rattle.headline_laws.specs.Boxes.Boxes.{Boxed};

/// In every trace in which messages are put into directories by mail alone and taken out by unlink alone, and no message's file has a commit
/// after its making, each version of each directory shows the messages that were inserted in it or in an ancestor of it and removed in none of
/// these, each once and under its plain name. So a merged box has each message once that was put into one of the boxes and not taken out.
pub fn boxes_merge_by_themselves()
    ensures told { (c : Config) (trace : List Line) → Past c trace → Boxed c (entries trace) }
    ensures runs { (lines : List ScheduleLine) → AreInOrder lines → Boxed (config_of lines) (trace_of (run lines)) }
{}
