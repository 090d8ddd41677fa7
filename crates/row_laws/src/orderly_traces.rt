ghost use Rattle.std.specs.Prelude.{List};
ghost use Rattle.schedule_lines.specs.declared.line.ScheduleLine.{ScheduleLine};
ghost use Rattle.schedule_lines.specs.Schedule.{AreInOrder};
ghost use Rattle.the_run.specs.Runs.{run};
ghost use Rattle.lawful_trace.specs.Orderly.{LeavesAreOwn, OrderlyBlocksForm};
ghost use Rattle.row_laws.specs.Shown.{trace_of};
ghost use Rattle.row_laws.specs.OrderlyRows.Fits.{EachFits};
ghost use Rattle.row_laws.specs.OrderlyRows.Agreeing.{IsWithin, OrderlyBlocksAgree};

/// In an orderly schedule whose lines name sites of its cluster alone, and whose run passes no limit, each line by which a site
/// starts to part or merge has its epoch by the end of its block's round: the chosen set of the line is in one epoch of the
/// line's site, whose members are exactly these with their boots, and the other sites asked are in none; and all is quiet.
pub fn orderly_blocks_agree()
    ensures { (lines : List ScheduleLine) → EachFits lines → IsWithin lines → OrderlyBlocksAgree lines }
{}

/// So do the records tell it, of a schedule whose lines are in order and whose run passes no limit: by the end of its block's
/// round the chosen set of the line is in one epoch of the line's site, whose members are exactly these with their boot numbers,
/// and the other sites asked are in none.
pub fn orderly_blocks_form()
    ensures { (lines : List ScheduleLine) → AreInOrder lines → IsWithin lines → OrderlyBlocksForm lines (trace_of (run lines)) }
{}

/// And so it tells who leaves: in an orderly schedule whose lines are in order and whose run passes no limit, a site leaves its
/// epoch only by its own line that has it give up, part or merge, or in the round that ends a block in which it is polled.
pub fn leaves_are_own()
    ensures { (lines : List ScheduleLine) → AreInOrder lines → IsWithin lines → LeavesAreOwn lines (trace_of (run lines)) }
{}
