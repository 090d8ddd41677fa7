ghost use Rattle.std.specs.Prelude.{List};
ghost use Rattle.locus_ids.specs.declared.config.Config.{Config};
ghost use Rattle.schedule_lines.specs.Schedule.{AreInOrder};
ghost use Rattle.schedule_lines.specs.declared.line.ScheduleLine.{ScheduleLine};
ghost use Rattle.the_run.specs.Runs.{run};
ghost use Rattle.row_laws.specs.Shown.{trace_of};
ghost use Rattle.row_laws.specs.OrderlyRows.Agreeing.{IsWithin};
ghost use Rattle.promises.specs.Convergence.{CopiesConverge as CopiesConvergeInTrace};
ghost use Rattle.calm_laws.specs.Convergence.Rested.{rested_lines, IsRested};
ghost use Rattle.calm_laws.specs.Convergence.Wanting.{wanting_lines, IsWanting};
ghost use Rattle.promises.specs.Convergence.{NoDirectoryIsFlagged as NoDirectoryIsFlaggedInTrace, UndisturbedWantNoRescue as UndisturbedWantNoRescueInTrace, NoRescueIsWanted as NoRescueIsWantedInTrace};
ghost use Rattle.calm_laws.specs.Convergence.Rounds.{CopiesConverge};
ghost use Rattle.calm_laws.specs.Convergence.Directories.{NoDirectoryIsFlagged, UndisturbedWantNoRescue, NoRescueIsWanted};

/// After two calm rounds with any lines between them, in which an unflagged file is undisturbed, each member in its set holds its only
/// kept version, or had no room for it at some moment of the second. (In the first each member pulls whatever it lags behind whole; the
/// second's ticks notify it of whatever it could adopt, and each notice that comes lets it adopt one.)
pub fn copies_converge()
    ensures { (c : Config) → CopiesConverge c }
{}

/// After a calm round no directory is flagged but one whose mend was refused for want of room or for a count at its end: each event of a
/// synchronization site ends with the mends that may start, and after a calm round no call waits, and no directory is open.
pub fn no_directory_is_flagged()
    ensures { (c : Config) → NoDirectoryIsFlagged c }
{}

/// After two calm rounds of which one stands directly after the other no directory that is undisturbed in both wants a rescue, but for
/// refused mends, and for want of room in the pack of its synchronization site: that site comes to hold the only kept version, and so
/// mends it.
pub fn undisturbed_directories_want_no_rescue()
    ensures { (c : Config) → UndisturbedWantNoRescue c }
{}

/// After three calm rounds that stand directly one after another no directory wants a rescue, but for refused mends, and for want of
/// room in the pack of its synchronization site: a directory that this site doesn't come to hold is undisturbed in the last two, since
/// no call but a mend runs in them, and a mend begins where that site holds the only kept version.
pub fn no_rescue_is_wanted()
    ensures { (c : Config) → NoRescueIsWanted c }
{}

/// In the trace of every run that stays within its limits: after three calm rounds of an epoch with any lines between them, in which
/// nobody has a file open that has one kept version at their end, each member in the file's set has that version on its disk, or had no
/// room for it at some moment of the third.
pub fn copies_converge_in_traces()
    ensures { (lines : List ScheduleLine) → AreInOrder lines → IsWithin lines → CopiesConvergeInTrace lines (trace_of (run lines)) }
{}

/// And so it tells the directories: after a calm round none is flagged of a group of which a member has a pack, but one whose mend was
/// refused in the epoch.
pub fn no_directory_is_flagged_in_traces()
    ensures { (lines : List ScheduleLine) → AreInOrder lines → IsWithin lines → NoDirectoryIsFlaggedInTrace lines (trace_of (run lines)) }
{}

/// So it tells their rescues: after two calm rounds of an epoch of which one stands directly after the other, no directory wants one that
/// nobody has open in them, but one whose mend was refused in the epoch, or for whose only kept version the synchronization site lacked
/// room at some moment of the second.
pub fn undisturbed_directories_want_no_rescue_in_traces()
    ensures { (lines : List ScheduleLine) → AreInOrder lines → IsWithin lines → UndisturbedWantNoRescueInTrace lines (trace_of (run lines)) }
{}

/// After three that stand directly one after another no directory does, whoever has it open, but one whose mend was refused so, or for
/// which that site lacked room in the third.
pub fn no_rescue_is_wanted_in_traces()
    ensures { (lines : List ScheduleLine) → AreInOrder lines → IsWithin lines → NoRescueIsWantedInTrace lines (trace_of (run lines)) }
{}

/// There are such rounds and such files: in this run four rounds are calm, and the first of them makes a file for two sites, which nobody
/// has open in the others.
pub fn some_files_are_at_rest()
    ensures in_order { AreInOrder rested_lines }
    ensures within { IsWithin rested_lines }
    ensures rested { IsRested rested_lines (trace_of (run rested_lines)) }
{}

/// And there are such directories: where a file was removed on one side and changed on the other one, the root of this run wants a rescue
/// at a moment of the round in which the sides meet, and none at its end.
pub fn some_directories_want_a_rescue()
    ensures in_order { AreInOrder wanting_lines }
    ensures within { IsWithin wanting_lines }
    ensures wants { IsWanting wanting_lines (trace_of (run wanting_lines)) }
{}
