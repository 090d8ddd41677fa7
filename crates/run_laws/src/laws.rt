ghost use Rattle.std.specs.Prelude.{List};
ghost use Rattle.locus_ids.specs.declared.config.Config.{Config};
ghost use Rattle.schedule_lines.specs.declared.line.ScheduleLine.{ScheduleLine};
ghost use Rattle.the_run.specs.Runs.{run_in};
ghost use Rattle.run_laws.specs.Standing.{EpochsGoOn, JoinsRise};
ghost use Rattle.run_laws.specs.Naming.{PacketsNameTheirEpoch, StepsNameTheirEpoch};

/// After every schedule each promise, join and leave in the trace was lawful when it was told: in no epoch a site promises
/// an id above all that it has promised since its boot; it joins the one that it promised last, once, and leaves no epoch
/// but that which it is in.
pub fn epochs_go_on()
    ensures { (c : Config) (lines : List ScheduleLine) → EpochsGoOn (run_in c lines).trace }
{}

/// After every schedule, of two joins of a site in one boot the later one is of a greater id.
pub fn joins_rise()
    ensures { (c : Config) (lines : List ScheduleLine) → JoinsRise (run_in c lines).trace }
{}

/// After every schedule each packet that was sent names the epoch that it speaks of: a poll and a promise an id that its
/// sender has promised, a refusal one whose number isn't above that of the id for which it was refused, and any other an
/// epoch that its sender has joined.
pub fn packets_name_their_epoch()
    ensures { (c : Config) (lines : List ScheduleLine) → PacketsNameTheirEpoch (run_in c lines) }
{}

/// After every schedule, what a running site sends in its next event names the epoch that it is in or that it joins in this
/// event, and a poll or a promise names the id that it promised last or that it promises in this event.
pub fn steps_name_their_epoch()
    ensures { (c : Config) (lines : List ScheduleLine) → StepsNameTheirEpoch c (run_in c lines) }
{}
