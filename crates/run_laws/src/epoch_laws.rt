ghost use Rattle.std.specs.Prelude.{List};
ghost use Rattle.locus_ids.specs.declared.config.Config.{Config};
ghost use Rattle.schedule_lines.specs.declared.line.ScheduleLine.{ScheduleLine};
ghost use Rattle.the_run.specs.Runs.{run_in};
ghost use Rattle.run_laws.specs.Epochs.Known.{IdsAreKnown, PollsNameTheirReceiver, RoundsWait};

/// After every schedule each id of an epoch that a packet names, or that a running site has promised last, is of a boot that
/// its initiator has had; where the initiator still runs in that boot, it has promised no lower id. So the id of a new round is
/// new: no packet names it, and no site has promised it.
pub fn ids_are_known()
    ensures { (c : Config) (lines : List ScheduleLine) → IdsAreKnown (run_in c lines) }
{}

/// After every schedule a running site with an undecided round has promised just its id, which is its own in this boot. It is
/// in no epoch, it polls others alone, in boots that these have had, and some answer hasn't come.
pub fn rounds_wait()
    ensures { (c : Config) (lines : List ScheduleLine) → RoundsWait (run_in c lines) }
{}

/// After every schedule each poll that was sent is by the initiator that its id names, in that boot, and to a boot that its
/// receiver has had; and each refusal is by an id whose number isn't lower.
pub fn polls_name_their_receiver()
    ensures { (c : Config) (lines : List ScheduleLine) → PollsNameTheirReceiver (run_in c lines) }
{}
