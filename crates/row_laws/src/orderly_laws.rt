ghost use Rattle.locus_ids.specs.declared.config.Config.{Config};
ghost use Rattle.the_run.specs.Worlds.{first_world};
ghost use Rattle.row_laws.specs.Orderly.Calm.{RoundsStayCalm};
ghost use Rattle.row_laws.specs.Orderly.Quiet.{IsQuiet};
ghost use Rattle.row_laws.specs.Orderly.Blocks.{BlocksAgree, QuietLasts};

/// All is quiet before the first line: no running site has an undecided round, and every poll that was ever sent, the lost
/// ones too, finds its receiver in another boot or with at least its id promised. Whatever came before, a line by which no
/// site starts to part or merge leaves it so: a delivery, a loss, a tick, a round, a cut, a stop, a boot.
pub fn quiet_lasts()
    ensures first { (c : Config) → IsQuiet (first_world c) }
    ensures lines { (c : Config) → QuietLasts c }
{}

/// After any lines that leave all quiet come lines by which sites start to part or merge, each of another site, and none of
/// them reaches a site that another one reaches; then a round that doesn't end by its budget, in which no site stops and no
/// limit is passed. At its end the chosen set of each line is in one epoch of that line's site, whose members are exactly
/// these with their boots; the other sites that it asked are in none; and all is quiet again.
///
/// The protocol is that of partition and merge in LOCUS (Mueller, Moore and Popek, 1983): an initiator polls, every site that
/// it polled answers or is passed over, and it installs the largest set that it finds fully connected.
pub fn blocks_agree()
    ensures { (c : Config) → BlocksAgree c }
{}

/// A round whose budget is 262,144 or more, from where all members of an epoch are up with their boots, in it and connected,
/// nobody has an undecided round, no poll of a greater id is under way to a member, neither lost nor delivered, and no
/// member's disk is armed: all members stay so after each tick and each delivery, and the round doesn't end by its budget.
pub fn rounds_stay_calm()
    ensures { (c : Config) → RoundsStayCalm c }
{}
