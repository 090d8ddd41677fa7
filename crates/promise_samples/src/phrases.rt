ghost use Rattle.promise_samples.specs.Examples.{IsHeadline, IsNotWhole, ServesNoCommit, ForgetsAcknowledged, LosesCommits, FlagsWrongly};
ghost use Rattle.promise_samples.specs.ConflictAndResolve.{conflict_and_resolve};
ghost use Rattle.promise_samples.specs.First.{first};
ghost use Rattle.promise_samples.specs.StopInsideAWrite.{stop_inside_a_write};
ghost use Rattle.promise_samples.specs.WrongPhrases.{version_of_nobody_held, version_of_nobody_served, version_of_nobody_opened, version_of_nobody_acknowledged, acknowledged_version_given_up, commit_given_up, conflict_passed_over, conflict_written_over, conflict_served, conflict_of_one_version, conflict_of_others, conflict_of_others_looked_at};

/// The whole headline holds of these.
pub fn headline_holds()
    ensures first { IsHeadline first }
    ensures stop_inside_a_write { IsHeadline stop_inside_a_write }
    ensures conflict_and_resolve { IsHeadline conflict_and_resolve }
{}

/// Each phrase of the headline refuses what breaks it, without a row.
pub fn phrases_refuse()
    ensures version_of_nobody_held { IsNotWhole version_of_nobody_held }
    ensures version_of_nobody_served { ServesNoCommit version_of_nobody_served }
    ensures version_of_nobody_opened { ServesNoCommit version_of_nobody_opened }
    ensures version_of_nobody_acknowledged { ForgetsAcknowledged version_of_nobody_acknowledged }
    ensures acknowledged_version_given_up { ForgetsAcknowledged acknowledged_version_given_up }
    ensures commit_given_up { LosesCommits commit_given_up }
    ensures conflict_passed_over { FlagsWrongly conflict_passed_over }
    ensures conflict_written_over { FlagsWrongly conflict_written_over }
    ensures conflict_served { FlagsWrongly conflict_served }
    ensures conflict_of_one_version { FlagsWrongly conflict_of_one_version }
    ensures conflict_of_others { FlagsWrongly conflict_of_others }
    ensures conflict_of_others_looked_at { FlagsWrongly conflict_of_others_looked_at }
{}
