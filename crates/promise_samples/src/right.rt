ghost use Rattle.promise_samples.specs.Examples.{Follows, KeepsBeside, KeepsPhrases, printed};
ghost use Rattle.promise_samples.specs.First.{first};
ghost use Rattle.promise_samples.specs.Busy.{busy};
ghost use Rattle.promise_samples.specs.Descriptors.{descriptors};
ghost use Rattle.promise_samples.specs.Names.{names};
ghost use Rattle.promise_samples.specs.Gap.{gap};
ghost use Rattle.promise_samples.specs.Changed.{changed};
ghost use Rattle.promise_samples.specs.ConflictAndResolve.{conflict_and_resolve};
ghost use Rattle.promise_samples.specs.CutAndHeal.{cut_and_heal};
ghost use Rattle.promise_samples.specs.DirectoriesMeet.{directories_meet};
ghost use Rattle.promise_samples.specs.BoxesMeet.{boxes_meet};
ghost use Rattle.promise_samples.specs.SteadyReader.{steady_reader};
ghost use Rattle.promise_samples.specs.LostAndLate.{lost_and_late};
ghost use Rattle.promise_samples.specs.RemovedAndChanged.{removed_and_changed};
ghost use Rattle.promise_samples.specs.StopAfterTheGate.{stop_after_the_gate};
ghost use Rattle.promise_samples.specs.StopInsideAWrite.{stop_inside_a_write};
ghost use Rattle.promise_samples.specs.BoundedRequests.{bounded_requests};
ghost use Rattle.promise_samples.specs.CalmRound.{calm_round};
ghost use Rattle.promise_samples.specs.CopiesConverge.{copies_converge};
ghost use Rattle.promise_samples.specs.DirectoriesRest.{directories_rest};
ghost use Rattle.promise_samples.specs.OneDelivery.{one_delivery};
ghost use Rattle.promise_samples.specs.OrderlyBlocks.{orderly_blocks};
ghost use Rattle.promise_samples.specs.StaysCalm.{stays_calm};
ghost use Rattle.promise_samples.specs.WholeInput.{whole_input};
ghost use Rattle.promise_samples.specs.RemovedElsewhere.{removed_elsewhere};
ghost use Rattle.promise_samples.specs.ThreeWays.{three_ways};
ghost use Rattle.promise_samples.specs.NoMember.{no_member};
ghost use Rattle.promise_samples.specs.NoPack.{no_pack};
ghost use Rattle.promise_samples.specs.AtOnce.{at_once};
ghost use Rattle.promise_samples.specs.SameNumber.{same_number};
ghost use Rattle.promise_samples.specs.TwoNames.{two_names};
ghost use Rattle.promise_samples.specs.OtherGroup.{other_group};
ghost use Rattle.promise_samples.specs.TwoGroups.{two_groups};
ghost use Rattle.promise_samples.specs.ReplyBehindACall.{reply_behind_a_call};
ghost use Rattle.promise_samples.specs.ArmedBoots.{armed_boots};
ghost use Rattle.promise_samples.specs.VoidLines.{void_lines};
ghost use Rattle.promise_samples.specs.TwoCloses.{two_closes};
ghost use Rattle.trace_samples.specs.FirstRun.{first_run};
ghost use Rattle.trace_samples.specs.PartedRun.{parted_run};
ghost use Rattle.trace_samples.specs.FlaggedRun.{flagged_run};
ghost use Rattle.trace_samples.specs.StoppedRun.{stopped_run};

/// Each record of these traces may follow those before it: the printed examples, and the samples of the lawful trace.
pub fn right_traces_follow()
    ensures first { Follows first }
    ensures busy { Follows busy }
    ensures descriptors { Follows descriptors }
    ensures names { Follows names }
    ensures gap { Follows gap }
    ensures changed { Follows changed }
    ensures conflict_and_resolve { Follows conflict_and_resolve }
    ensures cut_and_heal { Follows cut_and_heal }
    ensures directories_meet { Follows directories_meet }
    ensures boxes_meet { Follows boxes_meet }
    ensures steady_reader { Follows steady_reader }
    ensures lost_and_late { Follows lost_and_late }
    ensures removed_and_changed { Follows removed_and_changed }
    ensures stop_after_the_gate { Follows stop_after_the_gate }
    ensures stop_inside_a_write { Follows stop_inside_a_write }
    ensures bounded_requests { Follows bounded_requests }
    ensures calm_round { Follows calm_round }
    ensures copies_converge { Follows copies_converge }
    ensures directories_rest { Follows directories_rest }
    ensures one_delivery { Follows one_delivery }
    ensures orderly_blocks { Follows orderly_blocks }
    ensures stays_calm { Follows stays_calm }
    ensures whole_input { Follows whole_input }
    ensures removed_elsewhere { Follows removed_elsewhere }
    ensures three_ways { Follows three_ways }
    ensures no_member { Follows no_member }
    ensures no_pack { Follows no_pack }
    ensures at_once { Follows at_once }
    ensures same_number { Follows same_number }
    ensures two_names { Follows two_names }
    ensures other_group { Follows other_group }
    ensures two_groups { Follows two_groups }
    ensures reply_behind_a_call { Follows reply_behind_a_call }
    ensures armed_boots { Follows armed_boots }
    ensures void_lines { Follows void_lines }
    ensures two_closes { Follows two_closes }
    ensures first_run { Follows (printed first_run) }
    ensures parted_run { Follows (printed parted_run) }
    ensures flagged_run { Follows (printed flagged_run) }
    ensures stopped_run { Follows (printed stopped_run) }
{}

/// The phrases of the headline that the rows imply are true of them.
pub fn right_traces_keep_the_phrases()
    ensures first { KeepsPhrases first }
    ensures busy { KeepsPhrases busy }
    ensures descriptors { KeepsPhrases descriptors }
    ensures names { KeepsPhrases names }
    ensures gap { KeepsPhrases gap }
    ensures changed { KeepsPhrases changed }
    ensures conflict_and_resolve { KeepsPhrases conflict_and_resolve }
    ensures cut_and_heal { KeepsPhrases cut_and_heal }
    ensures directories_meet { KeepsPhrases directories_meet }
    ensures boxes_meet { KeepsPhrases boxes_meet }
    ensures steady_reader { KeepsPhrases steady_reader }
    ensures lost_and_late { KeepsPhrases lost_and_late }
    ensures removed_and_changed { KeepsPhrases removed_and_changed }
    ensures stop_after_the_gate { KeepsPhrases stop_after_the_gate }
    ensures stop_inside_a_write { KeepsPhrases stop_inside_a_write }
    ensures bounded_requests { KeepsPhrases bounded_requests }
    ensures calm_round { KeepsPhrases calm_round }
    ensures copies_converge { KeepsPhrases copies_converge }
    ensures directories_rest { KeepsPhrases directories_rest }
    ensures one_delivery { KeepsPhrases one_delivery }
    ensures orderly_blocks { KeepsPhrases orderly_blocks }
    ensures stays_calm { KeepsPhrases stays_calm }
    ensures whole_input { KeepsPhrases whole_input }
    ensures removed_elsewhere { KeepsPhrases removed_elsewhere }
    ensures three_ways { KeepsPhrases three_ways }
    ensures no_member { KeepsPhrases no_member }
    ensures no_pack { KeepsPhrases no_pack }
    ensures at_once { KeepsPhrases at_once }
    ensures same_number { KeepsPhrases same_number }
    ensures two_names { KeepsPhrases two_names }
    ensures other_group { KeepsPhrases other_group }
    ensures two_groups { KeepsPhrases two_groups }
    ensures reply_behind_a_call { KeepsPhrases reply_behind_a_call }
    ensures armed_boots { KeepsPhrases armed_boots }
    ensures void_lines { KeepsPhrases void_lines }
    ensures two_closes { KeepsPhrases two_closes }
    ensures first_run { KeepsPhrases (printed first_run) }
    ensures parted_run { KeepsPhrases (printed parted_run) }
    ensures flagged_run { KeepsPhrases (printed flagged_run) }
    ensures stopped_run { KeepsPhrases (printed stopped_run) }
{}

/// So is what stands beside the headline.
pub fn right_traces_keep_beside()
    ensures first { KeepsBeside first }
    ensures busy { KeepsBeside busy }
    ensures descriptors { KeepsBeside descriptors }
    ensures names { KeepsBeside names }
    ensures gap { KeepsBeside gap }
    ensures changed { KeepsBeside changed }
    ensures conflict_and_resolve { KeepsBeside conflict_and_resolve }
    ensures cut_and_heal { KeepsBeside cut_and_heal }
    ensures directories_meet { KeepsBeside directories_meet }
    ensures boxes_meet { KeepsBeside boxes_meet }
    ensures steady_reader { KeepsBeside steady_reader }
    ensures lost_and_late { KeepsBeside lost_and_late }
    ensures removed_and_changed { KeepsBeside removed_and_changed }
    ensures stop_after_the_gate { KeepsBeside stop_after_the_gate }
    ensures stop_inside_a_write { KeepsBeside stop_inside_a_write }
    ensures bounded_requests { KeepsBeside bounded_requests }
    ensures calm_round { KeepsBeside calm_round }
    ensures copies_converge { KeepsBeside copies_converge }
    ensures directories_rest { KeepsBeside directories_rest }
    ensures one_delivery { KeepsBeside one_delivery }
    ensures orderly_blocks { KeepsBeside orderly_blocks }
    ensures stays_calm { KeepsBeside stays_calm }
    ensures whole_input { KeepsBeside whole_input }
    ensures removed_elsewhere { KeepsBeside removed_elsewhere }
    ensures three_ways { KeepsBeside three_ways }
    ensures no_member { KeepsBeside no_member }
    ensures no_pack { KeepsBeside no_pack }
    ensures at_once { KeepsBeside at_once }
    ensures same_number { KeepsBeside same_number }
    ensures two_names { KeepsBeside two_names }
    ensures other_group { KeepsBeside other_group }
    ensures two_groups { KeepsBeside two_groups }
    ensures reply_behind_a_call { KeepsBeside reply_behind_a_call }
    ensures armed_boots { KeepsBeside armed_boots }
    ensures void_lines { KeepsBeside void_lines }
    ensures two_closes { KeepsBeside two_closes }
    ensures first_run { KeepsBeside (printed first_run) }
    ensures parted_run { KeepsBeside (printed parted_run) }
    ensures flagged_run { KeepsBeside (printed flagged_run) }
    ensures stopped_run { KeepsBeside (printed stopped_run) }
{}
