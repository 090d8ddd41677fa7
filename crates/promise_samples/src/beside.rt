ghost use Rattle.std.specs.Prelude.{reverse};
ghost use Rattle.promises.specs.Progress.{LargeRoundsEnd};
ghost use Rattle.promise_samples.specs.Altered.{CutBeforeTheGate, Fails, Passes, StaysByItsGate, mend, mend_again_after_its_refusal, refusal_for_want_of_a_number, another_refusal_without_a_number, write_refused_for_want_of_a_number, refusal_of_the_last_number, refusal_before_the_last_number, refusal_for_the_numbers_of_another_group, refusal_for_the_numbers_of_another_site, refusal_for_a_make_in_another_group, write_without_room, write_with_another_need, write_with_another_room, write_past_the_room, write_without_room_elsewhere, write_without_room_in_another_group};
ghost use Rattle.promise_samples.specs.Examples.{Follows, IsAsked, IsAskedByFirstPages, IsNotAsked, ChangesRefused, CommitsUnaskedAt, IsLateAt, printed};
ghost use Rattle.promise_samples.specs.First.{first};
ghost use Rattle.promise_samples.specs.Busy.{busy};
ghost use Rattle.promise_samples.specs.Descriptors.{descriptors};
ghost use Rattle.promise_samples.specs.Names.{names};
ghost use Rattle.promise_samples.specs.Gap.{gap};
ghost use Rattle.promise_samples.specs.Changed.{changed};
ghost use Rattle.promise_samples.specs.ConflictAndResolve.{conflict_and_resolve};
ghost use Rattle.promise_samples.specs.CutAndHeal.{cut_and_heal};
ghost use Rattle.promise_samples.specs.DirectoriesMeet.{directories_meet};
ghost use Rattle.promise_samples.specs.BoxesMeet.{boxes_meet};
ghost use Rattle.promise_samples.specs.SteadyReader.{steady_reader};
ghost use Rattle.promise_samples.specs.LostAndLate.{lost_and_late};
ghost use Rattle.promise_samples.specs.RemovedAndChanged.{removed_and_changed};
ghost use Rattle.promise_samples.specs.StopAfterTheGate.{stop_after_the_gate};
ghost use Rattle.promise_samples.specs.StopInsideAWrite.{stop_inside_a_write};
ghost use Rattle.promise_samples.specs.StopInAnAdoption.{stop_in_an_adoption};
ghost use Rattle.promise_samples.specs.BoundedRequests.{bounded_requests};
ghost use Rattle.promise_samples.specs.CalmRound.{calm_round};
ghost use Rattle.promise_samples.specs.CopiesConverge.{copies_converge};
ghost use Rattle.promise_samples.specs.DirectoriesRest.{directories_rest};
ghost use Rattle.promise_samples.specs.OneDelivery.{one_delivery};
ghost use Rattle.promise_samples.specs.OrderlyBlocks.{orderly_blocks};
ghost use Rattle.promise_samples.specs.StaysCalm.{stays_calm};
ghost use Rattle.promise_samples.specs.WholeInput.{whole_input};
ghost use Rattle.promise_samples.specs.RemovedElsewhere.{removed_elsewhere};
ghost use Rattle.promise_samples.specs.ThreeWays.{three_ways};
ghost use Rattle.promise_samples.specs.NoMember.{no_member};
ghost use Rattle.promise_samples.specs.NoPack.{no_pack};
ghost use Rattle.promise_samples.specs.AtOnce.{at_once};
ghost use Rattle.promise_samples.specs.SameNumber.{same_number};
ghost use Rattle.promise_samples.specs.TwoNames.{two_names};
ghost use Rattle.promise_samples.specs.OtherGroup.{other_group};
ghost use Rattle.promise_samples.specs.TwoGroups.{two_groups};
ghost use Rattle.promise_samples.specs.ReplyBehindACall.{reply_behind_a_call};
ghost use Rattle.promise_samples.specs.ArmedBoots.{armed_boots};
ghost use Rattle.promise_samples.specs.VoidLines.{void_lines};
ghost use Rattle.promise_samples.specs.TwoCloses.{two_closes};
ghost use Rattle.promise_samples.specs.WrongBeside.{commit_that_is_not_asked, missing_changed, refused_and_done, rounds_without_end};
ghost use Rattle.promise_samples.specs.WrongLines.{version_not_left_beside_another, stop_where_nothing_is_delivered, stop_in_anothers_version, stop_in_an_adoption_where_no_site_ticks, stop_without_a_boot, stop_after_a_boot, join_of_anothers_epoch, join_of_anothers_part, join_by_a_void_merge, join_by_a_void_part, join_of_a_boot_that_asked_nothing, reply_beside_a_void, reply_in_place_of_a_void, void_round, record_of_an_earlier_line, record_of_no_line};
ghost use Rattle.promise_samples.specs.WrongStops.{stopped_inside, stopped_after, stop_before_its_call, stop_after_the_calls, version_that_is_not_left, version_left_untold, version_after_a_fault, fuse_where_a_fault_was_armed, stop_a_line_late, stop_in_a_commit_that_is_not_asked, stop_that_does_not_come, boot_that_closes_a_half, boot_that_was_over, boot_with_nothing_to_close};
ghost use Rattle.trace_samples.specs.FirstRun.{first_run};
ghost use Rattle.trace_samples.specs.PartedRun.{parted_run};
ghost use Rattle.trace_samples.specs.FlaggedRun.{flagged_run};
ghost use Rattle.trace_samples.specs.StoppedRun.{stopped_run};
ghost use Rattle.trace_samples.specs.Wrong.{two_voids, stop_without_its_line, fuse_without_an_armed_disk, armed_disk_that_stops_nothing, void_line_with_an_effect, leave_without_a_cause, join_that_nobody_asked_for, stop_after_too_many_calls, fault_where_a_stop_was_armed};

/// What would need thousands of pages or scores of files is tried on a past that was altered.
pub fn altered_pasts_are_judged()
    ensures mend { Passes mend }
    ensures mend_again_after_its_refusal { Fails mend_again_after_its_refusal }
    ensures refusal_for_want_of_a_number { Passes refusal_for_want_of_a_number }
    ensures another_refusal_without_a_number { Fails another_refusal_without_a_number }
    ensures write_refused_for_want_of_a_number { Fails write_refused_for_want_of_a_number }
    ensures refusal_of_the_last_number { Passes refusal_of_the_last_number }
    ensures refusal_before_the_last_number { Fails refusal_before_the_last_number }
    ensures refusal_for_the_numbers_of_another_group { Fails refusal_for_the_numbers_of_another_group }
    ensures refusal_for_the_numbers_of_another_site { Fails refusal_for_the_numbers_of_another_site }
    ensures refusal_for_a_make_in_another_group { Fails refusal_for_a_make_in_another_group }
    ensures write_without_room { Passes write_without_room }
    ensures write_with_another_need { Fails write_with_another_need }
    ensures write_with_another_room { Fails write_with_another_room }
    ensures write_past_the_room { Fails write_past_the_room }
    ensures write_without_room_elsewhere { Fails write_without_room_elsewhere }
    ensures write_without_room_in_another_group { Fails write_without_room_in_another_group }
    ensures cut_before_the_gate_of_a_long_file { CutBeforeTheGate }
    ensures stay_by_the_gate_of_a_long_file { StaysByItsGate }
{}

/// The lines of these traces ask for their records.
pub fn right_traces_are_asked_for()
    ensures first_run { IsAsked (printed first_run) }
    ensures stopped_run { IsAsked (printed stopped_run) }
    ensures stopped_inside { IsAsked stopped_inside }
    ensures stopped_after { IsAsked stopped_after }
    ensures boot_that_closes_a_half { IsAsked boot_that_closes_a_half }
    ensures parted_run { IsAsked (printed parted_run) }
    ensures flagged_run { IsAsked (printed flagged_run) }
    ensures first { IsAsked first }
    ensures busy { IsAsked busy }
    ensures descriptors { IsAsked descriptors }
    ensures names { IsAsked names }
    ensures gap { IsAsked gap }
    ensures changed { IsAsked changed }
    ensures conflict_and_resolve { IsAsked conflict_and_resolve }
    ensures cut_and_heal { IsAsked cut_and_heal }
    ensures directories_meet { IsAsked directories_meet }
    ensures boxes_meet { IsAsked boxes_meet }
    ensures steady_reader { IsAsked steady_reader }
    ensures lost_and_late { IsAsked lost_and_late }
    ensures removed_and_changed { IsAsked removed_and_changed }
    ensures stop_after_the_gate { IsAsked stop_after_the_gate }
    ensures stop_inside_a_write { IsAsked stop_inside_a_write }
    ensures bounded_requests { IsAsked bounded_requests }
    ensures calm_round { IsAsked calm_round }
    ensures copies_converge { IsAsked copies_converge }
    ensures directories_rest { IsAsked directories_rest }
    ensures one_delivery { IsAsked one_delivery }
    ensures orderly_blocks { IsAsked orderly_blocks }
    ensures stays_calm { IsAsked stays_calm }
    ensures whole_input { IsAsked whole_input }
    ensures removed_elsewhere { IsAsked removed_elsewhere }
    ensures three_ways { IsAsked three_ways }
    ensures no_member { IsAsked no_member }
    ensures no_pack { IsAsked no_pack }
    ensures at_once { IsAsked at_once }
    ensures same_number { IsAsked same_number }
    ensures two_names { IsAsked two_names }
    ensures other_group { IsAsked other_group }
    ensures two_groups { IsAsked two_groups }
    ensures reply_behind_a_call { IsAsked reply_behind_a_call }
    ensures two_closes { IsAsked two_closes }
    ensures void_lines { IsAsked void_lines }
    ensures armed_boots { IsAsked armed_boots }
{}

/// A stop in an adoption hangs on the pages that this wrote.
pub fn stops_in_adoptions_are_asked_for()
    ensures stop_in_an_adoption { IsAskedByFirstPages stop_in_an_adoption }
{}

/// A stop within a disk call that the disk doesn't give, or that leaves something else, is asked for by no line.
pub fn wrong_stops_are_not_asked_for()
    ensures stop_before_its_call { IsNotAsked stop_before_its_call }
    ensures stop_after_the_calls { IsNotAsked stop_after_the_calls }
    ensures version_that_is_not_left { IsNotAsked version_that_is_not_left }
    ensures version_left_untold { IsNotAsked version_left_untold }
    ensures version_after_a_fault { IsNotAsked version_after_a_fault }
    ensures fuse_where_a_fault_was_armed { IsNotAsked fuse_where_a_fault_was_armed }
    ensures stop_a_line_late { IsNotAsked stop_a_line_late }
    ensures stop_in_a_commit_that_is_not_asked { IsNotAsked stop_in_a_commit_that_is_not_asked }
    ensures stop_that_does_not_come { IsNotAsked stop_that_does_not_come }
    ensures boot_that_was_over { IsNotAsked boot_that_was_over }
    ensures boot_with_nothing_to_close { IsNotAsked boot_with_nothing_to_close }
{}

/// Nor is what the lines of these samples don't ask for, or don't tell.
pub fn unasked_traces_are_not_asked_for()
    ensures two_voids { IsNotAsked (printed two_voids) }
    ensures stop_without_its_line { IsNotAsked (printed stop_without_its_line) }
    ensures fuse_without_an_armed_disk { IsNotAsked (printed fuse_without_an_armed_disk) }
    ensures armed_disk_that_stops_nothing { IsNotAsked (printed armed_disk_that_stops_nothing) }
    ensures void_line_with_an_effect { IsNotAsked (printed void_line_with_an_effect) }
    ensures leave_without_a_cause { IsNotAsked (printed leave_without_a_cause) }
    ensures join_that_nobody_asked_for { IsNotAsked (printed join_that_nobody_asked_for) }
    ensures stop_after_too_many_calls { IsNotAsked (printed stop_after_too_many_calls) }
    ensures fault_where_a_stop_was_armed { IsNotAsked (printed fault_where_a_stop_was_armed) }
    ensures version_not_left_beside_another { IsNotAsked version_not_left_beside_another }
    ensures stop_where_nothing_is_delivered { IsNotAsked stop_where_nothing_is_delivered }
    ensures stop_in_anothers_version { IsNotAsked stop_in_anothers_version }
    ensures stop_in_an_adoption_where_no_site_ticks { IsNotAsked stop_in_an_adoption_where_no_site_ticks }
    ensures stop_without_a_boot { IsNotAsked stop_without_a_boot }
    ensures stop_after_a_boot { IsNotAsked stop_after_a_boot }
    ensures join_of_anothers_epoch { IsNotAsked join_of_anothers_epoch }
    ensures join_of_anothers_part { IsNotAsked join_of_anothers_part }
    ensures join_by_a_void_merge { IsNotAsked join_by_a_void_merge }
    ensures join_by_a_void_part { IsNotAsked join_by_a_void_part }
    ensures join_of_a_boot_that_asked_nothing { IsNotAsked join_of_a_boot_that_asked_nothing }
    ensures reply_beside_a_void { IsNotAsked reply_beside_a_void }
    ensures reply_in_place_of_a_void { IsNotAsked reply_in_place_of_a_void }
    ensures void_round { IsNotAsked void_round }
    ensures record_of_an_earlier_line { IsNotAsked record_of_an_earlier_line }
    ensures record_of_no_line { IsNotAsked record_of_no_line }
{}

/// The rows let these through.
pub fn rows_know_no_lines()
    ensures version_not_left_beside_another { Follows version_not_left_beside_another }
    ensures stop_where_nothing_is_delivered { Follows stop_where_nothing_is_delivered }
    ensures stop_in_anothers_version { Follows stop_in_anothers_version }
    ensures stop_in_an_adoption_where_no_site_ticks { Follows stop_in_an_adoption_where_no_site_ticks }
    ensures stop_without_a_boot { Follows stop_without_a_boot }
    ensures stop_after_a_boot { Follows stop_after_a_boot }
    ensures join_of_anothers_epoch { Follows join_of_anothers_epoch }
    ensures join_of_anothers_part { Follows join_of_anothers_part }
    ensures join_by_a_void_merge { Follows join_by_a_void_merge }
    ensures join_by_a_void_part { Follows join_by_a_void_part }
    ensures join_of_a_boot_that_asked_nothing { Follows join_of_a_boot_that_asked_nothing }
    ensures reply_beside_a_void { Follows reply_beside_a_void }
    ensures reply_in_place_of_a_void { Follows reply_in_place_of_a_void }
    ensures void_round { Follows void_round }
    ensures record_of_an_earlier_line { Follows record_of_an_earlier_line }
    ensures record_of_no_line { Follows record_of_no_line }
{}

/// What each row lets through fails a promise beside the headline, at the record that is wrong. A round with a budget of 262,144
/// doesn't end by it.
pub fn what_rows_let_through_fails_beside()
    ensures commit_follows { Follows commit_that_is_not_asked }
    ensures commit_is_not_asked { CommitsUnaskedAt 19 commit_that_is_not_asked }
    ensures missing_changed { IsLateAt 26 missing_changed }
    ensures refused_and_done { ChangesRefused refused_and_done }
    ensures rounds_follow { Follows rounds_without_end }
    ensures rounds_are_large { LargeRoundsEnd rounds_without_end.lines (reverse rounds_without_end.trace) → ⊥ }
{}
