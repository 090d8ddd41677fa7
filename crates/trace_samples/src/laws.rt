ghost use Rattle.lawful_trace.specs.Prompt.{IsPrompt};
ghost use Rattle.lawful_trace.specs.Samples.{IsRight, IsWrong, IsBroken};
ghost use Rattle.trace_samples.specs.FirstRun.{first_run};
ghost use Rattle.trace_samples.specs.PartedRun.{parted_run};
ghost use Rattle.trace_samples.specs.FlaggedRun.{flagged_run};
ghost use Rattle.trace_samples.specs.StoppedRun.{stopped_run};
ghost use Rattle.trace_samples.specs.Wrong.{reply_twice, write_through_read_descriptor, lost_commit, skipped_operation_number, skipped_stamp, reply_before_its_step, two_voids, join_with_another_list, adoption_of_a_concurrent_version, busy_with_nobody_there, flag_on_an_unflagged_file, no_flag_on_a_flagged_file, kept_version_passed_over, no_space_where_there_is_room, stop_without_its_line, fuse_without_an_armed_disk, armed_disk_that_stops_nothing, skipped_call_number, two_calls_at_once, void_line_with_an_effect, commit_of_other_bytes, changed_in_the_same_epoch, leave_without_a_cause, join_that_nobody_asked_for, mend_of_an_unflagged_directory, boot_with_its_old_number, data_that_was_never_written, start_without_a_version, stop_after_too_many_calls, fault_where_a_stop_was_armed};

/// Each of these runs is lawful.
pub fn right_traces_are_lawful()
    ensures first_run { IsRight first_run }
    ensures parted_run { IsRight parted_run }
    ensures flagged_run { IsRight flagged_run }
    ensures stopped_run { IsRight stopped_run }
{}

/// They come as early as they can, too.
pub fn right_traces_are_prompt()
    ensures first_run { IsPrompt first_run.lines first_run.trace }
    ensures parted_run { IsPrompt parted_run.lines parted_run.trace }
    ensures flagged_run { IsPrompt flagged_run.lines flagged_run.trace }
    ensures stopped_run { IsPrompt stopped_run.lines stopped_run.trace }
{}

/// Each of these traces is unlawful. Their texts stand in `examples/wrong`.
pub fn wrong_traces_are_unlawful()
    ensures reply_twice { IsWrong reply_twice }
    ensures write_through_read_descriptor { IsWrong write_through_read_descriptor }
    ensures lost_commit { IsWrong lost_commit }
    ensures skipped_operation_number { IsWrong skipped_operation_number }
    ensures skipped_stamp { IsWrong skipped_stamp }
    ensures reply_before_its_step { IsWrong reply_before_its_step }
    ensures two_voids { IsWrong two_voids }
    ensures join_with_another_list { IsWrong join_with_another_list }
    ensures adoption_of_a_concurrent_version { IsWrong adoption_of_a_concurrent_version }
    ensures busy_with_nobody_there { IsWrong busy_with_nobody_there }
    ensures flag_on_an_unflagged_file { IsWrong flag_on_an_unflagged_file }
    ensures no_flag_on_a_flagged_file { IsWrong no_flag_on_a_flagged_file }
    ensures kept_version_passed_over { IsWrong kept_version_passed_over }
    ensures no_space_where_there_is_room { IsWrong no_space_where_there_is_room }
    ensures stop_without_its_line { IsWrong stop_without_its_line }
    ensures fuse_without_an_armed_disk { IsWrong fuse_without_an_armed_disk }
    ensures armed_disk_that_stops_nothing { IsWrong armed_disk_that_stops_nothing }
    ensures skipped_call_number { IsWrong skipped_call_number }
    ensures two_calls_at_once { IsWrong two_calls_at_once }
    ensures void_line_with_an_effect { IsWrong void_line_with_an_effect }
    ensures commit_of_other_bytes { IsWrong commit_of_other_bytes }
    ensures changed_in_the_same_epoch { IsWrong changed_in_the_same_epoch }
    ensures leave_without_a_cause { IsWrong leave_without_a_cause }
    ensures join_that_nobody_asked_for { IsWrong join_that_nobody_asked_for }
    ensures mend_of_an_unflagged_directory { IsWrong mend_of_an_unflagged_directory }
    ensures boot_with_its_old_number { IsWrong boot_with_its_old_number }
    ensures data_that_was_never_written { IsWrong data_that_was_never_written }
    ensures start_without_a_version { IsWrong start_without_a_version }
    ensures stop_after_too_many_calls { IsWrong stop_after_too_many_calls }
    ensures fault_where_a_stop_was_armed { IsWrong fault_where_a_stop_was_armed }
{}

/// These of them are wrong in themselves, whatever the schedule is. The others are wrong for what their lines ask.
pub fn broken_traces_are_inconsistent()
    ensures reply_twice { IsBroken reply_twice }
    ensures write_through_read_descriptor { IsBroken write_through_read_descriptor }
    ensures lost_commit { IsBroken lost_commit }
    ensures skipped_operation_number { IsBroken skipped_operation_number }
    ensures skipped_stamp { IsBroken skipped_stamp }
    ensures reply_before_its_step { IsBroken reply_before_its_step }
    ensures join_with_another_list { IsBroken join_with_another_list }
    ensures adoption_of_a_concurrent_version { IsBroken adoption_of_a_concurrent_version }
    ensures busy_with_nobody_there { IsBroken busy_with_nobody_there }
    ensures flag_on_an_unflagged_file { IsBroken flag_on_an_unflagged_file }
    ensures no_flag_on_a_flagged_file { IsBroken no_flag_on_a_flagged_file }
    ensures kept_version_passed_over { IsBroken kept_version_passed_over }
    ensures no_space_where_there_is_room { IsBroken no_space_where_there_is_room }
    ensures skipped_call_number { IsBroken skipped_call_number }
    ensures two_calls_at_once { IsBroken two_calls_at_once }
    ensures commit_of_other_bytes { IsBroken commit_of_other_bytes }
    ensures changed_in_the_same_epoch { IsBroken changed_in_the_same_epoch }
    ensures mend_of_an_unflagged_directory { IsBroken mend_of_an_unflagged_directory }
    ensures boot_with_its_old_number { IsBroken boot_with_its_old_number }
    ensures data_that_was_never_written { IsBroken data_that_was_never_written }
    ensures start_without_a_version { IsBroken start_without_a_version }
{}
