ghost use Rattle.promise_samples.specs.Examples.{FailsAtLast, printed};
ghost use Rattle.promise_samples.specs.WrongSites.{boot_of_no_site, boot_of_a_running_site, stop_of_a_stopped_site, stop_of_no_site, leave_of_another_epoch, join_of_a_stopped_site, join_beside_an_epoch, join_of_a_lower_epoch, join_of_an_earlier_boot, start_twice, start_of_a_group_without_a_pack, start_before_all_are_in, join_of_a_lower_site, join_of_a_lower_boot};
ghost use Rattle.promise_samples.specs.WrongCalls.{call_at_a_stopped_site, mend_by_a_process, mend_of_a_file, mend_outside_its_epoch, mend_by_another_site, mend_before_the_start, mend_of_an_open_directory, mend_from_an_older_copy, two_mends_at_once, skipped_call_number_of_a_mend, mend_for_another_group};
ghost use Rattle.promise_samples.specs.WrongReplies.{reply_to_no_call, reply_to_another_process, reply_at_another_site, reply_with_another_number, another_reply_of_the_same_text, reply_after_its_site_left, late_local_refusal, changed_of_another_epoch, late_changed, changed_at_anothers_leave, changed_at_a_later_leave, changed_of_a_later_epoch, changed_out_of_order};
ghost use Rattle.promise_samples.specs.WrongLooks.{look_before_the_start, look_at_an_older_version, look_for_an_unknown_call, look_in_another_epoch, look_with_number_0, look_before_its_turn, look_again_after_the_next, look_that_is_not_asked};
ghost use Rattle.promise_samples.specs.WrongOpens.{grant_before_the_start, grant_of_anothers_instance, grant_of_an_instance_again, grant_with_a_skipped_number, grant_in_another_mode, grant_of_a_busy_file, read_of_an_older_version, read_where_the_version_is_not, write_of_an_older_version, write_where_the_version_is_not, resolution_at_another_site, resolution_of_anothers_version, resolution_from_an_older_version, mend_at_another_site, mend_of_anothers_version, make_at_another_site, make_of_anothers_number, make_of_a_number_in_use, make_of_a_number_being_made, make_on_a_version, make_for_a_site_without_a_pack, refusal_before_the_start, refusal_of_a_number, refusal_with_a_skipped_number, busy_for_another_process, no_number_where_there_are};
ghost use Rattle.promise_samples.specs.WrongSteps.{operation_judged_on_another, operation_with_the_number_after_the_next, operation_that_is_not_asked, release_judged_on_another, release_of_another_file, release_of_an_older_version, release_that_is_not_asked};
ghost use Rattle.promise_samples.specs.WrongVersions.{commit_after_leaving, commit_at_another_site, commit_of_nothing_new, commit_on_no_parent, resolution_that_loses_a_version, adoption_after_leaving, adoption_before_publishing, adoption_of_a_file_for_others, adoption_into_an_open_file, commit_of_another_file, settled_again};
ghost use Rattle.promise_samples.specs.WrongWords.{conflict_with_an_older_version, conflict_with_a_version_that_never_was, busy_at_another_site, ambiguous_with_another_first, ambiguous_with_another_second, stat_of_another_kind, stat_of_another_file, stat_of_another_length, stat_of_another_version, entry_with_another_number, entry_of_another_kind, insert_of_another_name, insert_of_another_number, insert_of_another_kind, read_at_another_place, read_of_another_length, write_at_another_place, operation_on_another_instance, look_at_another_file, start_with_another_number, start_with_another_version, rename_of_another_entry, rename_to_another_name, remove_of_another_name};
ghost use Rattle.trace_samples.specs.Wrong.{reply_twice, write_through_read_descriptor, lost_commit, skipped_operation_number, skipped_stamp, reply_before_its_step, join_with_another_list, adoption_of_a_concurrent_version, busy_with_nobody_there, flag_on_an_unflagged_file, no_flag_on_a_flagged_file, kept_version_passed_over, no_space_where_there_is_room, skipped_call_number, two_calls_at_once, commit_of_other_bytes, changed_in_the_same_epoch, mend_of_an_unflagged_directory, boot_with_its_old_number, data_that_was_never_written, start_without_a_version};

/// A site does what it may not do, or a group starts as it may not.
pub fn wrong_records_of_sites_fail()
    ensures boot_of_no_site { FailsAtLast boot_of_no_site }
    ensures boot_of_a_running_site { FailsAtLast boot_of_a_running_site }
    ensures stop_of_a_stopped_site { FailsAtLast stop_of_a_stopped_site }
    ensures stop_of_no_site { FailsAtLast stop_of_no_site }
    ensures leave_of_another_epoch { FailsAtLast leave_of_another_epoch }
    ensures join_of_a_stopped_site { FailsAtLast join_of_a_stopped_site }
    ensures join_beside_an_epoch { FailsAtLast join_beside_an_epoch }
    ensures join_of_a_lower_epoch { FailsAtLast join_of_a_lower_epoch }
    ensures join_of_an_earlier_boot { FailsAtLast join_of_an_earlier_boot }
    ensures start_twice { FailsAtLast start_twice }
    ensures start_of_a_group_without_a_pack { FailsAtLast start_of_a_group_without_a_pack }
    ensures start_before_all_are_in { FailsAtLast start_before_all_are_in }
    ensures join_of_a_lower_site { FailsAtLast join_of_a_lower_site }
    ensures join_of_a_lower_boot { FailsAtLast join_of_a_lower_boot }
{}

/// A call is accepted that may not be, or a mend that may not.
pub fn wrong_calls_fail()
    ensures call_at_a_stopped_site { FailsAtLast call_at_a_stopped_site }
    ensures mend_by_a_process { FailsAtLast mend_by_a_process }
    ensures mend_of_a_file { FailsAtLast mend_of_a_file }
    ensures mend_outside_its_epoch { FailsAtLast mend_outside_its_epoch }
    ensures mend_by_another_site { FailsAtLast mend_by_another_site }
    ensures mend_before_the_start { FailsAtLast mend_before_the_start }
    ensures mend_of_an_open_directory { FailsAtLast mend_of_an_open_directory }
    ensures mend_from_an_older_copy { FailsAtLast mend_from_an_older_copy }
    ensures two_mends_at_once { FailsAtLast two_mends_at_once }
    ensures skipped_call_number_of_a_mend { FailsAtLast skipped_call_number_of_a_mend }
    ensures mend_for_another_group { FailsAtLast mend_for_another_group }
{}

/// A call is answered that doesn't wait, or otherwise or later than its script says.
pub fn wrong_replies_fail()
    ensures reply_to_no_call { FailsAtLast reply_to_no_call }
    ensures reply_to_another_process { FailsAtLast reply_to_another_process }
    ensures reply_at_another_site { FailsAtLast reply_at_another_site }
    ensures reply_with_another_number { FailsAtLast reply_with_another_number }
    ensures another_reply_of_the_same_text { FailsAtLast another_reply_of_the_same_text }
    ensures reply_after_its_site_left { FailsAtLast reply_after_its_site_left }
    ensures late_local_refusal { FailsAtLast late_local_refusal }
    ensures changed_of_another_epoch { FailsAtLast changed_of_another_epoch }
    ensures late_changed { FailsAtLast late_changed }
    ensures changed_at_anothers_leave { FailsAtLast changed_at_anothers_leave }
    ensures changed_at_a_later_leave { FailsAtLast changed_at_a_later_leave }
    ensures changed_of_a_later_epoch { FailsAtLast changed_of_a_later_epoch }
    ensures changed_out_of_order { FailsAtLast changed_out_of_order }
{}

/// A look comes before its turn or out of place, or is served something else.
pub fn wrong_looks_fail()
    ensures look_before_the_start { FailsAtLast look_before_the_start }
    ensures look_at_an_older_version { FailsAtLast look_at_an_older_version }
    ensures look_for_an_unknown_call { FailsAtLast look_for_an_unknown_call }
    ensures look_in_another_epoch { FailsAtLast look_in_another_epoch }
    ensures look_with_number_0 { FailsAtLast look_with_number_0 }
    ensures look_before_its_turn { FailsAtLast look_before_its_turn }
    ensures look_again_after_the_next { FailsAtLast look_again_after_the_next }
    ensures look_that_is_not_asked { FailsAtLast look_that_is_not_asked }
{}

/// An open is granted that may not be, or elsewhere or otherwise than it may be.
pub fn wrong_opens_fail()
    ensures grant_before_the_start { FailsAtLast grant_before_the_start }
    ensures grant_of_anothers_instance { FailsAtLast grant_of_anothers_instance }
    ensures grant_of_an_instance_again { FailsAtLast grant_of_an_instance_again }
    ensures grant_with_a_skipped_number { FailsAtLast grant_with_a_skipped_number }
    ensures grant_in_another_mode { FailsAtLast grant_in_another_mode }
    ensures grant_of_a_busy_file { FailsAtLast grant_of_a_busy_file }
    ensures read_of_an_older_version { FailsAtLast read_of_an_older_version }
    ensures read_where_the_version_is_not { FailsAtLast read_where_the_version_is_not }
    ensures write_of_an_older_version { FailsAtLast write_of_an_older_version }
    ensures write_where_the_version_is_not { FailsAtLast write_where_the_version_is_not }
    ensures resolution_at_another_site { FailsAtLast resolution_at_another_site }
    ensures resolution_of_anothers_version { FailsAtLast resolution_of_anothers_version }
    ensures resolution_from_an_older_version { FailsAtLast resolution_from_an_older_version }
    ensures mend_at_another_site { FailsAtLast mend_at_another_site }
    ensures mend_of_anothers_version { FailsAtLast mend_of_anothers_version }
    ensures make_at_another_site { FailsAtLast make_at_another_site }
    ensures make_of_anothers_number { FailsAtLast make_of_anothers_number }
    ensures make_of_a_number_in_use { FailsAtLast make_of_a_number_in_use }
    ensures make_of_a_number_being_made { FailsAtLast make_of_a_number_being_made }
    ensures make_on_a_version { FailsAtLast make_on_a_version }
    ensures make_for_a_site_without_a_pack { FailsAtLast make_for_a_site_without_a_pack }
    ensures refusal_before_the_start { FailsAtLast refusal_before_the_start }
    ensures refusal_of_a_number { FailsAtLast refusal_of_a_number }
    ensures refusal_with_a_skipped_number { FailsAtLast refusal_with_a_skipped_number }
    ensures busy_for_another_process { FailsAtLast busy_for_another_process }
    ensures no_number_where_there_are { FailsAtLast no_number_where_there_are }
{}

/// An operation or a release is of another instance, has another result, or nobody asks for it.
pub fn wrong_steps_fail()
    ensures operation_judged_on_another { FailsAtLast operation_judged_on_another }
    ensures operation_with_the_number_after_the_next { FailsAtLast operation_with_the_number_after_the_next }
    ensures operation_that_is_not_asked { FailsAtLast operation_that_is_not_asked }
    ensures release_judged_on_another { FailsAtLast release_judged_on_another }
    ensures release_of_another_file { FailsAtLast release_of_another_file }
    ensures release_of_an_older_version { FailsAtLast release_of_an_older_version }
    ensures release_that_is_not_asked { FailsAtLast release_that_is_not_asked }
{}

/// A version is committed or adopted that may not be.
pub fn wrong_versions_fail()
    ensures commit_after_leaving { FailsAtLast commit_after_leaving }
    ensures commit_at_another_site { FailsAtLast commit_at_another_site }
    ensures commit_of_nothing_new { FailsAtLast commit_of_nothing_new }
    ensures commit_on_no_parent { FailsAtLast commit_on_no_parent }
    ensures resolution_that_loses_a_version { FailsAtLast resolution_that_loses_a_version }
    ensures adoption_after_leaving { FailsAtLast adoption_after_leaving }
    ensures adoption_before_publishing { FailsAtLast adoption_before_publishing }
    ensures adoption_of_a_file_for_others { FailsAtLast adoption_of_a_file_for_others }
    ensures adoption_into_an_open_file { FailsAtLast adoption_into_an_open_file }
    ensures commit_of_another_file { FailsAtLast commit_of_another_file }
    ensures settled_again { FailsAtLast settled_again }
{}

/// One word of a record is another than it must be.
pub fn wrong_words_fail()
    ensures conflict_with_an_older_version { FailsAtLast conflict_with_an_older_version }
    ensures conflict_with_a_version_that_never_was { FailsAtLast conflict_with_a_version_that_never_was }
    ensures busy_at_another_site { FailsAtLast busy_at_another_site }
    ensures ambiguous_with_another_first { FailsAtLast ambiguous_with_another_first }
    ensures ambiguous_with_another_second { FailsAtLast ambiguous_with_another_second }
    ensures stat_of_another_kind { FailsAtLast stat_of_another_kind }
    ensures stat_of_another_file { FailsAtLast stat_of_another_file }
    ensures stat_of_another_length { FailsAtLast stat_of_another_length }
    ensures stat_of_another_version { FailsAtLast stat_of_another_version }
    ensures entry_with_another_number { FailsAtLast entry_with_another_number }
    ensures entry_of_another_kind { FailsAtLast entry_of_another_kind }
    ensures insert_of_another_name { FailsAtLast insert_of_another_name }
    ensures insert_of_another_number { FailsAtLast insert_of_another_number }
    ensures insert_of_another_kind { FailsAtLast insert_of_another_kind }
    ensures read_at_another_place { FailsAtLast read_at_another_place }
    ensures read_of_another_length { FailsAtLast read_of_another_length }
    ensures write_at_another_place { FailsAtLast write_at_another_place }
    ensures operation_on_another_instance { FailsAtLast operation_on_another_instance }
    ensures look_at_another_file { FailsAtLast look_at_another_file }
    ensures start_with_another_number { FailsAtLast start_with_another_number }
    ensures start_with_another_version { FailsAtLast start_with_another_version }
    ensures rename_of_another_entry { FailsAtLast rename_of_another_entry }
    ensures rename_to_another_name { FailsAtLast rename_to_another_name }
    ensures remove_of_another_name { FailsAtLast remove_of_another_name }
{}

/// The samples that are wrong in themselves, whatever their schedule is, fail at the record that is wrong.
pub fn broken_traces_fail()
    ensures reply_twice { FailsAtLast (printed reply_twice) }
    ensures write_through_read_descriptor { FailsAtLast (printed write_through_read_descriptor) }
    ensures lost_commit { FailsAtLast (printed lost_commit) }
    ensures skipped_operation_number { FailsAtLast (printed skipped_operation_number) }
    ensures skipped_stamp { FailsAtLast (printed skipped_stamp) }
    ensures reply_before_its_step { FailsAtLast (printed reply_before_its_step) }
    ensures join_with_another_list { FailsAtLast (printed join_with_another_list) }
    ensures adoption_of_a_concurrent_version { FailsAtLast (printed adoption_of_a_concurrent_version) }
    ensures busy_with_nobody_there { FailsAtLast (printed busy_with_nobody_there) }
    ensures flag_on_an_unflagged_file { FailsAtLast (printed flag_on_an_unflagged_file) }
    ensures no_flag_on_a_flagged_file { FailsAtLast (printed no_flag_on_a_flagged_file) }
    ensures kept_version_passed_over { FailsAtLast (printed kept_version_passed_over) }
    ensures no_space_where_there_is_room { FailsAtLast (printed no_space_where_there_is_room) }
    ensures skipped_call_number { FailsAtLast (printed skipped_call_number) }
    ensures two_calls_at_once { FailsAtLast (printed two_calls_at_once) }
    ensures commit_of_other_bytes { FailsAtLast (printed commit_of_other_bytes) }
    ensures changed_in_the_same_epoch { FailsAtLast (printed changed_in_the_same_epoch) }
    ensures mend_of_an_unflagged_directory { FailsAtLast (printed mend_of_an_unflagged_directory) }
    ensures boot_with_its_old_number { FailsAtLast (printed boot_with_its_old_number) }
    ensures data_that_was_never_written { FailsAtLast (printed data_that_was_never_written) }
    ensures start_without_a_version { FailsAtLast (printed start_without_a_version) }
{}
