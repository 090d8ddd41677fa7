ghost use Rattle.std.specs.Prelude.{[], ◌∷◌, codes};
ghost use Rattle.lawful_trace.specs.Samples.{file, stamp};
ghost use Rattle.box_samples.specs.Judged.{IsLeftOut, IsSpokenOf, Shows, ShowsWrongly};
ghost use Rattle.box_samples.specs.MailUnlinked.{mail_unlinked};
ghost use Rattle.box_samples.specs.Wrong.{made_by_hand, message_back, message_lost, message_of_nobody, message_renamed, message_twice, renamed_as_a_message, written_again};

/// The law speaks of the trace of this run, and each version of its box shows what it must, computed: after the first mail, when the sides of
/// the first cut have met, after the removal, beside it, and when the sides of the second cut have met.
pub fn the_boxes_of_a_run_are_as_told()
    ensures premises { IsSpokenOf mail_unlinked }
    ensures mailed { Shows mail_unlinked (file 0 2) (stamp 1 2) (codes "m1.1.2" ∷ []) }
    ensures met { Shows mail_unlinked (file 0 2) (stamp 1 3) (codes "m1.1.2" ∷ codes "m3.1.1" ∷ []) }
    ensures removed { Shows mail_unlinked (file 0 2) (stamp 1 4) (codes "m1.1.2" ∷ []) }
    ensures mailed_beside { Shows mail_unlinked (file 0 2) (stamp 3 2) (codes "m1.1.2" ∷ codes "m3.1.1" ∷ codes "m3.1.2" ∷ []) }
    ensures met_again { Shows mail_unlinked (file 0 2) (stamp 1 5) (codes "m1.1.2" ∷ codes "m3.1.2" ∷ []) }
{}

/// The law is false where the merge of the same two boxes loses a message, shows one again that was taken out, shows one twice, or shows one
/// that nobody has put in.
pub fn wrong_boxes_are_told()
    ensures lost { ShowsWrongly message_lost (file 0 2) (stamp 1 5) (codes "m1.1.2" ∷ []) (codes "m1.1.2" ∷ codes "m3.1.2" ∷ []) }
    ensures back { ShowsWrongly message_back (file 0 2) (stamp 1 5) (codes "m1.1.2" ∷ codes "m3.1.1" ∷ codes "m3.1.2" ∷ []) (codes "m1.1.2" ∷ codes "m3.1.2" ∷ []) }
    ensures twice { ShowsWrongly message_twice (file 0 2) (stamp 1 5) (codes "m1.1.2" ∷ codes "m3.1.2@130" ∷ codes "m3.1.2@131" ∷ []) (codes "m1.1.2" ∷ codes "m3.1.2" ∷ []) }
    ensures nobody { ShowsWrongly message_of_nobody (file 0 2) (stamp 1 5) (codes "m1.1.2" ∷ codes "m2.1.9" ∷ codes "m3.1.2" ∷ []) (codes "m1.1.2" ∷ codes "m3.1.2" ∷ []) }
{}

/// The law doesn't speak of a trace in which a file is made by another call under the name of a message, nor of one in which a message gets
/// another name, a file gets that of one, or a message's file is written again.
pub fn other_traces_are_left_out()
    ensures made { IsLeftOut made_by_hand }
    ensures renamed { IsLeftOut message_renamed }
    ensures named { IsLeftOut renamed_as_a_message }
    ensures written { IsLeftOut written_again }
{}
