ghost use Rattle.std.specs.Prelude.{None, Some};
ghost use Rattle.lawful_trace.specs.Samples.{file, stamp};
ghost use Rattle.steady_samples.specs.HeldThroughACut.{held_through_a_cut};
ghost use Rattle.steady_samples.specs.Judged.{BreaksAfter, IsLawful, Keeps};
ghost use Rattle.steady_samples.specs.Wrong.{bytes_lost, first_epoch_named, newer_version_read, other_version_held, stale_too_early};

/// The law of one version holds of the trace of this run, and its number keeps the version of its open until it is closed.
pub fn a_reader_stays_with_its_version()
    ensures lawful { IsLawful held_through_a_cut }
    ensures before { Keeps 34 held_through_a_cut 0 None }
    ensures opened { Keeps 35 held_through_a_cut 0 (Some (record { file = file 0 2; stamp = stamp 1 2 })) }
    ensures held_again { Keeps 50 held_through_a_cut 0 (Some (record { file = file 0 2; stamp = stamp 1 2 })) }
    ensures told_stale { Keeps 80 held_through_a_cut 0 (Some (record { file = file 0 2; stamp = stamp 1 2 })) }
    ensures closed { Keeps 82 held_through_a_cut 0 None }
{}

/// The law is false where the read goes on from the newer version, where it is answered by an instance of another version at all, where it is
/// told to be stale though its version was granted, where the wrong epoch is named, and where bytes are lost.
pub fn other_versions_are_told()
    ensures newer { BreaksAfter 77 newer_version_read }
    ensures other { BreaksAfter 77 other_version_held }
    ensures early { BreaksAfter 48 stale_too_early }
    ensures epoch { BreaksAfter 77 first_epoch_named }
    ensures bytes { BreaksAfter 49 bytes_lost }
{}
