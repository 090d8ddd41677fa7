//! Traces with stops within disk calls: the law holds of the right ones, and refuses wrong ones that are lawful by the rows.
ghost use Rattle.lawful_trace.specs.Samples.{IsRight};
ghost use Rattle.headline_laws.specs.StopRuns.Samples.{IsExact, version_that_stays, version_that_is_lost, boot_that_fails, stop_before_any_call, version_that_leave_took_away, disk_that_goes_on, boot_that_was_over};

/// Where a version stays, where one is lost, and where a boot fails, the cut is where it should be.
pub fn right_cuts_are_exact()
    ensures stays { IsExact version_that_stays }
    ensures lost { IsExact version_that_is_lost }
    ensures fails { IsExact boot_that_fails }
{}

/// A stop before any disk call, a version that is told though what was left took it away, a disk that goes on after its last call, and a
/// stop in a boot all of whose calls pass: each is refused.
pub fn wrong_cuts_are_refused()
    ensures early { IsExact stop_before_any_call → ⊥ }
    ensures took_away { IsExact version_that_leave_took_away → ⊥ }
    ensures goes_on { IsExact disk_that_goes_on → ⊥ }
    ensures over { IsExact boot_that_was_over → ⊥ }
{}

/// The rows of the lawful trace let each of these through.
pub fn rows_let_wrong_cuts_through()
    ensures early { IsRight stop_before_any_call }
    ensures took_away { IsRight version_that_leave_took_away }
    ensures goes_on { IsRight disk_that_goes_on }
    ensures over { IsRight boot_that_was_over }
{}
