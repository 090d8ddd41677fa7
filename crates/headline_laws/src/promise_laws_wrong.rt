//! Traces that break a promise.
ghost use Rattle.headline_laws.specs.Promises.Acknowledged.{NewOnceAcknowledged};
ghost use Rattle.headline_laws.specs.Promises.Committing.{CommitsAreAsked};
ghost use Rattle.headline_laws.specs.Promises.Holding.{CommitsStayHeld};
ghost use Rattle.headline_laws.specs.Promises.Wrong.{commit_at_an_abort, of_first, site_that_falls_back, stamp_of_no_commit};

/// Each of these traces breaks a promise: one has a commit while an abort is asked, in one a site falls back behind its own commit, and in
/// one a commit is acknowledged that no record tells.
pub fn wrong_traces_break_promises()
    ensures aborts { CommitsAreAsked of_first commit_at_an_abort → ⊥ }
    ensures falls { CommitsStayHeld of_first site_that_falls_back → ⊥ }
    ensures tells { NewOnceAcknowledged of_first stamp_of_no_commit → ⊥ }
{}
