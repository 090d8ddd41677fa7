ghost use Rattle.std.specs.Prelude.{◌≡◌};
ghost use Rattle.audit_past.specs.Seen.{last_of};

use crate::LastSeen;
use audit_acts::audit_tree::LastDir;
use audit_calls::Calls;
use audit_epochs::Epochs;
use audit_sites::{Makings, SiteRows};
use audit_versions::Versions;
use std::alloc::Global;
use std::marker::Model;

/// What the records so far tell. Contracts see it as the past of the records.
pub struct Told {
    pub(crate) alloc: Global,
    pub(crate) sites: SiteRows,
    pub(crate) epochs: Epochs,
    pub(crate) calls: Calls,
    pub(crate) versions: Versions,
    pub(crate) files: Makings,
    pub(crate) seen: LastSeen,
    /// Kept for the next look at it.
    pub(crate) dir: LastDir,
}

// Taken apart in one place: where what is told is dropped, the prover sees one call.
impl Drop for Told {
    fn drop(self) {
        let Told {
            alloc: _,
            sites: _,
            epochs: _,
            calls: _,
            versions: _,
            files: _,
            seen: _,
            dir: _,
        } = self;
    }
}

impl Model for Told {
    ghost use Rattle.promises.specs.Past.{Past};
    ghost use Rattle.audit_past.specs.Seen.{last_of};

    ghost Value = { Past };

    ghost view = { λ t. record { sites = t.sites; epochs = t.epochs; calls = t.calls; history = t.versions; files = t.files; last = last_of t.seen } };
}

impl Told {
    pub fn sites(&self) -> &SiteRows
        ensures { result.now ≡ self.now.sites }
    {
        &self.sites
    }

    pub fn epochs(&self) -> &Epochs
        ensures { result.now ≡ self.now.epochs }
    {
        &self.epochs
    }

    pub fn calls(&self) -> &Calls
        ensures { result.now ≡ self.now.calls }
    {
        &self.calls
    }

    pub fn versions(&self) -> &Versions
        ensures { result.now ≡ self.now.history }
    {
        &self.versions
    }

    pub fn files(&self) -> &Makings
        ensures { result.now ≡ self.now.files }
    {
        &self.files
    }

    /// What the last record was, where the next may hang on it.
    pub fn seen(&self) -> LastSeen
        ensures { last_of result ≡ self.now.last }
    {
        self.seen
    }
}
