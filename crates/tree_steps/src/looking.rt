ghost use Rattle.std.specs.Prelude.{◌≡◌, IfOk};
ghost use Rattle.tree_model.specs.Given.{gives_look, gives_start, only_kept, served_by};
ghost use Rattle.tree_model.specs.Same.{is_served, same_served};
ghost use Rattle.tree_model.specs.State.{kept_of};

use crate::TreeTables;
use commit_graph::{History, kept};
use locus_ids::{Brought, FileId, NoMemory, Refusal, Stamp, Stamps};
use trace_book::{Served, What};
use tree_tables::{has_stamp, same_all, same_served, stamps_of};

impl TreeTables {
    /// The tree gives this start.
    pub fn gives_start(&self, copies: &[Brought]) -> bool
        ensures { result ≡ gives_start self.now copies.now }
    {
        !self.started && same_all(copies, self.known.as_slice())
    }

    /// The versions of a file of the group that are kept.
    pub fn kept(&self, h: &History, file: FileId) -> Result<Stamps, NoMemory>
        ensures { IfOk result (λ made. made ≡ kept_of h.now self.now file) }
    {
        let alloc = self.allocator();
        let known = stamps_of(alloc, self.known.as_slice(), file.ino)?;
        kept(alloc, h, file, &known)
    }

    /// The tree gives this answer of a look.
    pub fn gives_look(
        &self,
        h: &History,
        file: FileId,
        what: &What,
        served: &Served,
    ) -> Result<bool, NoMemory>
        ensures { IfOk result (λ yes. yes ≡ gives_look h.now self.now file what.now served.now) }
    {
        if !self.started {
            return Ok(false);
        }
        let kept = self.kept(h, file)?;
        Ok(is_served(what, kept.as_slice(), served))
    }
}

/// A look that asks this is so answered where these versions are kept.
fn is_served(what: &What, kept: &[Stamp], served: &Served) -> bool
    ensures { result ≡ is_served (served_by what.now kept.now) served.now }
{
    match what {
        What::Whole { stamp } => {
            has_stamp(kept, *stamp) && same_served(&Served::At { stamp: *stamp }, served)
        }
        What::Name { component: _ } => is_only_kept(kept, served),
        What::List => is_only_kept(kept, served),
        What::Stat => is_only_kept(kept, served),
    }
}

/// The only kept version is served, or is told why there is none.
fn is_only_kept(kept: &[Stamp], served: &Served) -> bool
    ensures { result ≡ same_served (only_kept kept.now) served.now }
{
    let only = match kept {
        [] => Served::No {
            why: Refusal::NoStorage,
        },
        [only] => Served::At { stamp: *only },
        [a, b, ..] => Served::No {
            why: Refusal::Conflict { a: *a, b: *b },
        },
    };
    same_served(&only, served)
}
