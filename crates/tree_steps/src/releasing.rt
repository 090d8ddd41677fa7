ghost use Rattle.std.specs.Prelude.{◌≡◌, ◌<◌, ◌&&◌, ◌||◌, not, length};
ghost use Rattle.commit_graph.specs.Versions.{same_file};
ghost use Rattle.tree_model.specs.Given.{gives_release, instance_ends};
ghost use Rattle.tree_model.specs.Same.{same_version};
ghost use Rattle.tree_model.specs.Working.{is_spent};

use crate::TreeTables;
use commit_graph::History;
use locus_ids::{FileId, Serial, Stamp};
use tree_model::Instance;
use tree_tables::same_version;

impl TreeTables {
    /// The tree gives this release.
    #[tactic(auto, using(crate::proofs::Spent::ends_owing_nothing))]
    pub fn gives_release(
        &self,
        h: &History,
        inst: Serial,
        file: FileId,
        stamp: Option<Stamp>,
    ) -> bool
        requires { length h.now < 4294967295 }
        ensures { result ≡ gives_release h.now self.now inst file stamp }
    {
        match self.instances.named(inst) {
            Some(instance) => ends(instance, file, stamp),
            None => false,
        }
    }
}

/// The instance is one of the file, has last committed this version and owes no commit.
fn ends(instance: &Instance, file: FileId, stamp: Option<Stamp>) -> bool
    ensures { result ≡ (same_file instance.now.grant.file file && (same_version stamp instance.now.work.committed && not instance.now.work.owes)) }
{
    instance.grant.file == file
        && (same_version(stamp, instance.work.committed) && !instance.work.owes)
}
