ghost use Rattle.std.specs.Prelude.{◌≡◌};
ghost use Rattle.std.specs.List.{find, list_any};
ghost use Rattle.commit_graph.specs.Versions.{same_file};
ghost use Rattle.trace_book.specs.Same.{same_serial};
ghost use Rattle.tree_model.specs.State.{is_group_of};
ghost use Rattle.tree_model.specs.State.{is_grant_of};
ghost use Rattle.tree_model.specs.declared.instance.Granted.{Granted};

use locus_ids::{FileId, Serial};
use tree_model::Granted;

/// Some grant names the instance.
pub fn is_granted(grants: &[Granted], inst: Serial) -> bool
    ensures { result ≡ list_any (is_grant_of inst) grants.now }
{
    grants.iter().any(|row| row.inst == inst)
}

/// Some instance was granted this file.
pub fn is_taken(grants: &[Granted], file: FileId) -> bool
    ensures { result ≡ list_any (λ (g : Granted). same_file g.file file) grants.now }
{
    grants.iter().any(|row| row.file == file)
}

/// The first grant that names the instance is of this group.
pub fn group_granted(grants: &[Granted], inst: Serial, group: u8) -> bool
    ensures { result ≡ is_group_of (find (is_grant_of inst) grants.now) group }
{
    for row in grants {
        if row.inst == inst {
            return row.file.group == group;
        }
    }
    false
}
