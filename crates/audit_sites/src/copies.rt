ghost use Rattle.std.specs.Prelude.{◌≡◌, not, filter};
ghost use Rattle.commit_graph.specs.Versions.{same_file};
ghost use Rattle.promises.specs.Past.{Copy, stamp_in};

use audit_copies::CopyRow;
use locus_ids::{FileId, Stamp};

fn is_of(copy: &CopyRow, file: FileId) -> bool
    ensures { result ≡ same_file copy.now.file file }
{
    copy.file == file
}

fn stamp_of(copy: &CopyRow) -> Stamp
    ensures { result ≡ copy.now.stamp }
{
    copy.stamp
}

/// The version of the file among these.
pub(crate) fn stamp_in(copies: &[CopyRow], file: FileId) -> Option<Stamp>
    ensures { result ≡ stamp_in copies.now file }
{
    for copy in copies {
        if is_of(copy, file) {
            return Some(stamp_of(copy));
        }
    }
    None
}

/// No version of the file any more.
pub(crate) fn drop_file(copies: &mut Vec<CopyRow>, file: FileId)
    ensures { copies.new.items ≡ filter (λ (v : Copy). not (same_file v.file file)) copies.old.items }
{
    copies.retain(|copy| !is_of(copy, file));
}
