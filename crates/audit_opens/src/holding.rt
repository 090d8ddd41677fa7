//! What sites have in an epoch.

ghost use Rattle.std.specs.Prelude.{◌≡◌, ◌==◌, []};
ghost use Rattle.commit_graph.specs.Versions.{same_file};
ghost use Rattle.promises.specs.Past.{Left, copies_in, first_or, held_in, stamp_in};
ghost use Rattle.tree_model.specs.Epochs.{is_in};
ghost use Rattle.audit_opens.specs.Once.{past_of};

use audit_copies::CopyRow;
use audit_epochs::{EpochRow, LeftRow};
use audit_sites::SiteRows;
use locus_ids::{EpochId, FileId, Stamp};

/// What a site has in an epoch: it stays what it was when the site left or stopped.
pub fn copies_in<'a>(sites: &'a SiteRows, t: &'a EpochRow, site: u8) -> &'a [CopyRow]
    ensures { result.now ≡ copies_in (past_of sites.now [] []) t.now site }
{
    let row = sites.site_at(site);
    if is_in(row.epoch(), t.id()) {
        row.held()
    } else {
        left_by(t.left(), site)
    }
}

/// The version that a site has of a file in an epoch.
pub fn held_in(sites: &SiteRows, t: &EpochRow, site: u8, file: FileId) -> Option<Stamp>
    ensures { result ≡ held_in (past_of sites.now [] []) t.now site file }
{
    stamp_in(copies_in(sites, t, site), file)
}

fn is_in(home: Option<EpochId>, epoch: EpochId) -> bool
    ensures { result ≡ is_in home epoch }
{
    match home {
        Some(home) => home == epoch,
        None => false,
    }
}

/// What the site had when it left, or nothing.
fn left_by(left: &[LeftRow], site: u8) -> &[CopyRow]
    ensures { result.now ≡ (first_or (record { site = site; held = [] }) (λ (l : Left). l.site == site) left.now).held }
{
    for row in left {
        if is_of(row, site) {
            return row.held.as_slice();
        }
    }
    &[]
}

fn is_of(row: &LeftRow, site: u8) -> bool
    ensures { result ≡ (row.now.site == site) }
{
    row.site == site
}

/// The version of the file among these.
fn stamp_in(copies: &[CopyRow], file: FileId) -> Option<Stamp>
    ensures { result ≡ stamp_in copies.now file }
{
    for copy in copies {
        if is_version_of(*copy, file) {
            return Some(copy.stamp);
        }
    }
    None
}

fn is_version_of(copy: CopyRow, file: FileId) -> bool
    ensures { result ≡ same_file copy.file file }
{
    copy.file == file
}
