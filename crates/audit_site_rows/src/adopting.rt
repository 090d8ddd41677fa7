ghost use Rattle.std.specs.Prelude.{◌≡◌, ◌==◌, not, ◌&&◌, ◌||◌, IfOk};
ghost use Rattle.std.specs.List.{list_any};
ghost use Rattle.commit_graph.specs.Versions.{same_file, is_proper_ancestor};
ghost use Rattle.locus_ids.specs.Sites.{has};
ghost use Rattle.tree_model.specs.State.{has_stamp};
ghost use Rattle.promises.specs.Past.{Instance, candidates, making_of, site_at};
ghost use Rattle.promises.specs.Rows.{is_above_held, may_adopt};
ghost use Rattle.audit_site_rows.specs.Rows.{AreApart, adopts, are_below};

use audit_copies::CopyRow;
use audit_past::Told;
use audit_past::audit_epochs::EpochRow;
use audit_versions::Versions;
use locus_ids::{EpochId, FileId, NoMemory, Stamp};
use tree_tables::has_site;

/// The epoch that the site is in.
pub(crate) fn home_of(told: &Told, site: u8) -> Option<EpochId>
    ensures { result ≡ (site_at told.now site).epoch }
{
    told.sites().site_at(site).epoch()
}

/// A site adopts a version of its epoch that is above its own, of a file that is for it and that nobody has open there.
pub fn may_adopt(told: &Told, file: FileId, site: u8, stamp: Stamp) -> Result<bool, NoMemory>
    requires apart { AreApart told.now.epochs }
    ensures { IfOk result (λ yes. yes ≡ list_any (may_adopt told.now file site stamp) told.now.epochs) }
{
    let home = home_of(told, site);
    match told.epochs().home(home) {
        Some(row) => adopts(told, row, site, CopyRow { file, stamp }),
        None => Ok(false),
    }
}

fn adopts(told: &Told, row: &EpochRow, site: u8, copy: CopyRow) -> Result<bool, NoMemory>
    ensures { IfOk result (λ yes. yes ≡ adopts told.now copy.file site copy.stamp row.now) }
{
    if !is_candidate(row, copy) {
        return Ok(false);
    }
    if !is_for(told, copy.file, site) {
        return Ok(false);
    }
    let free = is_free(row, site, copy.file);
    rises(told, site, copy, free)
}

/// The version was brought to the epoch or published in it.
#[tactic(auto, using(crate::proofs::Home::known_has))]
fn is_candidate(row: &EpochRow, copy: CopyRow) -> bool
    ensures { result ≡ has_stamp (candidates row.now copy.file) copy.stamp }
{
    row.known().has(copy)
}

/// Nobody has the file open at the site.
fn is_free(row: &EpochRow, site: u8, file: FileId) -> bool
    ensures { result ≡ not (list_any (λ (x : Instance). (x.grant.ss == site) && same_file x.grant.file file) row.now.opened) }
{
    !row.opened().is_open_at(site, file)
}

/// The version is above what the site has, and the rest holds.
fn rises(told: &Told, site: u8, copy: CopyRow, rest: bool) -> Result<bool, NoMemory>
    ensures { IfOk result (λ yes. yes ≡ (is_above_held told.now site copy.file copy.stamp && rest)) }
{
    let held = told.sites().site_at(site).held();
    let above = are_below(told.versions(), held, copy.file, copy.stamp)?;
    Ok(above && rest)
}

/// The file is for the site.
fn is_for(told: &Told, file: FileId, site: u8) -> bool
    ensures { result ≡ has (making_of told.now file).set site }
{
    let making = told.files().said_of(file);
    has_site(making.set, site)
}

/// What one has of the file is a proper ancestor of the version.
fn are_below(
    versions: &Versions,
    held: &[CopyRow],
    file: FileId,
    stamp: Stamp,
) -> Result<bool, NoMemory>
    ensures { IfOk result (λ yes. yes ≡ are_below versions.now file stamp held.now) }
{
    for copy in held {
        if !is_below(versions, copy, file, stamp)? {
            return Ok(false);
        }
    }
    Ok(true)
}

fn is_below(
    versions: &Versions,
    copy: &CopyRow,
    file: FileId,
    stamp: Stamp,
) -> Result<bool, NoMemory>
    ensures { IfOk result (λ yes. yes ≡ (not (same_file copy.now.file file) || is_proper_ancestor versions.now file copy.now.stamp stamp)) }
{
    if copy.file != file {
        return Ok(true);
    }
    versions.is_proper_ancestor(file, copy.stamp, stamp)
}
