//! Where an open is granted, and on which version.

ghost use Rattle.std.specs.Prelude.{◌≡◌, ◌&&◌, List, [], not, nat_lt};
ghost use Rattle.std.specs.List.{list_any};
ghost use Rattle.std.specs.Option.{is_none};
ghost use Rattle.commit_graph.specs.Versions.{same_file, same_stamp};
ghost use Rattle.tree_model.specs.declared.instance.Granted.{Granted};
ghost use Rattle.audit_tree.specs.Parts.{is_given};
ghost use Rattle.audit_opens.specs.Once.{past_of};
ghost use Rattle.tree_model.specs.Same.{same_version};
ghost use Rattle.tree_model.specs.Working.{list_of};
ghost use Rattle.commit_graph.specs.declared.history.Version.{Version};
ghost use Rattle.promises.specs.Past.{CallSoFar, held_in, is_number, kept_in, sync_of};
ghost use Rattle.promises.specs.Same.{same_list};
ghost use Rattle.promises.specs.Tree.{is_new_at, is_placed};

use crate::holding::held_in;
use crate::numbers::place_of;
use audit_calls::CallRow;
use audit_epochs::EpochRow;
use audit_sites::SiteRows;
use audit_tree::{is_given, is_only, resolves_from, sync_site};
use locus_ids::{Config, FileId, Mode, Stamp};
use tree_tables::same_version;

/// A file, a storage site for it, and the version on which an instance of it is granted there.
#[derive(Clone, Copy)]
pub struct Place {
    pub file: FileId,
    pub stamp: Option<Stamp>,
    pub ss: u8,
}

/// The open may be granted so, where these versions are kept.
pub fn is_placed(
    config: &Config,
    sites: &SiteRows,
    t: &EpochRow,
    k: &CallRow,
    mode: Mode,
    place: Place,
    kept: &[Stamp],
) -> bool
    ensures { (calls : List CallSoFar) (h : List Version) → kept.now ≡ kept_in (past_of sites.now calls h) t.now place.file → result ≡ is_placed config.now (past_of sites.now calls h) t.now k.now mode place.file place.stamp place.ss }
{
    match mode {
        Mode::Read => is_only_kept(sites, t, place, kept),
        Mode::Write => is_only_kept(sites, t, place, kept),
        Mode::Resolve => is_site(resolves_from(k.words()), place.ss) && has_it(sites, t, place),
        Mode::Mend => {
            is_site(sync_of(config, t, place.file.group), place.ss) && has_it(sites, t, place)
        }
        Mode::Make => {
            is_site(place_of(config, t, place.file.group, k), place.ss)
                && (is_new_at(sites, t, place.file, place.ss) && place.stamp.is_none())
        }
    }
}

/// The site has the only kept version, which is this.
fn is_only_kept(sites: &SiteRows, t: &EpochRow, place: Place, kept: &[Stamp]) -> bool
    ensures { result ≡ (same_list same_stamp kept.now (list_of place.stamp) && same_version (held_in (past_of sites.now [] []) t.now place.ss place.file) place.stamp) }
{
    is_only(kept, place.stamp) && has_it(sites, t, place)
}

/// The synchronization site of the group.
fn sync_of(config: &Config, t: &EpochRow, group: u8) -> Option<u8>
    ensures { list_of result ≡ sync_of config.now t.now group }
{
    sync_site(config, &t.members(), group)
}

/// The site has just this version of the file in the epoch.
fn has_it(sites: &SiteRows, t: &EpochRow, place: Place) -> bool
    ensures { result ≡ same_version (held_in (past_of sites.now [] []) t.now place.ss place.file) place.stamp }
{
    same_version(held_in(sites, t, place.ss, place.file), place.stamp)
}

/// The number is one of the storage site's, and no file and no instance has it.
fn is_new_at(sites: &SiteRows, t: &EpochRow, file: FileId, ss: u8) -> bool
    ensures { result ≡ is_new_at (past_of sites.now [] []) t.now file ss }
{
    is_unused_at(sites, t, file, ss)
}

/// The same, told without the list of the site's numbers.
fn is_unused_at(sites: &SiteRows, t: &EpochRow, file: FileId, ss: u8) -> bool
    ensures { result ≡ (is_given ss file.ino && (nat_lt 1 file.ino && (is_none (held_in (past_of sites.now [] []) t.now ss file) && not (list_any (λ (g : Granted). same_file g.file file) t.now.granted)))) }
{
    is_given(ss, file.ino)
        && (1 < file.ino && (held_in(sites, t, ss, file).is_none() && !t.granted().is_taken(file)))
}

#[tactic(auto, using(crate::proofs::Lacking::site_so))]
pub(crate) fn is_site(place: Option<u8>, site: u8) -> bool
    ensures { result ≡ is_number (list_of place) site }
{
    match place {
        Some(place) => place == site,
        None => false,
    }
}
