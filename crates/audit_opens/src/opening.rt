//! What refuses an open.

ghost use Rattle.std.specs.Prelude.{◌≡◌, ◌&&◌, List, [], not, cond, None, Some};
ghost use Rattle.std.specs.List.{list_any};
ghost use Rattle.std.specs.Option.{option_or};
ghost use Rattle.locus_ids.specs.declared.refusal.Refusal.TheVariants.{NoInode, NoStorage};
ghost use Rattle.commit_graph.specs.Grants.{grant_refusal, is_read};
ghost use Rattle.commit_graph.specs.Versions.{same_file};
ghost use Rattle.locus_ids.specs.declared.ids.Mode.TheVariants.{Resolve};
ghost use Rattle.tree_model.specs.Same.{same_refusal};
ghost use Rattle.tree_model.specs.State.{is_make};
ghost use Rattle.commit_graph.specs.declared.history.Version.{Version};
ghost use Rattle.promises.specs.Past.{CallSoFar, kept_in};
ghost use Rattle.promises.specs.Rows.{is_refused};
ghost use Rattle.promises.specs.Tree.{has_kept, lacks_numbers, open_refusal, openers, place_for, resolves_from};
ghost use Rattle.audit_opens.specs.Once.{HaveOwnIds, openers_among, past_of};

use crate::holding::copies_in;
use crate::numbers::{lacks_numbers, place_of};
use audit_calls::{CallRow, Calls};
use audit_epochs::EpochRow;
use audit_instances::InstanceRow;
use audit_sites::SiteRows;
use audit_tree::{excludes, has_kept, kept_refusal, make_refusal, resolves_from};
use locus_ids::{Config, FileId, Mode, Refusal, Stamp};
use tree_tables::same_refusal;

/// The first that refuses an open of a call where these versions are kept, or `None` where nothing does.
#[tactic(auto, using(crate::proofs::Refusing::no_other))]
pub fn open_refusal(
    config: &Config,
    sites: &SiteRows,
    t: &EpochRow,
    k: &CallRow,
    mode: Mode,
    file: FileId,
    kept: &[Stamp],
) -> Option<Refusal>
    ensures { (calls : List CallSoFar) (h : List Version) → kept.now ≡ kept_in (past_of sites.now calls h) t.now file → result ≡ open_refusal config.now (past_of sites.now calls h) t.now k.now mode file }
{
    match mode {
        Mode::Make => {
            let members = t.members();
            make_refusal(config, &members, file.group, k.id().site, k.words())
        }
        Mode::Resolve => resolve_in_turn(sites, t, k, file, kept),
        Mode::Read => grant_refusal(t.opened().as_slice(), Mode::Read, file, kept),
        Mode::Write => grant_refusal(t.opened().as_slice(), Mode::Write, file, kept),
        Mode::Mend => grant_refusal(t.opened().as_slice(), Mode::Mend, file, kept),
    }
}

/// The earliest granted open instance that excludes an open of the file, or what the kept versions refuse.
fn grant_refusal(rows: &[InstanceRow], mode: Mode, file: FileId, kept: &[Stamp]) -> Option<Refusal>
    ensures { result ≡ grant_refusal mode (openers_among rows.now file) kept.now }
{
    for row in rows {
        if is_excluding(row, file, mode) {
            let grant = row.grant();
            return Some(Refusal::Busy {
                site: grant.call.site,
                process: grant.process,
            });
        }
    }
    kept_refusal(mode, kept)
}

fn is_excluding(row: &InstanceRow, file: FileId, mode: Mode) -> bool
    ensures { result ≡ (same_file row.now.grant.file file && not (is_read mode && is_read row.now.grant.mode)) }
{
    let grant = row.grant();
    grant.file == file && excludes(mode, grant.mode)
}

/// Of a resolution, first by what is open and kept, then by its site.
#[tactic(auto, using(crate::proofs::Refusing::turn_some, crate::proofs::Refusing::turn_none))]
fn resolve_in_turn(
    sites: &SiteRows,
    t: &EpochRow,
    k: &CallRow,
    file: FileId,
    kept: &[Stamp],
) -> Option<Refusal>
    ensures { (calls : List CallSoFar) (h : List Version) → kept.now ≡ kept_in (past_of sites.now calls h) t.now file → result ≡ option_or (grant_refusal Resolve (openers t.now file) (kept_in (past_of sites.now calls h) t.now file)) (cond (list_any (has_kept (past_of sites.now calls h) t.now file) (resolves_from k.now.words)) None (Some NoStorage)) }
{
    match grant_refusal(t.opened().as_slice(), Mode::Resolve, file, kept) {
        Some(refusal) => Some(refusal),
        None => resolve_refusal(sites, t, k, file, kept),
    }
}

/// A resolution is from a site that has a kept version.
fn resolve_refusal(
    sites: &SiteRows,
    t: &EpochRow,
    k: &CallRow,
    file: FileId,
    kept: &[Stamp],
) -> Option<Refusal>
    ensures { (calls : List CallSoFar) (h : List Version) → kept.now ≡ kept_in (past_of sites.now calls h) t.now file → result ≡ cond (list_any (has_kept (past_of sites.now calls h) t.now file) (resolves_from k.now.words)) None (Some NoStorage) }
{
    if has_named(sites, t, k, file, kept) {
        None
    } else {
        Some(Refusal::NoStorage)
    }
}

#[tactic(auto, using(crate::proofs::Refusing::named_so, crate::proofs::Refusing::none_named))]
fn has_named(sites: &SiteRows, t: &EpochRow, k: &CallRow, file: FileId, kept: &[Stamp]) -> bool
    ensures { (calls : List CallSoFar) (h : List Version) → kept.now ≡ kept_in (past_of sites.now calls h) t.now file → result ≡ list_any (has_kept (past_of sites.now calls h) t.now file) (resolves_from k.now.words) }
{
    match resolves_from(k.words()) {
        Some(site) => has_kept(copies_in(sites, t, site), file, kept),
        None => false,
    }
}

/// The open is refused so where these versions are kept: for the first that refuses it; a make that nothing refuses, where its
/// storage site lacks numbers.
#[tactic(auto, using(crate::proofs::Refusing::refused_some, crate::proofs::Refusing::refused_none))]
pub fn is_refused(
    config: &Config,
    sites: &SiteRows,
    calls: &Calls,
    t: &EpochRow,
    k: &CallRow,
    mode: Mode,
    file: FileId,
    kept: &[Stamp],
    why: &Refusal,
) -> bool
    requires { HaveOwnIds calls.now }
    ensures { (h : List Version) → kept.now ≡ kept_in (past_of sites.now calls.now h) t.now file → result ≡ is_refused config.now (past_of sites.now calls.now h) t.now mode file why.now k.now }
{
    match open_refusal(config, sites, t, k, mode, file, kept) {
        Some(refusal) => same_refusal(&refusal, why),
        None => is_make(mode) && is_unnumbered(config, sites, calls, t, k, file.group, why),
    }
}

/// A make that nothing else refuses is refused for want of a number.
fn is_unnumbered(
    config: &Config,
    sites: &SiteRows,
    calls: &Calls,
    t: &EpochRow,
    k: &CallRow,
    group: u8,
    why: &Refusal,
) -> bool
    requires { HaveOwnIds calls.now }
    ensures { result ≡ (same_refusal why.now NoInode && list_any (lacks_numbers config.now (past_of sites.now calls.now []) t.now group) (place_for config.now t.now group k.now)) }
{
    same_refusal(why, &Refusal::NoInode) && is_place_lacking(config, sites, calls, t, k, group)
}

/// The storage site of the call's file lacks numbers.
#[tactic(auto, using(crate::proofs::Refusing::lacks_one, crate::proofs::Refusing::lacks_none))]
fn is_place_lacking(
    config: &Config,
    sites: &SiteRows,
    calls: &Calls,
    t: &EpochRow,
    k: &CallRow,
    group: u8,
) -> bool
    requires { HaveOwnIds calls.now }
    ensures { result ≡ list_any (lacks_numbers config.now (past_of sites.now calls.now []) t.now group) (place_for config.now t.now group k.now) }
{
    match place_of(config, t, group, k) {
        Some(site) => lacks_numbers(config, sites, calls, t, group, site),
        None => false,
    }
}

fn is_make(mode: Mode) -> bool
    ensures { result ≡ is_make mode }
{
    matches!(mode, Mode::Make)
}
