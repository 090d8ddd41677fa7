ghost use Rattle.std.specs.Prelude.{◌≡◌, ◌==◌, not, ◌&&◌, IfOk};
ghost use Rattle.std.specs.List.{list_any};
ghost use Rattle.locus_ids.specs.declared.ids.Kind.TheVariants.{Dir};
ghost use Rattle.commit_graph.specs.Versions.{same_file, same_stamp};
ghost use Rattle.trace_book.specs.Same.{same_call};
ghost use Rattle.tree_model.specs.Same.{same_kind};
ghost use Rattle.tree_model.specs.Working.{list_of};
ghost use Rattle.lawful_trace.specs.CallRows.{is_mend_in};
ghost use Rattle.promises.specs.Past.{CallSoFar, Instance, held_in, is_number, making_of, site_at, sync_of};
ghost use Rattle.promises.specs.Rows.{is_mend_wanted, may_accept, may_call, may_mend, may_mend_in, next_call, waits_at};
ghost use Rattle.promises.specs.Tree.{wants_rescue};
ghost use Rattle.promises.specs.Same.{same_list};
ghost use Rattle.audit_told_calls.specs.Once.{OneEach};
ghost use Rattle.audit_rows.specs.Mends.{mends_in};

use crate::finding::home_row;
use crate::keeping::kept_of;
use audit_epochs::EpochRow;
use audit_opens::held_in;
use audit_row_parts::{is_next_call, is_number};
use audit_site_rows::wants_rescue;
use audit_told_calls::Told;
use audit_tree::{are_several, is_only, sync_site};
use locus_ids::{CallId, Config, FileId, Kind, NoMemory, Stamp};
use trace_book::Call;

/// Whose call a record tells of.
#[derive(Clone, Copy)]
pub struct CallTold {
    pub site: u8,
    pub process: u8,
    pub call: CallId,
}

/// A running site accepts a call of a process that waits for nothing; the system mends a directory that wants it.
pub fn may_call(config: &Config, told: &Told, by: CallTold, words: &Call) -> Result<bool, NoMemory>
    requires { OneEach told.now }
    ensures { IfOk result (λ yes. yes ≡ may_call config.now told.now by.site by.process by.call words.now) }
{
    match words {
        Call::Mend { file } => may_mend(config, told, by, *file),
        _ => Ok(is_accepted(told, by)),
    }
}

fn is_accepted(told: &Told, by: CallTold) -> bool
    ensures { result ≡ may_accept told.now by.site by.process by.call }
{
    audit_told_calls::may_accept(told.sites(), told.calls(), by.site, by.process, by.call)
}

/// The system mends a directory that wants it, while no other mend of its group waits at the site.
fn may_mend(config: &Config, told: &Told, by: CallTold, file: FileId) -> Result<bool, NoMemory>
    requires { OneEach told.now }
    ensures { IfOk result (λ yes. yes ≡ may_mend config.now told.now by.site by.process by.call file) }
{
    if by.process != 0 {
        return Ok(false);
    }
    if !is_dir(told, file) {
        return Ok(false);
    }
    if !mends_home(config, told, by.site, file)? {
        return Ok(false);
    }
    Ok(is_next_mend(told, by, file.group))
}

fn is_dir(told: &Told, file: FileId) -> bool
    ensures { result ≡ same_kind (making_of told.now file).kind Dir }
{
    let making = told.files().said_of(file);
    matches!(making.kind, Kind::Dir)
}

/// No other mend of the group waits at the site, and the name is that of its next call.
fn is_next_mend(told: &Told, by: CallTold, group: u8) -> bool
    ensures { result ≡ (not (list_any (λ (k : CallSoFar). waits_at by.site 0 k && is_mend_in group k.words) told.now.calls) && same_call by.call (next_call (site_at told.now by.site))) }
{
    !told.calls().mend_waits_at(by.site, group)
        && is_next_call(told.sites().site_at(by.site), by.call)
}

/// The synchronization site may mend the directory in the epoch that it is in.
fn mends_home(config: &Config, told: &Told, site: u8, file: FileId) -> Result<bool, NoMemory>
    requires { OneEach told.now }
    ensures { IfOk result (λ yes. yes ≡ list_any (may_mend_in config.now told.now site file) told.now.epochs) }
{
    match home_row(told, site) {
        Some(t) => mends_in(config, told, t, site, file),
        None => Ok(false),
    }
}

/// The same of an epoch that it is in.
fn mends_in(
    config: &Config,
    told: &Told,
    t: &EpochRow,
    site: u8,
    file: FileId,
) -> Result<bool, NoMemory>
    ensures { IfOk result (λ yes. yes ≡ mends_in config.now told.now site file t.now) }
{
    if !is_syncing(config, t, file.group, site) {
        return Ok(false);
    }
    if !is_number(t.started(), file.group) {
        return Ok(false);
    }
    if !is_free(t, file) {
        return Ok(false);
    }
    is_mend_wanted(config, told, t, site, file)
}

/// The site is the synchronization site of the group.
fn is_syncing(config: &Config, t: &EpochRow, group: u8, site: u8) -> bool
    ensures { result ≡ is_number (sync_of config.now t.now group) site }
{
    is_it(sync_of(config, t, group), site)
}

/// The synchronization site of the group.
fn sync_of(config: &Config, t: &EpochRow, group: u8) -> Option<u8>
    ensures { list_of result ≡ sync_of config.now t.now group }
{
    sync_site(config, &t.members(), group)
}

#[tactic(auto, using(audit_opens::proofs::Lacking::site_so))]
fn is_it(place: Option<u8>, site: u8) -> bool
    ensures { result ≡ is_number (list_of place) site }
{
    match place {
        Some(place) => place == site,
        None => false,
    }
}

/// Nobody has the directory open, and no mend of it was refused for good.
fn is_free(t: &EpochRow, file: FileId) -> bool
    ensures { result ≡ (not (list_any (λ (x : Instance). same_file x.grant.file file) t.now.opened) && not (list_any (same_file file) t.now.unmended)) }
{
    !t.opened().is_open(file) && !is_unmended(t.unmended(), file)
}

fn is_unmended(files: &[FileId], file: FileId) -> bool
    ensures { result ≡ list_any (same_file file) files.now }
{
    files.iter().any(|one| file == *one)
}

/// The directory is flagged; or a file of it wants to live again, and its only kept version is what the site has.
fn is_mend_wanted(
    config: &Config,
    told: &Told,
    t: &EpochRow,
    site: u8,
    file: FileId,
) -> Result<bool, NoMemory>
    ensures { IfOk result (λ yes. yes ≡ is_mend_wanted told.now t.now site file) }
{
    let kept = kept_of(config, told, t, file)?;
    if are_several(kept.as_slice()) {
        return Ok(true);
    }
    let held = has_only(told, t, site, file, kept.as_slice());
    Ok(is_rescue_wanted(config, told, t, file)? && held)
}

/// A file of the directory wants to live again.
fn is_rescue_wanted(
    config: &Config,
    told: &Told,
    t: &EpochRow,
    file: FileId,
) -> Result<bool, NoMemory>
    ensures { IfOk result (λ yes. yes ≡ wants_rescue told.now t.now file) }
{
    wants_rescue(config.mounts.allocator(), told.versions(), t.known(), file)
}

/// The only one of these versions is what the site has in the epoch.
fn has_only(told: &Told, t: &EpochRow, site: u8, file: FileId, kept: &[Stamp]) -> bool
    ensures { result ≡ same_list same_stamp kept.now (list_of (held_in told.now t.now site file)) }
{
    is_only(kept, held_in(told.sites(), t, site, file))
}
