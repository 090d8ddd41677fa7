ghost use Rattle.std.specs.Prelude.{◌≡◌, not, ◌==◌, filter};
ghost use Rattle.std.specs.List.{find, list_any};
ghost use Rattle.std.specs.Option.{option_map};
ghost use Rattle.tree_model.specs.Epochs.{is_in};
ghost use Rattle.audit_calls.specs.Waiting.{group_mended, is_at, is_below, is_of, mends_at, place_in, waiting_row};

use crate::CallRow;
use locus_ids::EpochId;
use trace_book::Call;

/// A call that waits, by the place of its row.
#[derive(Clone, Copy)]
pub(crate) struct WaitingRow {
    pub(crate) place: usize,
    pub(crate) site: u8,
    pub(crate) process: u8,
    /// The epoch that its site was in.
    pub(crate) epoch: Option<EpochId>,
    /// The group of the directory that it mends.
    pub(crate) mends: Option<u8>,
}

/// The call of this row as it waits.
pub(crate) fn waiting_row(place: usize, row: &CallRow) -> WaitingRow
    ensures { result ≡ waiting_row place row.now }
{
    WaitingRow {
        place,
        site: row.id().site,
        process: row.process(),
        epoch: row.epoch(),
        mends: group_mended(row.words()),
    }
}

/// The group of the directory that a call mends.
fn group_mended(words: &Call) -> Option<u8>
    ensures { result ≡ group_mended words.now }
{
    match words {
        Call::Mend { file } => Some(file.group),
        _ => None,
    }
}

/// A call of the process waits at the site.
pub(crate) fn any_of(waiting: &[WaitingRow], site: u8, process: u8) -> bool
    ensures { result ≡ list_any (is_of site process) waiting.now }
{
    waiting
        .iter()
        .any(|w| w.site == site && w.process == process)
}

/// A call of a lower process that was accepted in the epoch waits at the site.
pub(crate) fn any_below(waiting: &[WaitingRow], site: u8, process: u8, epoch: EpochId) -> bool
    ensures { result ≡ list_any (is_below site process epoch) waiting.now }
{
    waiting.iter().any(|w| is_below(w, site, process, epoch))
}

fn is_below(w: &WaitingRow, site: u8, process: u8, epoch: EpochId) -> bool
    ensures { result ≡ is_below site process epoch w.now }
{
    w.site == site && (w.process < process && is_in(w.epoch, epoch))
}

fn is_in(home: Option<EpochId>, epoch: EpochId) -> bool
    ensures { result ≡ is_in home epoch }
{
    match home {
        Some(home) => {
            home.number == epoch.number && home.site == epoch.site && home.boot == epoch.boot
        }
        None => false,
    }
}

/// A mend of the group waits at the site.
pub(crate) fn any_mend(waiting: &[WaitingRow], site: u8, group: u8) -> bool
    ensures { result ≡ list_any (mends_at site group) waiting.now }
{
    waiting.iter().any(|w| mends(w, site, group))
}

fn mends(w: &WaitingRow, site: u8, group: u8) -> bool
    ensures { result ≡ mends_at site group w.now }
{
    match w.mends {
        Some(mended) => w.site == site && w.process == 0 && mended == group,
        None => false,
    }
}

/// The place of the first call that waits at the site.
pub(crate) fn first_at(waiting: &[WaitingRow], site: u8) -> Option<usize>
    ensures { result ≡ place_in (find (is_at site) waiting.now) }
{
    for w in waiting {
        if w.site == site {
            return Some(w.place);
        }
    }
    None
}

/// The call of this place waits no more.
pub(crate) fn forget(waiting: &mut Vec<WaitingRow>, place: usize)
    ensures { waiting.new.items ≡ filter (λ w. not (w.place == place)) waiting.old.items }
{
    waiting.retain(|w| w.place != place);
}
