ghost use Rattle.std.specs.Prelude.{◌≡◌, ◌&&◌};
ghost use Rattle.promises.specs.Past.{Past};
ghost use Rattle.promises.specs.Rows.{may_accept};
ghost use Rattle.tree_model.specs.Epochs.{is_in};
ghost use Rattle.audit_call_rows.specs.Asked.{is_home_at};

use audit_calls::{CallRow, Calls};
use audit_row_parts::audit_sites::{SiteRow, SiteRows};
use audit_row_parts::{is_in, is_next_call};
use locus_ids::{CallId, EpochId};

/// A running site accepts a call of a process that waits for nothing.
pub fn may_accept(sites: &SiteRows, calls: &Calls, site: u8, process: u8, id: CallId) -> bool
    ensures { (p : Past) → p.sites ≡ sites.now → p.calls ≡ calls.now → result ≡ may_accept p site process id }
{
    let row = sites.site_at(site);
    row.is_up() && (!calls.waits_at(site, process) && is_next_call(row, id))
}

/// The site is still in the epoch in which it accepted the call, or was in none.
pub fn is_home(site: &SiteRow, row: &CallRow) -> bool
    ensures { result ≡ is_home_at site.now.epoch row.now }
{
    match row.epoch() {
        Some(epoch) => is_in(site.epoch(), epoch),
        None => true,
    }
}

/// The call was accepted in this epoch, which its site was the last to join.
pub fn is_of_last(site: &SiteRow, row: &CallRow, epoch: EpochId) -> bool
    ensures { result ≡ (is_in row.now.epoch epoch && is_in site.now.joined epoch) }
{
    is_in(row.epoch(), epoch) && is_in(site.joined(), epoch)
}
