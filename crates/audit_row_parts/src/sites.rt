ghost use Rattle.std.specs.Prelude.{◌≡◌, ◌==◌};
ghost use Rattle.std.specs.List.{list_any};
ghost use Rattle.trace_book.specs.Same.{same_call};
ghost use Rattle.promises.specs.Past.{Past, Site};
ghost use Rattle.promises.specs.Rows.{may_boot, may_leave, may_stop, next_call};

use crate::epochs::is_in;
use audit_sites::{SiteRow, SiteRows};
use locus_ids::{CallId, EpochId};
use trace_book::StopCause;

fn is_of(row: &SiteRow, site: u8) -> bool
    ensures { result ≡ (row.now.number == site) }
{
    row.number() == site
}

/// The site is one of the cluster.
fn is_there(rows: &[SiteRow], site: u8) -> bool
    ensures { result ≡ list_any (λ (s : Site). s.number == site) rows.now }
{
    rows.iter().any(|row| is_of(row, site))
}

/// A stopped site boots with a number above all that it had.
pub fn may_boot(sites: &SiteRows, site: u8, boot: u32) -> bool
    ensures { (p : Past) → sites.now ≡ p.sites → result ≡ may_boot p site boot }
{
    let row = sites.site_at(site);
    is_there(sites.as_slice(), site) && !row.is_up() && row.boot() < boot
}

/// A running site stops; within a disk call also one that boots.
pub fn may_stop(sites: &SiteRows, site: u8, cause: StopCause) -> bool
    ensures { (p : Past) → sites.now ≡ p.sites → result ≡ may_stop p site cause }
{
    match cause {
        StopCause::Asked => sites.site_at(site).is_up(),
        StopCause::Fuse => is_there(sites.as_slice(), site),
        StopCause::Fault => is_there(sites.as_slice(), site),
    }
}

/// A site leaves the epoch that it is in.
pub fn may_leave(sites: &SiteRows, site: u8, epoch: EpochId) -> bool
    ensures { (p : Past) → sites.now ≡ p.sites → result ≡ may_leave p site epoch }
{
    is_in(sites.site_at(site).epoch(), epoch)
}

/// The name is that of the next call that the site accepts.
pub fn is_next_call(row: &SiteRow, call: CallId) -> bool
    ensures { result ≡ same_call call (next_call row.now) }
{
    call.site == row.number()
        && call.boot == row.boot()
        && (call.n > 0 && call.n - 1 == row.accepted())
}
