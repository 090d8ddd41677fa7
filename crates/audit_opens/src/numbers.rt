//! Whether a storage site has numbers left for new files.

ghost use Rattle.std.specs.Prelude.{◌≡◌, ◌&&◌, [], length, filter};
ghost use Rattle.std.specs.List.{list_any};
ghost use Rattle.tree_model.specs.Working.{list_of};
ghost use Rattle.promises.specs.Past.{CallSoFar, is_number};
ghost use Rattle.promises.specs.After.{is_id};
ghost use Rattle.promises.specs.Tree.{is_underway_at, lacks_numbers, place_for};
ghost use Rattle.audit_opens.specs.Once.{HaveOwnIds, past_of};

use crate::holding::copies_in;
use crate::placing::is_site;
use audit_calls::{CallRow, Calls};
use audit_epochs::{EpochRow, MakeRow};
use audit_sites::SiteRows;
use audit_tree::{numbers_used, place_for};
use locus_ids::{CallId, Config};

/// The numbers in use and the makes underway are as many as the site has numbers, at least.
pub fn lacks_numbers(
    config: &Config,
    sites: &SiteRows,
    calls: &Calls,
    t: &EpochRow,
    group: u8,
    site: u8,
) -> bool
    requires { HaveOwnIds calls.now }
    ensures { result ≡ lacks_numbers config.now (past_of sites.now calls.now []) t.now group site }
{
    let used = numbers_used(copies_in(sites, t, site), group, site);
    let makes = makes_at(config, calls, t, group, site);
    audit_tree::lacks_numbers(used, makes)
}

/// How many makes are underway whose files are for this site to store.
fn makes_at(config: &Config, calls: &Calls, t: &EpochRow, group: u8, site: u8) -> usize
    requires { HaveOwnIds calls.now }
    ensures { result ≡ length (filter (is_underway_at config.now (past_of [] calls.now []) t.now group site) t.now.makes) }
{
    let mut many = 0;
    for make in t.makes() {
        if is_underway_at(config, calls, t, group, site, *make) {
            many += 1;
        }
    }
    many
}

fn is_underway_at(
    config: &Config,
    calls: &Calls,
    t: &EpochRow,
    group: u8,
    site: u8,
    make: MakeRow,
) -> bool
    requires { HaveOwnIds calls.now }
    ensures { result ≡ is_underway_at config.now (past_of [] calls.now []) t.now group site make }
{
    make.group == group && is_made_at(config, calls, t, group, site, make.call)
}

/// The file of this call is for this site to store.
fn is_made_at(
    config: &Config,
    calls: &Calls,
    t: &EpochRow,
    group: u8,
    site: u8,
    call: CallId,
) -> bool
    requires { HaveOwnIds calls.now }
    ensures { result ≡ list_any (λ (k : CallSoFar). is_id call k && is_number (place_for config.now t.now group k) site) calls.now }
{
    match calls.find(call) {
        Some(k) => is_site(place_of(config, t, group, k), site),
        None => false,
    }
}

/// The storage site of the file that a call makes.
pub(crate) fn place_of(config: &Config, t: &EpochRow, group: u8, k: &CallRow) -> Option<u8>
    ensures { list_of result ≡ place_for config.now t.now group k.now }
{
    place_for(config, &t.members(), group, k.id().site, k.words())
}
