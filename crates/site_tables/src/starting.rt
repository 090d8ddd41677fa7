// The tables of a new epoch.
ghost use Rattle.std.specs.Prelude.{◌≡◌, ◌&&◌, map, filter, OnOk};
ghost use Rattle.locus_ids.specs.Sites.{has};
ghost use Rattle.role_steps.specs.Views.{pack_sites};
ghost use Rattle.role_steps.specs.Epochs.{own_groups, is_sync_site};
ghost use Rattle.role_steps.specs.Reports.{new_table};

use css_core::Css;
use keyed_tables::SortedTable;
use locus_ids::NoMemory;
use site_frame::SiteFrame;
use std::alloc::Global;

/// A new table for each group that the site is the synchronization site of, in place of what stands.
pub fn start_tables(
    alloc: Global,
    tables: &mut SortedTable<Css>,
    frame: &SiteFrame,
) -> Result<(), NoMemory>
    ensures { OnOk result (tables.new ≡ map new_table (filter (is_sync_site frame.now.config frame.now.me frame.now.members) (own_groups frame.now.config frame.now.me))) }
{
    tables.clear();
    for group in (0..4).rev() {
        if is_served(frame, group) {
            tables.put(Css::new(alloc, group))?;
        }
    }
    Ok(())
}

/// The site has a pack of the group, and is its synchronization site.
fn is_served(frame: &SiteFrame, group: u8) -> bool
    ensures { result ≡ (has (pack_sites frame.now.config group) frame.now.me && is_sync_site frame.now.config frame.now.me frame.now.members group) }
{
    frame.pack_sites(group).has(frame.me) && is_sync_site(frame, group)
}

fn is_sync_site(frame: &SiteFrame, group: u8) -> bool
    ensures { result ≡ is_sync_site frame.now.config frame.now.me frame.now.members group }
{
    match frame.sync_site(group) {
        Some(site) => site == frame.me,
        None => false,
    }
}
