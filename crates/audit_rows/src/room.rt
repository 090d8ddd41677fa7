ghost use Rattle.std.specs.Prelude.{◌≡◌, ◌==◌, ◌-◌, filter, length, sum_by};
ghost use Rattle.locus_ids.specs.Sizes.{pack_pages};
ghost use Rattle.promises.specs.Past.{Copy};
ghost use Rattle.promises.specs.Tree.{free_pages};
ghost use Rattle.audit_rows.specs.Room.{pages_held};

use audit_copies::CopyRow;
use audit_epochs::EpochRow;
use audit_opens::copies_in;
use audit_told_calls::Told;
use audit_versions::Versions;
use locus_ids::sizes::PACK_PAGES;

/// The pages that are free for a group at a site in the epoch.
#[tactic(auto, using(crate::proofs::Rooms::both_less))]
pub(crate) fn free_pages(told: &Told, t: &EpochRow, group: u8, site: u8) -> u16
    ensures { result ≡ free_pages told.now t.now group site }
{
    let copies = copies_in(told.sites(), t, site);
    let left = pages_left(told.versions(), copies, group);
    t.opened().less_changed(group, site, left) as u16
}

/// The pages of a pack, less those of the versions of the group.
#[tactic(auto, using(crate::proofs::Rooms::less_held_one))]
fn pages_left(versions: &Versions, copies: &[CopyRow], group: u8) -> usize
    ensures { result ≡ pack_pages - pages_held versions.now copies.now group }
{
    let mut left = PACK_PAGES as usize;
    for copy in copies {
        if is_of_group(copy, group) {
            left = left.saturating_sub(versions.pages(copy.file, copy.stamp));
        }
    }
    left
}

fn is_of_group(copy: &CopyRow, group: u8) -> bool
    ensures { result ≡ (copy.now.file.group == group) }
{
    copy.file.group == group
}
