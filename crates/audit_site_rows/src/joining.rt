ghost use Rattle.std.specs.Prelude.{◌≡◌, ◌≤◌, length, filter};
ghost use Rattle.std.specs.List.{list_all};
ghost use Rattle.std.specs.Str.{bytes_eq};
ghost use Rattle.promises.specs.Past.{Epoch, is_number};
ghost use Rattle.promises.specs.After.{is_epoch};
ghost use Rattle.promises.specs.Rows.{may_join};
ghost use Rattle.audit_site_rows.specs.Rows.{AreApart, epoch_of};

use audit_past::Told;
use audit_past::audit_epochs::Epochs;
use audit_row_parts::{has_boot_of, is_above_joined, is_number, same_members};
use locus_ids::{EpochId, Members};

/// The site is or has been in the epoch.
fn has_joined(epochs: &Epochs, epoch: EpochId, site: u8) -> bool
    ensures { result ≡ is_number (epoch_of epochs.now epoch).joined site }
{
    match epochs.find(epoch) {
        Some(row) => is_number(row.joined(), site),
        None => false,
    }
}

/// The epoch has these members, where it is there.
fn has_members(epochs: &Epochs, epoch: EpochId, members: &Members) -> bool
    requires once { length (filter (is_epoch epoch) epochs.now) ≤ 1 }
    ensures { result ≡ list_all (λ (t : Epoch). bytes_eq t.members.boot members.now.boot) (filter (is_epoch epoch) epochs.now) }
{
    match epochs.find(epoch) {
        Some(row) => same_members(&row.members(), members),
        None => true,
    }
}

/// A running site in no epoch joins one that it never joined, above all that it joined in this boot, as a member with its boot
/// number; every member joins it with the same list.
pub fn may_join(told: &Told, site: u8, epoch: EpochId, members: &Members) -> bool
    requires apart { AreApart told.now.epochs }
    ensures { result ≡ may_join told.now site epoch members.now }
{
    let row = told.sites().site_at(site);
    let epochs = told.epochs();
    row.is_up()
        && row.epoch().is_none()
        && !has_joined(epochs, epoch, site)
        && is_above_joined(row, epoch)
        && has_members(epochs, epoch, members)
        && has_boot_of(members, row, site)
}
