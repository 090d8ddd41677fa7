ghost use Rattle.std.specs.Prelude.{◌≡◌, ◌≤◌, length, filter};
ghost use Rattle.std.specs.List.{find};
ghost use Rattle.std.specs.Option.{option_copied};
ghost use Rattle.promises.specs.Past.{is_named, site_at};
ghost use Rattle.promises.specs.After.{is_epoch};
ghost use Rattle.audit_epochs.specs.Changes.{is_home};

use audit_epochs::EpochRow;
use audit_instances::InstanceRow;
use audit_told_calls::Told;
use locus_ids::{EpochId, Serial};

/// The epoch of this name.
pub(crate) fn epoch_row(told: &Told, epoch: EpochId) -> Option<&EpochRow>
    ensures { option_copied result ≡ find (is_epoch epoch) told.now.epochs }
{
    told.epochs().find(epoch)
}

/// The epoch that the site is in.
pub(crate) fn home_row(told: &Told, site: u8) -> Option<&EpochRow>
    ensures { option_copied result ≡ find (is_home (site_at told.now site).epoch) told.now.epochs }
{
    told.epochs().home(home_of(told, site))
}

fn home_of(told: &Told, site: u8) -> Option<EpochId>
    ensures { result ≡ (site_at told.now site).epoch }
{
    told.sites().site_at(site).epoch()
}

/// The open instance of this name.
pub(crate) fn instance_row(t: &EpochRow, inst: Serial) -> Option<&InstanceRow>
    ensures found { option_copied result ≡ find (is_named inst) t.now.opened }
    ensures one { length (filter (is_named inst) t.now.opened) ≤ 1 }
{
    t.opened().named(inst)
}
