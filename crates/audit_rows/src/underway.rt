ghost use Rattle.std.specs.Prelude.{◌≡◌, ◌&&◌};
ghost use Rattle.promises.specs.Past.{is_number};
ghost use Rattle.promises.specs.Rows.{is_synced};

use audit_epochs::EpochRow;
use audit_row_parts::is_number;
use locus_ids::Config;

/// The group has a synchronization site, which is or has been in the epoch.
pub(crate) fn is_synced(config: &Config, t: &EpochRow, group: u8) -> bool
    ensures { result ≡ is_synced config.now t.now group }
{
    audit_row_parts::is_synced(config, &t.members(), t.joined(), group)
}

/// The group has started in the epoch, and its synchronization site is or has been there.
pub(crate) fn is_underway(config: &Config, t: &EpochRow, group: u8) -> bool
    ensures { result ≡ (is_number t.now.started group && is_synced config.now t.now group) }
{
    is_number(t.started(), group) && is_synced(config, t, group)
}
