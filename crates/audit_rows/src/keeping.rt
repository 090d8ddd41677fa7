ghost use Rattle.std.specs.Prelude.{◌≡◌, IfOk};
ghost use Rattle.promises.specs.Past.{kept_in};

use audit_epochs::EpochRow;
use audit_site_rows::kept_in;
use audit_told_calls::Told;
use locus_ids::{Config, FileId, NoMemory, Stamps};

/// The versions of a file that are kept in the epoch. The list comes from the allocator of the cluster's mounts.
pub(crate) fn kept_of(
    config: &Config,
    told: &Told,
    t: &EpochRow,
    file: FileId,
) -> Result<Stamps, NoMemory>
    ensures { IfOk result (λ kept. kept ≡ kept_in told.now t.now file) }
{
    kept_in(config.mounts.allocator(), told.versions(), t.known(), file)
}
