ghost use Rattle.std.specs.Prelude.{◌≡◌, ◌&&◌, IfOk};
ghost use Rattle.promises.specs.Past.{epoch_at};
ghost use Rattle.promises.specs.Rows.{may_start};
ghost use Rattle.audit_row_parts.specs.Parts.{are_joined_among, is_synced_among};

use audit_past::Told;
use audit_past::audit_epochs::EpochRow;
use audit_row_parts::{are_all_joined, is_number, is_synced, same_as_brought};
use locus_ids::{Brought, Config, EpochId, Members, NoMemory};

/// A group starts once in an epoch, when all its member packs are in it, with the versions that they brought.
pub fn may_start(
    config: &Config,
    told: &Told,
    epoch: EpochId,
    group: u8,
    copies: &[Brought],
) -> Result<bool, NoMemory>
    ensures { IfOk result (λ yes. yes ≡ may_start config.now (epoch_at told.now epoch) group copies.now) }
{
    match told.epochs().find(epoch) {
        Some(row) => starts(config, row, group, copies),
        None => Ok(false),
    }
}

fn starts(config: &Config, row: &EpochRow, group: u8, copies: &[Brought]) -> Result<bool, NoMemory>
    ensures { IfOk result (λ yes. yes ≡ may_start config.now row.now group copies.now) }
{
    if is_number(row.started(), group) {
        return Ok(false);
    }
    let known = row.known().of_group(config.mounts.allocator(), group)?;
    let as_brought = same_as_brought(copies, known.as_slice());
    Ok(are_there(config, &row.members(), row.joined(), group, as_brought))
}

/// The synchronization site and all members with a pack of the group are among these, and the rest holds.
fn are_there(config: &Config, members: &Members, joined: &[u8], group: u8, rest: bool) -> bool
    ensures { result ≡ (is_synced_among config.now members.now joined.now group && (are_joined_among config.now members.now joined.now group && rest)) }
{
    if !is_synced(config, members, joined, group) {
        return false;
    }
    are_all_joined(config, members, joined, group) && rest
}
