ghost use Rattle.std.specs.Prelude.{◌≡◌, ◌==◌, ◌&&◌, not};
ghost use Rattle.std.specs.List.{find};
ghost use Rattle.std.specs.Option.{option_copied};
ghost use Rattle.promises.specs.Past.{acts, ends};

use audit_calls::{CallRow, Calls};
use audit_instances::InstanceRow;
use locus_ids::EpochId;

/// The call that operation n of an open instance of the epoch is a step of.
pub fn actor<'a>(
    calls: &'a Calls,
    epoch: EpochId,
    instance: &InstanceRow,
    n: u32,
) -> Option<&'a CallRow>
    ensures { option_copied result ≡ find (acts epoch instance.now n) calls.now }
{
    let grant = instance.grant();
    if is_used(instance, n) {
        calls.user(epoch, grant.inst, n)
    } else {
        calls.find(grant.call)
    }
}

/// Operation n is asked by a call that the instance was named for: not by the one that it was granted to, nor by a read that has opened it
/// again, which is its first use.
fn is_used(instance: &InstanceRow, n: u32) -> bool
    ensures { result ≡ (instance.now.named && not (instance.now.again && (n == 1))) }
{
    instance.is_named() && !(instance.is_again() && n == 1)
}

/// The call that the release of an open instance of the epoch is a step of.
pub fn ender<'a>(calls: &'a Calls, epoch: EpochId, instance: &InstanceRow) -> Option<&'a CallRow>
    ensures { option_copied result ≡ find (ends epoch instance.now) calls.now }
{
    let grant = instance.grant();
    if instance.is_named() {
        calls.closer(epoch, grant.inst)
    } else {
        calls.find(grant.call)
    }
}
