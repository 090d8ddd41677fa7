ghost use Rattle.std.specs.Prelude.{◌≡◌, take, IfOk};
ghost use Rattle.std.specs.List.{find};
ghost use Rattle.std.specs.Option.{option_map};
ghost use Rattle.promises.specs.Past.{Epoch, asks, asks_after};
ghost use Rattle.audit_past.specs.of_audit_epochs.Changes.{is_home};
ghost use Rattle.audit_told_calls.specs.Once.{OneEach};

use audit_calls::CallRow;
use audit_past::Told;
use call_rules::Want;
use locus_ids::{Config, EpochId, Members, NoMemory};

/// The members of the epoch of this name, where there is one.
pub(crate) fn members_of(told: &Told, epoch: Option<EpochId>) -> Option<Members>
    ensures { result ≡ option_map (λ (t : Epoch). t.members) (find (is_home epoch) told.now.epochs) }
{
    match told.epochs().home(epoch) {
        Some(row) => Some(row.members()),
        None => None,
    }
}

/// What the script of the call asks next, or its reply.
pub fn asks(config: &Config, told: &Told, row: &CallRow) -> Result<Want, NoMemory>
    requires { OneEach told.now }
    ensures { IfOk result (λ w. w ≡ asks config.now told.now row.now) }
{
    let members = members_of(told, row.epoch());
    audit_call_rows::asks(config, members, row)
}

/// What it asked once so many of its requests were answered.
pub fn asks_after(
    config: &Config,
    told: &Told,
    row: &CallRow,
    count: usize,
) -> Result<Want, NoMemory>
    requires { OneEach told.now }
    ensures { IfOk result (λ w. w ≡ asks_after config.now told.now row.now (take count row.now.answers)) }
{
    let members = members_of(told, row.epoch());
    audit_call_rows::asks_after(config, members, row, count)
}
