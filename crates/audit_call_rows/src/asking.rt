ghost use Rattle.std.specs.Prelude.{◌≡◌, take, IfOk};
ghost use Rattle.call_rules.specs.Scripts.{where_packed};
ghost use Rattle.audit_call_rows.specs.Asked.{asks_in, is_packed_in};

use audit_calls::{CallRow, group_asked, where_packed};
use audit_tree::sync_site;
use call_rules::Want;
use locus_ids::{Config, Members, NoMemory};

/// What the script of the call asks next, or its reply.
pub fn asks(config: &Config, members: Option<Members>, row: &CallRow) -> Result<Want, NoMemory>
    ensures { IfOk result (λ w. w ≡ asks_in config.now members row.now row.now.answers) }
{
    let want = row.wants(config.mounts.as_slice())?;
    Ok(where_members_pack(config, members, want))
}

/// What it asked once so many of its requests were answered.
pub fn asks_after(
    config: &Config,
    members: Option<Members>,
    row: &CallRow,
    count: usize,
) -> Result<Want, NoMemory>
    ensures { IfOk result (λ w. w ≡ asks_in config.now members row.now (take count row.now.answers)) }
{
    let want = row.wants_after(config.mounts.as_slice(), count)?;
    Ok(where_members_pack(config, members, want))
}

/// The request, or the refusal of one in a group that no member packs.
fn where_members_pack(config: &Config, members: Option<Members>, want: Want) -> Want
    ensures { result ≡ where_packed (is_packed_in config.now members) want }
{
    match group_asked(&want) {
        Some(group) => {
            let packed = is_packed(config, members, group);
            where_packed(want, packed)
        }
        None => where_packed(want, false),
    }
}

/// Some member has a pack of the group.
fn is_packed(config: &Config, members: Option<Members>, group: u8) -> bool
    ensures { result ≡ is_packed_in config.now members group }
{
    match members {
        Some(members) => sync_site(config, &members, group).is_some(),
        None => false,
    }
}
