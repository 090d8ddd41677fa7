ghost use Rattle.std.specs.Prelude.{◌↔◌, ◌≡◌, IsTrue, length};
ghost use Rattle.locus_ids.specs.Sizes.{sites_max};
ghost use Rattle.wire_fields.specs.Memberships.{members};

use locus_ids::Members;
use locus_ids::sizes::SITES;

/// Any sixteen boots are those of the members of an epoch.
fn are_boots(boots: &[u32]) -> bool
    requires { length boots.now ≡ sites_max }
    ensures { IsTrue result ↔ members.Fits (record { boot = boots.now }) }
{
    boots.len() == SITES
}

/// The members of an epoch are of the format.
pub fn are_members(list: &Members) -> bool
    ensures { IsTrue result ↔ members.Fits list.now }
{
    are_boots(&list.boot)
}
