ghost use Rattle.std.specs.Prelude.{◌≡◌, ◌&&◌};
ghost use Rattle.tree_model.specs.Packs.{has_pack, is_member};
ghost use Rattle.tree_model.specs.Same.{same_brought};
ghost use Rattle.promises.specs.Past.{is_number};
ghost use Rattle.promises.specs.Same.{same_list};
ghost use Rattle.audit_row_parts.specs.Parts.{are_joined_among, brought_of, is_synced_among};

use crate::joining::boot_in;
use audit_sites::audit_copies::CopyRow;
use locus_ids::sizes::SITES;
use locus_ids::{Brought, Config, Members};
use tree_tables::{has_pack, sync_site};

/// The number is one of these.
pub fn is_number(numbers: &[u8], number: u8) -> bool
    ensures { result ≡ is_number numbers.now number }
{
    numbers.iter().any(|one| *one == number)
}

/// The site is a member, and has a pack of the group.
pub fn is_packing(config: &Config, members: &Members, group: u8, site: u8) -> bool
    ensures { result ≡ (is_member members.now site && has_pack config.now group site) }
{
    boot_in(members, site) > 0 && has_pack(config, group, site)
}

/// The synchronization site of the group is one of these sites.
pub fn is_synced(config: &Config, members: &Members, joined: &[u8], group: u8) -> bool
    ensures { result ≡ is_synced_among config.now members.now joined.now group }
{
    match sync_site(config, group, &Some(*members)) {
        Some(site) => is_number(joined, site),
        None => false,
    }
}

/// All members with a pack of the group are among these sites.
#[tactic(auto, using(tree_tables::proofs::Counting::next_number, tree_tables::proofs::Counting::no_number))]
pub fn are_all_joined(config: &Config, members: &Members, joined: &[u8], group: u8) -> bool
    ensures { result ≡ are_joined_among config.now members.now joined.now group }
{
    for site in 1..SITES as u8 + 1 {
        if is_packing(config, members, group, site) && !is_number(joined, site) {
            return false;
        }
    }
    true
}

fn is_brought_as(brought: Brought, copy: &CopyRow) -> bool
    ensures { result ≡ same_brought brought (record { ino = copy.now.file.ino; stamp = copy.now.stamp }) }
{
    brought.ino == copy.file.ino
        && brought.stamp.site == copy.stamp.site
        && brought.stamp.n == copy.stamp.n
}

/// The versions of a group are as a start tells them, one by one.
pub fn same_as_brought(told: &[Brought], known: &[CopyRow]) -> bool
    ensures { result ≡ same_list same_brought told.now (brought_of known.now) }
{
    if told.len() != known.len() {
        return false;
    }
    for i in 0..told.len() {
        if !is_brought_as(told[i], &known[i]) {
            return false;
        }
    }
    true
}
