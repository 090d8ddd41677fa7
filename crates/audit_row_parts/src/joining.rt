ghost use Rattle.std.specs.Prelude.{◌≡◌, ◌==◌};
ghost use Rattle.std.specs.Str.{bytes_eq};
ghost use Rattle.tree_model.specs.Packs.{boot_in};
ghost use Rattle.audit_row_parts.specs.Parts.{is_above_joined};

use crate::epochs::is_below;
use audit_sites::SiteRow;
use locus_ids::{EpochId, Members};

/// The epoch is above all that the site joined in this boot.
pub fn is_above_joined(row: &SiteRow, epoch: EpochId) -> bool
    ensures { result ≡ is_above_joined row.now epoch }
{
    match row.joined() {
        Some(last) => is_below(last, epoch),
        None => true,
    }
}

/// The boot number that the list has for the site.
pub fn boot_in(members: &Members, site: u8) -> u32
    ensures { result ≡ boot_in members.now site }
{
    if site == 0 {
        return 0;
    }
    match members.boot.get(usize::from(site - 1)) {
        Some(boot) => *boot,
        None => 0,
    }
}

/// The list has the site with the boot number that it has now.
pub fn has_boot_of(members: &Members, row: &SiteRow, site: u8) -> bool
    ensures { result ≡ (boot_in members.now site == row.now.boot) }
{
    boot_in(members, site) == row.boot()
}

/// Both lists have the same sites with the same boot numbers.
pub fn same_members(a: &Members, b: &Members) -> bool
    ensures { result ≡ bytes_eq a.now.boot b.now.boot }
{
    a.boot == b.boot
}
