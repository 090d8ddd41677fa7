// The groups of which a site has a pack.
ghost use Rattle.std.specs.Prelude.{◌≡◌, ◌≤◌, ◌++◌, [], ◌∷◌, cond, OnOk, IfOk};
ghost use Rattle.locus_ids.specs.Sites.{has};
ghost use Rattle.role_steps.specs.Views.{pack_sites};
ghost use Rattle.site_packs.specs.Packs.{groups_at};

use locus_ids::{Config, ItemList, NoMemory, SiteId};
use std::alloc::Global;

/// The groups of which a site has a pack, ascending.
pub(crate) fn groups_at(
    alloc: Global,
    config: &Config,
    site: SiteId,
) -> Result<ItemList<u8>, NoMemory>
    ensures { IfOk result (λ groups. groups ≡ groups_at config.now site) }
{
    let mut groups = ItemList::new(alloc);
    push_group(config, site, 0, &mut groups)?;
    push_group(config, site, 1, &mut groups)?;
    push_group(config, site, 2, &mut groups)?;
    push_group(config, site, 3, &mut groups)?;
    Ok(groups)
}

/// Adds a group, where the site has a pack of it.
fn push_group(
    config: &Config,
    site: SiteId,
    group: u8,
    groups: &mut ItemList<u8>,
) -> Result<(), NoMemory>
    requires { group ≤ 3 }
    ensures { OnOk result (groups.new ≡ groups.old ++ cond (has (pack_sites config.now group) site) (group ∷ []) []) }
{
    if config.packs[usize::from(group)].has(site) {
        return groups.push(group);
    }
    Ok(())
}
