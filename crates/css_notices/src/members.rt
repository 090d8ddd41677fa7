ghost use Rattle.std.specs.Prelude.{◌≡◌, ◌<◌, ◌+◌, ◌&&◌, [], ◌∷◌, ◌++◌, filter, IfOk, OnOk};
ghost use Rattle.locus_ids.specs.Sizes.{sites_max};
ghost use Rattle.locus_ids.specs.Sites.{has};
ghost use Rattle.role_steps.specs.Views.{is_member, members_of};

use locus_ids::sizes::SITES;
use locus_ids::{NoMemory, SiteId, Sites};
use site_frame::SiteFrame;
use std::alloc::Global;

/// Adds the site at a place of all sites, from 0, where it is a member of the set.
fn add_member(
    made: &mut Vec<SiteId>,
    frame: &SiteFrame,
    set: Sites,
    place: u8,
) -> Result<(), NoMemory>
    requires { place < sites_max }
    ensures { OnOk result (made.new.items ≡ made.old.items ++ filter (λ s. has set s && is_member frame.now.members s) ((place + 1) ∷ [])) }
{
    if let Some(site) = SiteId::new(place + 1)
        && set.has(site)
        && frame.is_member(site)
    {
        made.push(site)?;
    }
    Ok(())
}

/// The members of the set, ascending.
pub fn members_of(alloc: Global, frame: &SiteFrame, set: Sites) -> Result<Vec<SiteId>, NoMemory>
    ensures { IfOk result (λ made. made.items ≡ members_of frame.now.members set) }
{
    let mut made = Vec::new(alloc);
    for place in 0..SITES as u8 {
        add_member(&mut made, frame, set, place)?;
    }
    Ok(made)
}
