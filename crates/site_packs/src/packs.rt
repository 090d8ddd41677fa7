// The packs of a site.
ghost use Rattle.std.specs.Prelude.{◌≡◌, ◌<◌, length, slice_get, None, IfSome, IfNone};
ghost use Rattle.std.specs.Option.{option_copied};
ghost use Rattle.site_packs.specs.Packs.{pack_in, slot_held};

use crate::live_marks::LiveMarks;
use inode_pack::Pack;
use locus_ids::{FileId, SiteId};
use pack_layout::Slot;
use std::marker::Model;

/// The mounted packs of a site, at most four, by group ascending. The area of the nth one is the nth on the disk.
pub struct SitePacks {
    pub(crate) site: SiteId,
    pub(crate) packs: Vec<Pack>,
    pub(crate) live: LiveMarks,
}

// Taken apart in one place: where the packs is dropped, the prover sees one call.
impl Drop for SitePacks {
    fn drop(self) {
        let SitePacks {
            site: _,
            packs: _,
            live: _,
        } = self;
    }
}

impl Model for SitePacks {
    ghost use Rattle.site_packs.specs.Packs.{PacksState, ArePacks};

    ghost Value = { PacksState };

    ghost view = { λ p. record { site = p.site; packs = p.packs.items; live = p.live } };

    ghost invariant = { λ p. ArePacks 0 0 p.site p.packs.items };
}

impl SitePacks {
    /// The site whose packs they are.
    pub fn site(&self) -> SiteId
        ensures { result ≡ self.now.site }
    {
        self.site
    }

    /// The pack of a group.
    pub(crate) fn pack_of(&self, group: u8) -> Option<&Pack>
        ensures { option_copied result ≡ pack_in group self.now.packs }
    {
        match self.place_of(group) {
            Some(at) => Some(&self.packs[at]),
            None => None,
        }
    }

    /// What the slot of a file says.
    pub(crate) fn slot_of(&self, file: FileId) -> Option<&Slot>
        ensures { option_copied result ≡ slot_held (pack_in file.group self.now.packs) file.ino }
    {
        match self.pack_of(file.group) {
            Some(pack) => pack.copy(file.ino),
            None => None,
        }
    }

    /// At which place the pack of a group stands.
    pub(crate) fn place_of(&self, group: u8) -> Option<usize>
        ensures some { IfSome result (λ at. slice_get self.now.packs at ≡ pack_in group self.now.packs) }
        ensures inside { IfSome result (λ at. at < length self.now.packs) }
        ensures none { IfNone result (pack_in group self.now.packs ≡ None) }
    {
        place_in(&self.packs, group)
    }
}

/// The number of a file's inode.
pub(crate) fn number_of(file: FileId) -> u16
    ensures { result ≡ file.ino }
{
    file.ino
}

/// At which place the pack of a group stands among these.
fn place_in(packs: &[Pack], group: u8) -> Option<usize>
    ensures some { IfSome result (λ at. slice_get packs.now at ≡ pack_in group packs.now) }
    ensures inside { IfSome result (λ at. at < length packs.now) }
    ensures none { IfNone result (pack_in group packs.now ≡ None) }
{
    for i in 0..packs.len() {
        if packs[i].group() == group {
            return Some(i);
        }
    }
    None
}
