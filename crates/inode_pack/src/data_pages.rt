ghost use Rattle.std.specs.Prelude.{◌≡◌, ◌≤◌, ◌<◌, ◌+◌, ◌==◌, ◌^◌, ℕ, length, slice_index, replicate, Some, None, OnErr, IfOk};
ghost use Rattle.locus_ids.specs.Sizes.{content_bytes_max, content_pages_max, slot_pages, pack_pages};
ghost use Rattle.file_content.specs.Pages.{pages_of};
ghost use Rattle.pack_layout.specs.Layout.{NamePages, none, numbers_of};
ghost use Rattle.new_contents.specs.of_shadow_pages.Working.{count_below};
ghost use Rattle.pack_slots.specs.declared.inode_copy.InodeCopy.{InodeCopy};
ghost use Rattle.pack_slots.specs.Copies.{numbers_in, pages_in, times};
ghost use Rattle.pack_slots.specs.Losing.{IsSlotApart};
ghost use Rattle.inode_pack.specs.PagePieces.{AreWhole};
ghost use Rattle.inode_pack.specs.Rows.{SameButFor};
ghost use Rattle.new_contents.specs.Changed.{needed};
ghost use Rattle.inode_pack.specs.Committing.{TakesPages};

use crate::new_pages::{Numbers, take_pages};
use crate::usage::{first_free, pages_named, pass_pages};
use locus_ids::NoMemory;
use new_contents::{NewContent, Row};
use pack_slots::InodeCopy;
use std::alloc::Global;
use std::marker::Model;

/// The data pages of a pack: which are free, and the least of these. Contracts see how many copies name each page, and how many
/// pages no copy names.
#[derive(Drop)]
pub struct DataPages {
    /// How many copies name each: none or one.
    uses: Vec<u32>,
    /// How many are free.
    free: u16,
    /// A number below which none is free.
    least: u16,
}

impl Model for DataPages {
    ghost use Rattle.std.specs.Prelude.{◌≡◌, length};
    ghost use Rattle.locus_ids.specs.Sizes.{pack_pages};
    ghost use Rattle.inode_pack.specs.Rows.{NoneBelow, PageUses};

    ghost Value = { PageUses };

    ghost view = { λ p. record { uses = p.uses.items; free = p.free } };

    ghost invariant = { λ p. (length p.uses.items ≡ pack_pages) × NoneBelow p.least p.uses.items };
}

impl DataPages {
    /// With these uses, so many pages of which are free.
    pub fn new(uses: Vec<u32>, free: u16) -> DataPages
        requires { length uses.items ≡ pack_pages }
        ensures { result ≡ record { uses = uses.items; free = free } }
    {
        DataPages {
            uses,
            free,
            least: 0,
        }
    }

    /// How many pages are free.
    pub fn free(&self) -> u16
        ensures { result ≡ self.now.free }
    {
        self.free
    }

    /// The data pages of a new content: those that are unchanged stay, the changed ones take the least free ones.
    pub fn take<C: NewContent>(
        &self,
        alloc: Global,
        old: &Option<InodeCopy>,
        content: &C,
    ) -> Result<Numbers, NoMemory>
        requires old { (one : InodeCopy) → old.now ≡ Some one → IsSlotApart one }
        requires size { (C.working content.now).size ≤ content_bytes_max }
        requires room { needed (C.working content.now) ≤ count_below (λ p. slice_index self.now.uses p == 0) (length self.now.uses) }
        ensures takes { IfOk result (λ numbers. TakesPages (λ p. slice_index self.now.uses p == 0) old.now (C.working content.now) (numbers_of numbers.first numbers.more)) }
        ensures front { IfOk result (λ numbers. length numbers.first ≡ slot_pages) }
        ensures few { IfOk result (λ numbers. slot_pages + length numbers.more ≤ content_pages_max) }
        ensures whole { IfOk result (λ numbers. AreWhole (C.working content.now) (pages_of (C.working content.now).size)) }
        ensures no_memory { OnErr result (slot_pages < pages_of (C.working content.now).size) }
    {
        take_pages(alloc, &self.uses, self.least, old, content)
    }

    /// The pages of one copy are named no more, and those of another one are. Both have the same but for a row.
    pub fn pass(&mut self, old: &Option<InodeCopy>, made: &InodeCopy, pages: u16, row: Row)
        requires old { (one : InodeCopy) → old.now ≡ Some one → IsSlotApart one }
        requires fits { IsSlotApart made.now }
        requires once { (p : ℕ) → p < pack_pages → times p (pages_in old.now) ≤ slice_index self.old.uses p }
        requires made { NamePages pages (numbers_in made.now) }
        requires few { (p : ℕ) → p < pack_pages → slice_index self.old.uses p + times p (numbers_in made.now) < 2 ^ 32 }
        requires ordered { row.first ≤ row.stop }
        requires inside { row.stop ≤ content_pages_max }
        requires same { (one : InodeCopy) → old.now ≡ Some one → SameButFor row.first row.stop (numbers_in one) (numbers_in made.now) }
        requires none { old.now ≡ None → SameButFor row.first row.stop (replicate content_pages_max none) (numbers_in made.now) }
        requires room { pages ≤ self.old.free + length (pages_in old.now) }
        requires most { self.old.free ≤ pack_pages }
        ensures long { length self.new.uses ≡ pack_pages }
        ensures named { (p : ℕ) → p < pack_pages → slice_index self.new.uses p + times p (pages_in old.now) ≡ slice_index self.old.uses p + times p (numbers_in made.now) }
        ensures free { self.new.free + pages ≡ self.old.free + length (pages_in old.now) }
    {
        let least = pass_pages(&mut self.uses, old, made, row, self.least);
        self.least = first_free(&self.uses, least);
        self.free = self.free + pages_named(old) - pages;
    }
}
