// A version is committed, wholly or not at all.
ghost use Rattle.std.specs.Prelude.{◌≡◌, ◌↔◌, ◌≤◌, ◌<◌, ◌+◌, ◌-◌, ◌^◌, ℕ, List, length, slice_index, slice_index_or, false, slice_set, replicate, Option, Some, None, Err, is_some, OnOk, OnErr, IfOk, IfErr};
ghost use Rattle.locus_ids.specs.Sizes.{inodes_max, content_bytes_max, content_pages_max, slot_pages, content_tables_max, pack_pages};
ghost use Rattle.disk_model.specs.Disk.{HasCause, Exactly};
ghost use Rattle.file_content.specs.Pages.{pages_of};
ghost use Rattle.pack_layout.specs.Layout.{area_length, none};
ghost use Rattle.disk_model.specs.Moments.{LeavesOnly, TellsMany};
ghost use Rattle.inode_switch.specs.View.{Replaced};
ghost use Rattle.pack_slots.specs.Copies.{copy_of, numbers_in, named_pages, AreCopies};
ghost use Rattle.inode_pack.specs.Pack.{Stands};
ghost use Rattle.inode_pack.specs.declared.pack_fault.PackFault.TheVariants.{NoSpace, NoMemory};
ghost use Rattle.pack_slots.specs.declared.inode_copy.InodeCopy.{InodeCopy};
ghost use Rattle.new_contents.specs.Changed.{HasChanged, needed};
ghost use Rattle.inode_pack.specs.Rows.{SameButFor};
ghost use Rattle.inode_pack.specs.PagePieces.{AreWhole};
ghost use Rattle.inode_pack.specs.Committing.{RestsOn, size_of, blocks_over, is_free, is_free_table, is_table_over, Makes, Commits, HoldsPages, with_copy, new_version, MayBeLeft, commit_calls, commit_answer, IsEarly};
ghost use Rattle.stored_versions.specs.Versions.{IsVersion};
ghost use Rattle.inode_pack.specs.Cutting.{IsCutCommit};
ghost use Rattle.new_contents.specs.Laid.{working_of};
ghost use Rattle.new_contents.specs.Marked.{marked};

use crate::pieces::CommitPieces;
use crate::plan::{Made, next_copy};
use crate::usage::row_to_pass;
use crate::{NewVersion, Pack, PackFault};
use disk_model::Disk;
use inode_switch::replace_inode;
use locus_ids::Ino;
use locus_ids::sizes::CONTENT_PAGES;
use new_contents::{LaidPages, MarkedContent, NewContent, Row, page_count};

/// What a commit makes and writes.
#[derive(Drop)]
struct Prepared {
    made: Made,
    /// Pages in a row, among which all are whose data pages differ from those of the inode's copy so far.
    passed: Row,
    /// The inode has a version, whose slot is to be closed.
    closes: bool,
}

impl Pack {
    /// Adopts a version that was made elsewhere, of which some pages came, over the copy so far. These alone are written, each to the
    /// least free data page; the others stay those that the inode has. `NoSpace` comes exactly where they are more than are free.
    /// After `Disk` the pack must be mounted again, and is wholly old or wholly new.
    pub fn adopt<D: Disk>(
        &mut self,
        disk: &mut D,
        ino: Ino,
        version: &NewVersion,
        came: &LaidPages<'_>,
    ) -> Result<(), PackFault>
        requires stands { Stands self.old (D.moment disk.old) }
        requires version { IsVersion version.now came.now.size }
        requires rests { RestsOn (size_of (copy_of self.old.copies ino)) (working_of came.now) }

        // At each moment a crash leaves the old view or the new one, in a sound pack, and nothing else changed.
        ensures any_moment { LeavesOnly (D.moment disk.old) (D.moment disk.new)
            (MayBeLeft self.old ino (new_version self.old.base ino version.now (working_of came.now) (D.moment disk.old).seen) (D.moment disk.old).seen) }

        // After it the pack has the new copy, and so has the disk, whatever comes.
        ensures copies { OnOk result (Commits self.old ino version.now (working_of came.now) self.new) }
        ensures stands { OnOk result (Stands self.new (D.moment disk.new)) }
        ensures good { AreCopies self.new.copies }
        ensures replaced { OnOk result (Replaced self.old.base ino (new_version self.old.base ino version.now (working_of came.now) (D.moment disk.old).seen) (D.moment disk.old).seen (D.moment disk.new).seen) }
        ensures pages { OnOk result (HoldsPages self.new ino (working_of came.now) (D.moment disk.new).seen) }

        ensures kept { OnErr result (self.new ≡ self.old) }
        ensures no_space { (pages free : ℕ) → (result ≡ Err (NoSpace pages free)) ↔ ((free < pages) × (pages ≡ needed (working_of came.now)) × (free + length (named_pages self.old.copies) ≡ pack_pages)) }

        // Memory is taken for the page numbers that stand in tables alone.
        ensures no_memory { result ≡ Err NoMemory → slot_pages < pages_of came.now.size }
        ensures early { IfErr result (λ fault. IsEarly fault → disk.new ≡ disk.old) }

        // The disk fails only where its count rose, and where it tells how many calls pass, exactly where they are too few.
        ensures cause { HasCause (D.moment disk.old).faults (D.moment disk.new).faults (commit_answer result) }
        ensures tells { TellsMany (commit_calls (blocks_over (copy_of self.old.copies ino) (working_of came.now)) (copy_of self.old.copies ino) result) (D.moment disk.old).passing (D.moment disk.new).passing (commit_answer result) }

        // Where it tells so, a crash as it cuts off the call leaves just this.
        ensures how { (D.moment disk.new).how ≡ (D.moment disk.old).how }
        ensures cut { (passed : ℕ) → (D.moment disk.old).passing ≡ Exactly passed → OnErr (commit_answer result)
            (IsCutCommit self.old ino (new_version self.old.base ino version.now (working_of came.now) (D.moment disk.old).seen) (blocks_over (copy_of self.old.copies ino) (working_of came.now)) (D.moment disk.old).how passed (D.moment disk.old).seen (D.moment disk.new).left) }
    {
        self.store(disk, ino, *version, came)
    }

    /// Commits a version of an inode whose content is this one. Only the marked pages are written, each to the least free data
    /// page; the others stay those that the inode has. `NoSpace` comes exactly where they are more than are free. After `Disk`
    /// the pack must be mounted again, and is wholly old or wholly new.
    pub fn commit<D: Disk>(
        &mut self,
        disk: &mut D,
        ino: Ino,
        version: &NewVersion,
        content: &[u8],
        marks: &[bool; CONTENT_PAGES],
    ) -> Result<(), PackFault>
        requires stands { Stands self.old (D.moment disk.old) }
        requires version { IsVersion version.now (length content.now) }
        requires rests { RestsOn (size_of (copy_of self.old.copies ino)) (marked content.now marks.now) }

        // At each moment a crash leaves the old view or the new one, in a sound pack, and nothing else changed.
        ensures any_moment { LeavesOnly (D.moment disk.old) (D.moment disk.new)
            (MayBeLeft self.old ino (new_version self.old.base ino version.now (marked content.now marks.now) (D.moment disk.old).seen) (D.moment disk.old).seen) }

        // After it the pack has the new copy, and so has the disk, whatever comes.
        ensures copies { OnOk result (Commits self.old ino version.now (marked content.now marks.now) self.new) }
        ensures stands { OnOk result (Stands self.new (D.moment disk.new)) }
        ensures good { AreCopies self.new.copies }
        ensures replaced { OnOk result (Replaced self.old.base ino (new_version self.old.base ino version.now (marked content.now marks.now) (D.moment disk.old).seen) (D.moment disk.old).seen (D.moment disk.new).seen) }
        ensures pages { OnOk result (HoldsPages self.new ino (marked content.now marks.now) (D.moment disk.new).seen) }

        ensures kept { OnErr result (self.new ≡ self.old) }
        ensures no_space { (pages free : ℕ) → (result ≡ Err (NoSpace pages free)) ↔ ((free < pages) × (pages ≡ needed (marked content.now marks.now)) × (free + length (named_pages self.old.copies) ≡ pack_pages)) }

        // Memory is taken for the page numbers that stand in tables alone.
        ensures no_memory { result ≡ Err NoMemory → slot_pages < pages_of (length content.now) }
        ensures early { IfErr result (λ fault. IsEarly fault → disk.new ≡ disk.old) }

        // The disk fails only where its count rose, and where it tells how many calls pass, exactly where they are too few.
        ensures cause { HasCause (D.moment disk.old).faults (D.moment disk.new).faults (commit_answer result) }
        ensures tells { TellsMany (commit_calls (blocks_over (copy_of self.old.copies ino) (marked content.now marks.now)) (copy_of self.old.copies ino) result) (D.moment disk.old).passing (D.moment disk.new).passing (commit_answer result) }

        // Where it tells so, a crash as it cuts off the call leaves just this.
        ensures how { (D.moment disk.new).how ≡ (D.moment disk.old).how }
        ensures cut { (passed : ℕ) → (D.moment disk.old).passing ≡ Exactly passed → OnErr (commit_answer result)
            (IsCutCommit self.old ino (new_version self.old.base ino version.now (marked content.now marks.now) (D.moment disk.old).seen) (blocks_over (copy_of self.old.copies ino) (marked content.now marks.now)) (D.moment disk.old).how passed (D.moment disk.old).seen (D.moment disk.new).left) }
    {
        self.store(disk, ino, *version, &MarkedContent { content, marks })
    }

    /// Makes a version of an inode, wholly or not at all.
    fn store<D: Disk, C: NewContent>(
        &mut self,
        disk: &mut D,
        ino: Ino,
        version: NewVersion,
        content: &C,
    ) -> Result<(), PackFault>
        requires stands { Stands self.old (D.moment disk.old) }
        requires version { IsVersion version (C.working content.now).size }
        requires rests { RestsOn (size_of (copy_of self.old.copies ino)) (C.working content.now) }
        ensures any_moment { LeavesOnly (D.moment disk.old) (D.moment disk.new)
            (MayBeLeft self.old ino (new_version self.old.base ino version (C.working content.now) (D.moment disk.old).seen) (D.moment disk.old).seen) }
        ensures copies { OnOk result (Commits self.old ino version (C.working content.now) self.new) }
        ensures stands { OnOk result (Stands self.new (D.moment disk.new)) }
        ensures good { AreCopies self.new.copies }
        ensures replaced { OnOk result (Replaced self.old.base ino (new_version self.old.base ino version (C.working content.now) (D.moment disk.old).seen) (D.moment disk.old).seen (D.moment disk.new).seen) }
        ensures pages { OnOk result (HoldsPages self.new ino (C.working content.now) (D.moment disk.new).seen) }
        ensures kept { OnErr result (self.new ≡ self.old) }
        ensures no_space { (pages free : ℕ) → (result ≡ Err (NoSpace pages free)) ↔ ((free < pages) × (pages ≡ needed (C.working content.now)) × (free + length (named_pages self.old.copies) ≡ pack_pages)) }
        ensures no_memory { result ≡ Err NoMemory → slot_pages < pages_of (C.working content.now).size }
        ensures early { IfErr result (λ fault. IsEarly fault → disk.new ≡ disk.old) }
        ensures cause { HasCause (D.moment disk.old).faults (D.moment disk.new).faults (commit_answer result) }
        ensures tells { TellsMany (commit_calls (blocks_over (copy_of self.old.copies ino) (C.working content.now)) (copy_of self.old.copies ino) result) (D.moment disk.old).passing (D.moment disk.new).passing (commit_answer result) }
        ensures how { (D.moment disk.new).how ≡ (D.moment disk.old).how }
        ensures cut { (passed : ℕ) → (D.moment disk.old).passing ≡ Exactly passed → OnErr (commit_answer result)
            (IsCutCommit self.old ino (new_version self.old.base ino version (C.working content.now) (D.moment disk.old).seen) (blocks_over (copy_of self.old.copies ino) (C.working content.now)) (D.moment disk.old).how passed (D.moment disk.old).seen (D.moment disk.new).left) }
    {
        let _len = disk.len();
        let base = self.base();
        let row = content.row();
        self.room_for(content, row)?;
        let prepared = self.prepare(ino, &version, content, row)?;
        let half = prepared.made.copy.half;
        let pieces = CommitPieces {
            base,
            ino,
            made: &prepared.made,
            row,
            content,
        };
        replace_inode(disk, base, ino, half, prepared.closes, &pieces)?;
        self.put(ino, prepared.made, prepared.passed);
        Ok(())
    }

    /// Where the area begins.
    fn base(&self) -> u32
        ensures { result ≡ self.now.base }
    {
        self.base
    }

    /// Whether there is room for the changed pages.
    fn room_for<C: NewContent>(&self, content: &C, row: Row) -> Result<(), PackFault>
        requires size { (C.working content.now).size ≤ content_bytes_max }
        requires changed { HasChanged row.first row.stop (C.working content.now) }
        requires ordered { row.first ≤ row.stop }
        requires inside { row.stop ≤ pages_of (C.working content.now).size }
        ensures copies { AreCopies self.now.copies }
        ensures room { OnOk result (needed (C.working content.now) + length (named_pages self.now.copies) ≤ pack_pages) }
        ensures no_space { (pages free : ℕ) → (result ≡ Err (NoSpace pages free)) ↔ ((free < pages) × (pages ≡ needed (C.working content.now)) × (free + length (named_pages self.now.copies) ≡ pack_pages)) }
        ensures early { IfErr result (λ fault. IsEarly fault) }
        ensures no_memory { result ≡ Err NoMemory → ⊥ }
    {
        let needed = content.count(row);
        let free = self.pages.free();
        if needed > free {
            return Err(PackFault::NoSpace { needed, free });
        }
        Ok(())
    }

    /// Finds what a commit makes. It takes memory only for page numbers that stand in tables, and the rest of a commit none.
    fn prepare<C: NewContent>(
        &self,
        ino: Ino,
        version: &NewVersion,
        content: &C,
        row: Row,
    ) -> Result<Prepared, locus_ids::NoMemory>
        requires area { self.now.base + area_length < 2 ^ 32 }
        requires version { IsVersion version.now (C.working content.now).size }
        requires rests { RestsOn (size_of (copy_of self.now.copies ino)) (C.working content.now) }
        requires changed { HasChanged row.first row.stop (C.working content.now) }
        requires ordered { row.first ≤ row.stop }
        requires inside { row.stop ≤ pages_of (C.working content.now).size }
        requires room { needed (C.working content.now) + length (named_pages self.now.copies) ≤ pack_pages }
        ensures makes { IfOk result (λ p. Makes (is_free self.now.copies) (is_free_table self.now.copies) (copy_of self.now.copies ino) ino version.now (C.working content.now) p.made.copy) }
        ensures few { IfOk result (λ p. slot_pages + length p.made.copy.more ≤ content_pages_max) }
        ensures long { IfOk result (λ p. (length (numbers_in p.made.copy) ≡ content_pages_max) × (length p.made.copy.slot.pages ≡ slot_pages) × (length p.made.copy.slot.tables ≡ content_tables_max)) }
        ensures tables { IfOk result (λ p. (k : ℕ) → k < content_tables_max → slice_index_or p.made.tables k false ≡ is_table_over (copy_of self.now.copies ino) (C.working content.now) k) }
        ensures own { IfOk result (λ p. p.made.copy.slot.ino ≡ ino) }
        ensures low { 1 ≤ ino }
        ensures high { ino ≤ inodes_max }
        ensures inside { IfOk result (λ p. (i : ℕ) → i < pages_of (C.working content.now).size → slice_index (numbers_in p.made.copy) i < pack_pages) }
        ensures whole { IfOk result (λ p. AreWhole (C.working content.now) (pages_of (C.working content.now).size)) }
        ensures no_memory { OnErr result (slot_pages < pages_of (C.working content.now).size) }
        ensures passed_ordered { IfOk result (λ p. p.passed.first ≤ p.passed.stop) }
        ensures passed_inside { IfOk result (λ p. p.passed.stop ≤ content_pages_max) }
        ensures same { IfOk result (λ p. (one : InodeCopy) → copy_of self.now.copies ino ≡ Some one → SameButFor p.passed.first p.passed.stop (numbers_in one) (numbers_in p.made.copy)) }
        ensures first { IfOk result (λ p. copy_of self.now.copies ino ≡ None → SameButFor p.passed.first p.passed.stop (replicate content_pages_max none) (numbers_in p.made.copy)) }
        ensures closes { IfOk result (λ p. p.closes ≡ is_some (copy_of self.now.copies ino)) }
        ensures copies { AreCopies self.now.copies }
    {
        let old = &self.copies[usize::from(ino.get()) - 1];
        let end = page_count(content.size());
        let passed = row_to_pass(old, row, end);
        let closes = old.is_some();
        let made = next_copy(*self.copies.allocator(), self, row, ino, version, content)?;
        Ok(Prepared {
            made,
            passed,
            closes,
        })
    }

    /// The pack has this copy of the inode.
    fn put(&mut self, ino: Ino, made: Made, row: Row)
        requires copies { AreCopies (with_copy self.old ino made.copy).copies }
        requires ordered { row.first ≤ row.stop }
        requires inside { row.stop ≤ content_pages_max }
        requires same { (one : InodeCopy) → copy_of self.old.copies ino ≡ Some one → SameButFor row.first row.stop (numbers_in one) (numbers_in made.copy) }
        requires first { copy_of self.old.copies ino ≡ None → SameButFor row.first row.stop (replicate content_pages_max none) (numbers_in made.copy) }
        ensures { self.new ≡ with_copy self.old ino made.copy }
    {
        let number = ino.get();
        let at = usize::from(number) - 1;
        let old = &self.copies[at];
        let pages = page_count(made.copy.slot.size);
        self.pages.pass(old, &made.copy, pages, row);
        self.copies[at] = Some(made.copy);
        self.last = self.last.max(number);
    }
}
