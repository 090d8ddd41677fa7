// A version is committed or adopted, wholly or not at all.
ghost use Rattle.std.specs.Prelude.{◌≡◌, ◌↔◌, ◌⊎◌, ◌<◌, ℕ, [], length, is_some, Err, OnOk, OnErr, IfErr};
ghost use Rattle.locus_ids.specs.Sizes.{slot_pages};
ghost use Rattle.disk_model.specs.Disk.{HasCause, Exactly};
ghost use Rattle.disk_model.specs.Moments.{LeavesOnly, TellsMany};
ghost use Rattle.file_content.specs.Pages.{pages_of};
ghost use Rattle.role_steps.specs.Tables.{with_row};
ghost use Rattle.role_steps.specs.Storage.{copy_key};
ghost use Rattle.site_packs.specs.declared.faults.CommitFault.TheVariants.{Disk, NoSpace, Unfit, NoMemory};
ghost use Rattle.site_packs.specs.Copies.{copies_on};
ghost use Rattle.site_packs.specs.Packs.{Stand, SamePlaces, groups_of, copy_at};
ghost use Rattle.site_packs.specs.Committing.{IsFit, MayBeLeft, copy_made, room, blocks_over, commit_calls, commit_answer};
ghost use Rattle.site_packs.specs.Laying.{IsLaidFit, content_over, copy_laid};
ghost use Rattle.site_packs.specs.Cutting.{both_open_on, IsCut, HasSize};

use crate::{CommitFault, NewVersion, SitePacks, WriteSize};
use disk_model::Disk;
use inode_pack::{LaidPages, PackFault};
use locus_ids::FileId;
use page_marks::{laid_marks, pages_before, size_of, tables_written};

impl SitePacks {
    /// Commits a version of a file. The pages of its content that were changed are written, `changed` having the number of each;
    /// the others are compared with those of the copy so far. `NoSpace` comes exactly where more pages were changed than are
    /// free, and before any call of the disk; `Unfit` exactly where the copy may not be kept so, and before any write;
    /// `Disk` where a read failed, before any write. After `Cut` the packs must be mounted again, and have the old copy or the
    /// new one.
    pub fn commit<D: Disk>(
        &mut self,
        disk: &mut D,
        file: FileId,
        version: &NewVersion,
        content: &[u8],
        changed: &[usize],
    ) -> Result<(), CommitFault>
        requires stands { Stand self.old (D.moment disk.old) }

        // At each moment a crash leaves the old copies or the new ones, in packs that mount, and nothing else changed.
        ensures any_moment { LeavesOnly (D.moment disk.old) (D.moment disk.new) (MayBeLeft self.old (copy_made file version.now content.now) (D.moment disk.old).seen) }

        // After it the site has the new copy, whatever comes.
        ensures copies { OnOk result (copies_on (groups_of self.old) (D.moment disk.new).seen ≡ with_row copy_key (copy_made file version.now content.now) (copies_on (groups_of self.old) (D.moment disk.old).seen)) }
        ensures stands { OnOk result (Stand self.new (D.moment disk.new)) }
        ensures places { SamePlaces self.old self.new }

        ensures kept { OnErr result (self.new ≡ self.old) }
        ensures fit { OnOk result (IsFit self.old (D.moment disk.old).seen file version.now content.now changed.now) }
        ensures unfit { result ≡ Err Unfit → IsFit self.old (D.moment disk.old).seen file version.now content.now changed.now → ⊥ }
        ensures no_space { (result ≡ Err NoSpace) ↔ (room self.old (D.moment disk.old).seen file.group < length changed.now) }
        ensures early { result ≡ Err NoSpace → disk.new ≡ disk.old }
        ensures unwritten { result ≡ Err Unfit → ((D.moment disk.new).seen ≡ (D.moment disk.old).seen) × Stand self.new (D.moment disk.new) }
        ensures no_memory { result ≡ Err NoMemory → ((D.moment disk.new).seen ≡ (D.moment disk.old).seen) × Stand self.new (D.moment disk.new) }
        ensures tables { result ≡ Err NoMemory → slot_pages < pages_of (length content.now) }

        // The disk fails only where its count rose, and where it tells how many calls pass, exactly where they are too few.
        ensures cause { HasCause (D.moment disk.old).faults (D.moment disk.new).faults (commit_answer result) }
        ensures tells { TellsMany (commit_calls (blocks_over (copy_at self.old (D.moment disk.old).seen file) content.now changed.now) (is_some (copy_at self.old (D.moment disk.old).seen file)) result) (D.moment disk.old).passing (D.moment disk.new).passing (commit_answer result) }

        // Where it tells so, a crash as it cuts off the write leaves just this.
        ensures none { OnOk result (both_open_on (groups_of self.old) (D.moment disk.new).seen ≡ []) }
        ensures size { IfErr result (λ fault. HasSize (blocks_over (copy_at self.old (D.moment disk.old).seen file) content.now changed.now) (is_some (copy_at self.old (D.moment disk.old).seen file)) fault) }
        ensures unread { result ≡ Err Disk → ((D.moment disk.new).seen ≡ (D.moment disk.old).seen) × Stand self.new (D.moment disk.new) }
        ensures told { (passed : ℕ) → (D.moment disk.old).passing ≡ Exactly passed → result ≡ Err Disk → ⊥ }
        ensures how { (D.moment disk.new).how ≡ (D.moment disk.old).how }
        ensures cut { (passed : ℕ) → (D.moment disk.old).passing ≡ Exactly passed → OnErr (commit_answer result)
            (IsCut self.old (copy_made file version.now content.now) (blocks_over (copy_at self.old (D.moment disk.old).seen file) content.now changed.now) (D.moment disk.old).how passed (D.moment disk.old).seen (D.moment disk.new).left) }
    {
        let _invariant = &self.site;
        let before = self.head(file);
        let replaces = before.is_some();
        let admitted = match self.admit(disk, file, version, content, changed) {
            Ok(admitted) => admitted,
            Err(fault) => return Err(fault),
        };
        let plan = &admitted.plan;
        let marks = &admitted.marks;
        match self.store(disk, plan.at, plan.ino, file, *version, content, marks) {
            Ok(()) => {
                self.note(file, version.kind, content);
                Ok(())
            }
            Err(PackFault::Disk) => Err(CommitFault::Cut(WriteSize {
                blocks: changed.len() + tables_written(pages_before(&before), content.len(), marks),
                replaces,
            })),
            Err(PackFault::NoSpace { needed: _, free: _ }) => Err(CommitFault::NoSpace),
            Err(PackFault::NoMemory) => Err(CommitFault::NoMemory),
        }
    }

    /// Adopts a version of a file that was made elsewhere: the pages of it that came are laid over the copy so far, which has the
    /// others. They alone are written, and no other is read. `NoSpace` comes exactly where they are more than are free, `Unfit`
    /// exactly where the copy may not be kept so, both before any call of the disk. `Disk` is never answered. After `Cut` the packs
    /// must be mounted again, and have the old copy or the new one.
    pub fn adopt<D: Disk>(
        &mut self,
        disk: &mut D,
        file: FileId,
        version: &NewVersion,
        came: &LaidPages<'_>,
    ) -> Result<(), CommitFault>
        requires stands { Stand self.old (D.moment disk.old) }

        // At each moment a crash leaves the old copies or the new ones, in packs that mount, and nothing else changed.
        ensures any_moment { LeavesOnly (D.moment disk.old) (D.moment disk.new) (MayBeLeft self.old (copy_laid self.old (D.moment disk.old).seen file version.now came.now) (D.moment disk.old).seen) }

        // After it the site has the new copy, whatever comes.
        ensures copies { OnOk result (copies_on (groups_of self.old) (D.moment disk.new).seen ≡ with_row copy_key (copy_laid self.old (D.moment disk.old).seen file version.now came.now) (copies_on (groups_of self.old) (D.moment disk.old).seen)) }
        ensures stands { OnOk result (Stand self.new (D.moment disk.new)) }
        ensures places { SamePlaces self.old self.new }

        ensures kept { OnErr result (self.new ≡ self.old) }
        ensures fit { OnOk result (IsLaidFit self.old (D.moment disk.old).seen file version.now came.now) }
        ensures unfit { result ≡ Err Unfit → IsLaidFit self.old (D.moment disk.old).seen file version.now came.now → ⊥ }
        ensures no_space { (result ≡ Err NoSpace) ↔ (room self.old (D.moment disk.old).seen file.group < length came.now.numbers.now) }
        ensures early { (result ≡ Err NoSpace) ⊎ (result ≡ Err Unfit) → disk.new ≡ disk.old }
        ensures no_memory { result ≡ Err NoMemory → disk.new ≡ disk.old }
        ensures tables { result ≡ Err NoMemory → slot_pages < pages_of came.now.size }

        // The disk fails only where its count rose, and where it tells how many calls pass, exactly where they are too few.
        ensures cause { HasCause (D.moment disk.old).faults (D.moment disk.new).faults (commit_answer result) }
        ensures tells { TellsMany (commit_calls (blocks_over (copy_at self.old (D.moment disk.old).seen file) (content_over self.old (D.moment disk.old).seen file came.now) came.now.numbers.now) (is_some (copy_at self.old (D.moment disk.old).seen file)) result) (D.moment disk.old).passing (D.moment disk.new).passing (commit_answer result) }

        // Where it tells so, a crash as it cuts off the write leaves just this.
        ensures none { OnOk result (both_open_on (groups_of self.old) (D.moment disk.new).seen ≡ []) }
        ensures size { IfErr result (λ fault. HasSize (blocks_over (copy_at self.old (D.moment disk.old).seen file) (content_over self.old (D.moment disk.old).seen file came.now) came.now.numbers.now) (is_some (copy_at self.old (D.moment disk.old).seen file)) fault) }
        ensures written { result ≡ Err Disk → ⊥ }
        ensures how { (D.moment disk.new).how ≡ (D.moment disk.old).how }
        ensures cut { (passed : ℕ) → (D.moment disk.old).passing ≡ Exactly passed → OnErr (commit_answer result)
            (IsCut self.old (copy_laid self.old (D.moment disk.old).seen file version.now came.now) (blocks_over (copy_at self.old (D.moment disk.old).seen file) (content_over self.old (D.moment disk.old).seen file came.now) came.now.numbers.now) (D.moment disk.old).how passed (D.moment disk.old).seen (D.moment disk.new).left) }
    {
        let _invariant = &self.site;
        let before = self.head(file);
        let replaces = before.is_some();
        let pages = came.numbers.len();
        if pages > usize::from(self.free_pages(file.group)) {
            return Err(CommitFault::NoSpace);
        }
        let size = came.size as usize;
        let Some(plan) = self.plan(file, version, size) else {
            return Err(CommitFault::Unfit);
        };
        let Some(marks) = laid_marks(came, size_of(&before)) else {
            return Err(CommitFault::Unfit);
        };
        match self.lay(disk, plan.at, plan.ino, file, *version, came) {
            Ok(()) => {
                self.note_laid(file, version.kind, came);
                Ok(())
            }
            Err(PackFault::Disk) => Err(CommitFault::Cut(WriteSize {
                blocks: pages + tables_written(pages_before(&before), size, &marks),
                replaces,
            })),
            Err(PackFault::NoSpace { needed: _, free: _ }) => Err(CommitFault::NoSpace),
            Err(PackFault::NoMemory) => Err(CommitFault::NoMemory),
        }
    }
}
