// A version is stored in its pack.
ghost use Rattle.std.specs.Prelude.{◌≡◌, ◌<◌, ◌≤◌, ℕ, [], length, slice_get, Err, OnOk, OnErr, IfErr};
ghost use Rattle.locus_ids.specs.Sizes.{slot_pages};
ghost use Rattle.disk_model.specs.Disk.{HasCause, Exactly};
ghost use Rattle.disk_model.specs.Moments.{LeavesOnly, TellsMany};
ghost use Rattle.file_content.specs.Pages.{pages_of};
ghost use Rattle.inode_pack.specs.of_new_contents.Changed.{needed};
ghost use Rattle.inode_pack.specs.Committing.{commit_answer};
ghost use Rattle.inode_pack.specs.of_new_contents.Marked.{marked};
ghost use Rattle.inode_pack.specs.declared.pack_fault.PackFault.TheVariants.{NoMemory};
ghost use Rattle.role_steps.specs.Tables.{with_row};
ghost use Rattle.role_steps.specs.Storage.{copy_key};
ghost use Rattle.site_packs.specs.Copies.{copies_on};
ghost use Rattle.site_packs.specs.Packs.{AreFound, Stand, SamePlaces, groups_of, pack_in, copy_at};
ghost use Rattle.site_packs.specs.Committing.{IsWholeFit, IsOfStore, MayBeLeft, copy_made, room, store_calls};
ghost use Rattle.inode_pack.specs.of_new_contents.Laid.{working_of};
ghost use Rattle.site_packs.specs.Laying.{content_over, copy_laid};
ghost use Rattle.site_packs.specs.Cutting.{both_open_on, IsCut};
ghost use Rattle.site_packs.specs.Marking.{FillsAt, blocks_at};

use crate::{NewVersion, SitePacks};
use disk_model::Disk;
use inode_pack::{LaidPages, PackFault};
use locus_ids::sizes::CONTENT_PAGES;
use locus_ids::{FileId, Ino};

impl SitePacks {
    /// Stores a version of a file in the pack at a place, which is that of the file's group. Its marked pages are written.
    pub(crate) fn store<D: Disk>(
        &mut self,
        disk: &mut D,
        at: usize,
        ino: Ino,
        file: FileId,
        version: NewVersion,
        content: &[u8],
        marks: &[bool; CONTENT_PAGES],
    ) -> Result<(), PackFault>
        requires stands { Stand self.old (D.moment disk.old) }
        requires inside { at < length self.old.packs }
        requires place { slice_get self.old.packs at ≡ pack_in file.group self.old.packs }
        requires own { ino ≡ file.ino }
        requires whole { IsWholeFit self.old file version (length content.now) }
        requires fills { FillsAt (pack_in file.group self.old.packs) ino content.now (marked content.now marks.now) (D.moment disk.old).seen }
        requires room { needed (marked content.now marks.now) ≤ room self.old (D.moment disk.old).seen file.group }
        ensures any_moment { LeavesOnly (D.moment disk.old) (D.moment disk.new) (MayBeLeft self.old (copy_made file version content.now) (D.moment disk.old).seen) }
        ensures copies { OnOk result (copies_on (groups_of self.old) (D.moment disk.new).seen ≡ with_row copy_key (copy_made file version content.now) (copies_on (groups_of self.old) (D.moment disk.old).seen)) }
        ensures found { OnOk result (AreFound self.new.packs (D.moment disk.new)) }
        ensures live { self.new.live ≡ self.old.live }
        ensures places { SamePlaces self.old self.new }
        ensures kept { OnErr result (self.new ≡ self.old) }
        ensures only { IfErr result IsOfStore }
        ensures early { result ≡ Err NoMemory → disk.new ≡ disk.old }
        ensures tables { result ≡ Err NoMemory → slot_pages < pages_of (length content.now) }
        ensures cause { HasCause (D.moment disk.old).faults (D.moment disk.new).faults (commit_answer result) }
        ensures tells { TellsMany (store_calls (blocks_at (pack_in file.group self.old.packs) ino (marked content.now marks.now)) (copy_at self.old (D.moment disk.old).seen file) result) (D.moment disk.old).passing (D.moment disk.new).passing (commit_answer result) }
        ensures none { OnOk result (both_open_on (groups_of self.old) (D.moment disk.new).seen ≡ []) }
        ensures how { (D.moment disk.new).how ≡ (D.moment disk.old).how }
        ensures cut { (passed : ℕ) → (D.moment disk.old).passing ≡ Exactly passed → OnErr (commit_answer result)
            (IsCut self.old (copy_made file version content.now) (blocks_at (pack_in file.group self.old.packs) ino (marked content.now marks.now)) (D.moment disk.old).how passed (D.moment disk.old).seen (D.moment disk.new).left) }
    {
        self.packs[at].commit(disk, ino, &version, content, marks)
    }

    /// Stores a version of a file in the pack at a place, which is that of the file's group: the pages that came, over the copy so far.
    pub(crate) fn lay<D: Disk>(
        &mut self,
        disk: &mut D,
        at: usize,
        ino: Ino,
        file: FileId,
        version: NewVersion,
        came: &LaidPages<'_>,
    ) -> Result<(), PackFault>
        requires stands { Stand self.old (D.moment disk.old) }
        requires inside { at < length self.old.packs }
        requires place { slice_get self.old.packs at ≡ pack_in file.group self.old.packs }
        requires own { ino ≡ file.ino }
        requires whole { IsWholeFit self.old file version came.now.size }
        requires fills { FillsAt (pack_in file.group self.old.packs) ino (content_over self.old (D.moment disk.old).seen file came.now) (working_of came.now) (D.moment disk.old).seen }
        requires room { needed (working_of came.now) ≤ room self.old (D.moment disk.old).seen file.group }
        ensures any_moment { LeavesOnly (D.moment disk.old) (D.moment disk.new) (MayBeLeft self.old (copy_laid self.old (D.moment disk.old).seen file version came.now) (D.moment disk.old).seen) }
        ensures copies { OnOk result (copies_on (groups_of self.old) (D.moment disk.new).seen ≡ with_row copy_key (copy_laid self.old (D.moment disk.old).seen file version came.now) (copies_on (groups_of self.old) (D.moment disk.old).seen)) }
        ensures found { OnOk result (AreFound self.new.packs (D.moment disk.new)) }
        ensures live { self.new.live ≡ self.old.live }
        ensures places { SamePlaces self.old self.new }
        ensures kept { OnErr result (self.new ≡ self.old) }
        ensures only { IfErr result IsOfStore }
        ensures early { result ≡ Err NoMemory → disk.new ≡ disk.old }
        ensures tables { result ≡ Err NoMemory → slot_pages < pages_of came.now.size }
        ensures cause { HasCause (D.moment disk.old).faults (D.moment disk.new).faults (commit_answer result) }
        ensures tells { TellsMany (store_calls (blocks_at (pack_in file.group self.old.packs) ino (working_of came.now)) (copy_at self.old (D.moment disk.old).seen file) result) (D.moment disk.old).passing (D.moment disk.new).passing (commit_answer result) }
        ensures none { OnOk result (both_open_on (groups_of self.old) (D.moment disk.new).seen ≡ []) }
        ensures how { (D.moment disk.new).how ≡ (D.moment disk.old).how }
        ensures cut { (passed : ℕ) → (D.moment disk.old).passing ≡ Exactly passed → OnErr (commit_answer result)
            (IsCut self.old (copy_laid self.old (D.moment disk.old).seen file version came.now) (blocks_at (pack_in file.group self.old.packs) ino (working_of came.now)) (D.moment disk.old).how passed (D.moment disk.old).seen (D.moment disk.new).left) }
    {
        self.packs[at].adopt(disk, ino, &version, came)
    }
}
