//! The working content of an instance becomes a version of its file.

ghost use Rattle.std.specs.Prelude.{◌≡◌, ◌++◌, ◌∷◌, [], ◌-◌, List, IfSome, IfNone, IfOk, OnOk, Some, is_some, true, false, slice_index, ℕ, Err, IfErr, OnErr};
ghost use Rattle.disk_model.specs.Disk.{Exactly, HasCause};
ghost use Rattle.disk_model.specs.Moments.{LeavesOnly};
ghost use Rattle.role_steps.specs.Tables.{with_row};
ghost use Rattle.role_steps.specs.declared.copies.FileCopy.{FileCopy};
ghost use Rattle.role_steps.specs.Storage.{commit_record, step_to, copy_key, copy_made, instance_committed, instance_key, is_spent, next_stamp, next_vector, stamp_of};
ghost use Rattle.site_packs.specs.Copies.{copies_on};
ghost use Rattle.site_packs.specs.Committing.{MayBeLeft, blocks_over, calls_of};
ghost use Rattle.site_packs.specs.Cutting.{IsCut};
ghost use Rattle.site_packs.specs.Packs.{AreShown, SamePlaces, Stand, copy_at, groups_of};
ghost use Rattle.file_content.specs.Pages.{ascending};
ghost use Rattle.store_instances.specs.Fitting.{CanStore};
ghost use Rattle.store_instances.specs.Writes.{HasSize, TellsWrite, Writes, disk_answer, write_as};

use crate::pages::ascending_pages;
use crate::{StoreFault, StoreInstance};
use disk_model::Disk;
use instance_choices::next_vector;
use locus_ids::sizes::SITES;
use locus_ids::{Bytes, ItemList, NoMemory, SiteId, Stamp, Stamps};
use role_steps::Step;
use site_frame::SiteFrame;
use site_packs::{NewVersion, SitePacks};
use trace_book::Record;
use version_vector::Vector;
use wire_messages::Outbox;

impl StoreInstance {
    /// The vector of the next version, in which this site's counter is one more, or `None` where it can't rise.
    pub(crate) fn next_vector(&self, frame: &SiteFrame) -> Option<Vector<SITES>>
        ensures some { IfSome result (λ v. v ≡ next_vector frame.now self.now) }
        ensures risen { IfSome result (λ v. is_spent frame.now self.now ≡ false) }
        ensures none { IfNone result (is_spent frame.now self.now ≡ true) }
    {
        next_vector(&self.vector, frame.me)
    }

    /// The working content is committed as the version of this vector. Its record is told before the disk is written. The step from
    /// the version before it is the answer.
    pub(crate) fn commit<D: Disk>(
        &mut self,
        frame: &SiteFrame,
        packs: &mut SitePacks,
        disk: &mut D,
        vector: &Vector<SITES>,
        out: &mut Outbox,
    ) -> Result<Step, StoreFault>
        requires { Stand packs.old (D.moment disk.old) }
        ensures step { IfOk result (λ step. step ≡ step_to (copy_made self.old vector.now (next_stamp frame.now vector.now)) (ascending self.old.work.changed) (copy_at packs.old (D.moment disk.old).seen self.old.file)) }
        ensures row { OnOk result (self.new ≡ instance_committed self.old vector.now (next_stamp frame.now vector.now)) }
        ensures copies { OnOk result (copies_on (groups_of packs.new) (D.moment disk.new).seen ≡ with_row copy_key (copy_made self.old vector.now (next_stamp frame.now vector.now)) (copies_on (groups_of packs.old) (D.moment disk.old).seen)) }
        ensures stands { OnOk result (Stand packs.new (D.moment disk.new)) }
        ensures places { OnOk result (SamePlaces packs.old packs.new) }
        ensures key { instance_key self.new ≡ instance_key self.old }
        ensures stage { self.new.stage ≡ self.old.stage }
        ensures packets { OnOk result (out.new.packets ≡ out.old.packets) }
        ensures records { OnOk result (out.new.records ≡ out.old.records ++ commit_record frame.now self.old (next_stamp frame.now vector.now) ∷ []) }
        ensures disk { Writes (Some (write_as frame.now self.old vector.now)) packs.old (D.moment disk.old) (D.moment disk.new) out.old out.new result }
        ensures unfit { result ≡ Err StoreFault.Unfit → CanStore (groups_of packs.old) (copies_on (groups_of packs.old) (D.moment disk.old).seen) self.old vector.now (next_stamp frame.now vector.now) → ⊥ }
    {
        let stamp = next_stamp(frame.me, vector);
        let parents = only(&self.parents, stamp)?;
        let step = self.step_to(packs, stamp)?;
        self.tell_commit(frame, stamp, out)?;
        self.write(packs, disk, vector, stamp)?;
        self.vector = *vector;
        self.parents = parents;
        self.work.commit(stamp);
        Ok(step)
    }

    /// The step to the version of this stamp, from the one that the site has.
    fn step_to(&self, packs: &SitePacks, stamp: Stamp) -> Result<Step, NoMemory>
        ensures { IfOk result (λ step. (image : List ℕ) (x : FileCopy) → AreShown packs.now.packs image → x.stamp ≡ stamp → step ≡ step_to x (ascending self.now.work.changed) (copy_at packs.now image self.now.file)) }
    {
        let before = self.stamp_before(packs);
        let changed = self.work.changed.as_slice();
        let pages = ascending_pages(self.parents.allocator(), changed)?;
        Ok(Step {
            before,
            after: stamp,
            pages,
        })
    }

    /// The stamp of the version that the site has of the file.
    fn stamp_before(&self, packs: &SitePacks) -> Option<Stamp>
        ensures { (image : List ℕ) → AreShown packs.now.packs image → result ≡ stamp_of (copy_at packs.now image self.now.file) }
    {
        match packs.head(self.file) {
            Some(copy) => Some(copy.stamp),
            None => None,
        }
    }

    /// The working content goes to the disk as the version of this vector and stamp. Here a refused commit becomes a fault of
    /// the role.
    fn write<D: Disk>(
        &self,
        packs: &mut SitePacks,
        disk: &mut D,
        vector: &Vector<SITES>,
        stamp: Stamp,
    ) -> Result<(), StoreFault>
        requires { Stand packs.old (D.moment disk.old) }
        ensures copies { OnOk result (copies_on (groups_of packs.new) (D.moment disk.new).seen ≡ with_row copy_key (copy_made self.now vector.now stamp) (copies_on (groups_of packs.old) (D.moment disk.old).seen)) }
        ensures stands { OnOk result (Stand packs.new (D.moment disk.new)) }
        ensures places { OnOk result (SamePlaces packs.old packs.new) }
        ensures leaves { LeavesOnly (D.moment disk.old) (D.moment disk.new) (MayBeLeft packs.old (copy_made self.now vector.now stamp) (D.moment disk.old).seen) }
        ensures cause { HasCause (D.moment disk.old).faults (D.moment disk.new).faults (disk_answer result) }
        ensures tells { TellsWrite (calls_of (blocks_over (copy_at packs.old (D.moment disk.old).seen self.now.file) self.now.work.content (ascending self.now.work.changed)) (is_some (copy_at packs.old (D.moment disk.old).seen self.now.file))) (D.moment disk.old).passing (D.moment disk.new).passing result }
        ensures unread { result ≡ Err StoreFault.Disk → (D.moment disk.new).seen ≡ (D.moment disk.old).seen }
        ensures told { (passed : ℕ) → (D.moment disk.old).passing ≡ Exactly passed → result ≡ Err StoreFault.Disk → ⊥ }
        ensures cut { (passed : ℕ) → (D.moment disk.old).passing ≡ Exactly passed → OnErr (disk_answer result) (IsCut packs.old (copy_made self.now vector.now stamp) (blocks_over (copy_at packs.old (D.moment disk.old).seen self.now.file) self.now.work.content (ascending self.now.work.changed)) (D.moment disk.old).how passed (D.moment disk.old).seen (D.moment disk.new).left) }
        ensures size { IfErr result (HasSize (blocks_over (copy_at packs.old (D.moment disk.old).seen self.now.file) self.now.work.content (ascending self.now.work.changed)) (is_some (copy_at packs.old (D.moment disk.old).seen self.now.file))) }
        ensures how { (D.moment disk.new).how ≡ (D.moment disk.old).how }
        ensures unfit { result ≡ Err StoreFault.Unfit → CanStore (groups_of packs.old) (copies_on (groups_of packs.old) (D.moment disk.old).seen) self.now vector.now stamp → ⊥ }
    {
        let version = NewVersion {
            kind: self.kind,
            set: self.set,
            stamp,
            vector: *vector,
        };
        let content = self.work.content.as_slice();
        let changed = self.work.changed.as_slice();
        match packs.commit(disk, self.file, &version, content, changed) {
            Ok(()) => Ok(()),
            Err(refused) => Err(StoreFault::from(refused)),
        }
    }

    /// Tells of the version of this stamp.
    fn tell_commit(&self, frame: &SiteFrame, stamp: Stamp, out: &mut Outbox) -> Result<(), NoMemory>
        ensures packets { OnOk result (out.new.packets ≡ out.old.packets) }
        ensures records { OnOk result (out.new.records ≡ out.old.records ++ commit_record frame.now self.now stamp ∷ []) }
    {
        let alloc = self.parents.allocator();
        out.note(Record::Commit {
            file: self.file,
            site: frame.me.get(),
            stamp,
            parents: copied(&self.parents)?,
            content: Bytes::from_slice(alloc, self.work.content.as_slice())?,
        })
    }
}

/// The stamp of the next version.
fn next_stamp(me: SiteId, vector: &Vector<SITES>) -> Stamp
    ensures { result ≡ record { site = me; n = slice_index vector.now (me - 1) } }
{
    let site = me.get();
    Stamp {
        site,
        n: vector.part(me),
    }
}

fn only(before: &Stamps, stamp: Stamp) -> Result<Stamps, NoMemory>
    ensures { IfOk result (λ made. made ≡ stamp ∷ []) }
{
    let mut made = ItemList::new(before.allocator());
    made.push(stamp)?;
    Ok(made)
}

fn copied(stamps: &Stamps) -> Result<Stamps, NoMemory>
    ensures { IfOk result (λ made. made ≡ stamps.now) }
{
    let copy = stamps.copy()?;
    Ok(copy)
}
