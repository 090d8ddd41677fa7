//! The calls of the role that are about one instance.

ghost use Rattle.std.specs.Prelude.{◌≡◌, ◌<◌, ℕ, List, length, slice_index_or, Err, OnOk};
ghost use Rattle.role_steps.specs.Storage.{free_pages, on_close, on_closed_ok};
ghost use Rattle.role_steps.specs.Operations.{on_op};
ghost use Rattle.role_steps.specs.declared.instances.Instance.{Instance};
ghost use Rattle.store_instances.specs.of_site_packs.Packs.{AreShown, PacksState, SamePlaces, Stand, groups_of};
ghost use Rattle.store_instances.specs.Stores.{Gives, store_of};
ghost use Rattle.store_instances.specs.Writes.{Writes};
ghost use Rattle.storage_site.specs.Fitting.{CanCloseAt, CanOperateAt};

use crate::Store;
use crate::store::keep_open;
use disk_model::Disk;
use keyed_tables::serial_key;
use locus_ids::sizes::SITES;
use locus_ids::{NoMemory, Serial};
use operation_effects::MendingWork;
use site_frame::SiteFrame;
use store_instances::StoreFault;
use store_instances::site_packs::SitePacks;
use trace_book::Op;
use version_vector::Vector;
use wire_messages::Outbox;

impl Store {
    /// An operation of this number on an instance. Each number is executed once: the last one is answered again, and any that
    /// is neither that nor the next is ignored. What an operation commits is on the disk before it is answered.
    pub fn on_op<D: Disk>(
        &mut self,
        frame: &SiteFrame,
        packs: &mut SitePacks,
        disk: &mut D,
        inst: Serial,
        n: u32,
        op: &Op,
        seen: &Vector<SITES>,
        mending: &MendingWork,
        out: &mut Outbox,
    ) -> Result<(), StoreFault>
        requires { Stand packs.old (D.moment disk.old) }
        ensures gives { OnOk result (Gives (on_op frame.now mending.now inst n op.now seen.now (store_of self.old packs.old (D.moment disk.old).seen)) (store_of self.new packs.new (D.moment disk.new).seen) out.old out.new) }
        ensures stands { OnOk result (Stand packs.new (D.moment disk.new)) }
        ensures places { OnOk result (SamePlaces packs.old packs.new) }
        ensures disk { Writes (on_op frame.now mending.now inst n op.now seen.now (store_of self.old packs.old (D.moment disk.old).seen)).written packs.old (D.moment disk.old) (D.moment disk.new) out.old out.new result }
        ensures unfit { result ≡ Err StoreFault.Unfit → CanOperateAt frame.now mending.now (groups_of packs.old) inst n op.now (store_of self.old packs.old (D.moment disk.old).seen) → ⊥ }
    {
        match self.index.place(serial_key(inst)) {
            None => Ok(()),
            Some(place) => {
                let free = self.free_at(packs, place);
                let row = &mut self.rows[place];
                let made = row.on_op(frame, packs, disk, n, op, seen, mending, free, out)?;
                let file = row.file();
                self.remember(file, made)?;
                Ok(())
            }
        }
    }

    /// A close of an instance. What it owes is committed first; a repeated close is answered as far as the first one came.
    pub fn on_close<D: Disk>(
        &mut self,
        frame: &SiteFrame,
        packs: &mut SitePacks,
        disk: &mut D,
        inst: Serial,
        out: &mut Outbox,
    ) -> Result<(), StoreFault>
        requires { Stand packs.old (D.moment disk.old) }
        ensures gives { OnOk result (Gives (on_close frame.now inst (store_of self.old packs.old (D.moment disk.old).seen)) (store_of self.new packs.new (D.moment disk.new).seen) out.old out.new) }
        ensures stands { OnOk result (Stand packs.new (D.moment disk.new)) }
        ensures places { OnOk result (SamePlaces packs.old packs.new) }
        ensures disk { Writes (on_close frame.now inst (store_of self.old packs.old (D.moment disk.old).seen)).written packs.old (D.moment disk.old) (D.moment disk.new) out.old out.new result }
        ensures unfit { result ≡ Err StoreFault.Unfit → CanCloseAt frame.now (groups_of packs.old) inst (store_of self.old packs.old (D.moment disk.old).seen) → ⊥ }
    {
        match self.index.place(serial_key(inst)) {
            None => Ok(()),
            Some(place) => {
                let row = &mut self.rows[place];
                let made = row.on_close(frame, packs, disk, out)?;
                let file = row.file();
                self.remember(file, made)?;
                Ok(())
            }
        }
    }

    /// The synchronization site has answered the close of an instance.
    pub fn on_closed_ok(
        &mut self,
        frame: &SiteFrame,
        inst: Serial,
        out: &mut Outbox,
    ) -> Result<(), NoMemory>
        ensures gives { OnOk result ((p : PacksState) (image : List ℕ) → Gives (on_closed_ok frame.now inst (store_of self.old p image)) (store_of self.new p image) out.old out.new) }
        ensures count { OnOk result (length self.new.instances ≡ length self.old.instances) }
    {
        match self.index.place(serial_key(inst)) {
            None => Ok(()),
            Some(place) => {
                let row = &mut self.rows[place];
                row.on_closed_ok(frame, out)?;
                let is_open = row.is_open();
                keep_open(&mut self.standing, place, is_open);
                Ok(())
            }
        }
    }

    /// The free pages of the group of an instance's file.
    pub(crate) fn free_at(&self, packs: &SitePacks, place: usize) -> u16
        requires { place < length self.now.instances }
        ensures { (image : List ℕ) (i : Instance) → AreShown packs.now.packs image → i ≡ slice_index_or self.now.instances place i → result ≡ free_pages (store_of self.now packs.now image) i.file.group }
    {
        let group = self.rows[place].file().group;
        self.free_pages(packs, group)
    }
}
