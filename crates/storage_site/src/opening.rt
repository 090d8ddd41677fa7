//! An open at the storage site that the synchronization site has chosen.

ghost use Rattle.std.specs.Prelude.{◌≡◌, ◌≢◌, ◌++◌, true, false, None, slice_get, Err, IfOk, OnOk};
ghost use Rattle.std.specs.List.{flat_map};
ghost use Rattle.std.specs.Option.{is_some};
ghost use Rattle.role_steps.specs.Tables.{row, with_latest};
ghost use Rattle.role_steps.specs.Views.{serial_key};
ghost use Rattle.role_steps.specs.Storage.{instance_key, is_open, on_open_ss, opened_packets, opens};
ghost use Rattle.store_instances.specs.of_site_packs.Packs.{Stand};
ghost use Rattle.store_instances.specs.Stores.{Gives, base_by, is_make, store_of};
ghost use Rattle.store_instances.specs.Writes.{Reads};
ghost use Rattle.storage_site.specs.Fitting.{CanOpen};
ghost use Rattle.storage_site.specs.Serving.{made_ino, no_inode_packets};
ghost use Rattle.storage_site.specs.Standing.{made_by};

use crate::Store;
use disk_model::Disk;
use keyed_tables::serial_key;
use locus_ids::{Bytes, FileId, ItemList, Mode, NoMemory, Refusal, SiteId, Stamp};
use operation_effects::WorkingContent;
use site_frame::SiteFrame;
use std::alloc::Global;
use store_instances::site_packs::SitePacks;
use store_instances::{StoreFault, StoreInstance, StoreRequest};
use wire_messages::{Body, OpenedAs, Outbox, ReportedCopy};

impl Store {
    /// An open. A repeated one is answered again while the instance is open, and begins no second one. `Unfit` comes only where
    /// the using site is no site, or a file is to be made in packs of another site than the frame's.
    pub fn on_open_ss<D: Disk>(
        &mut self,
        frame: &SiteFrame,
        packs: &SitePacks,
        disk: &mut D,
        asked: StoreRequest,
        out: &mut Outbox,
    ) -> Result<(), StoreFault>
        requires { Stand packs.now (D.moment disk.old) }
        ensures gives { OnOk result (Gives (on_open_ss frame.now asked (store_of self.old packs.now (D.moment disk.old).seen)) (store_of self.new packs.now (D.moment disk.new).seen) out.old out.new) }
        ensures stands { Stand packs.now (D.moment disk.new) }
        ensures disk { Reads (D.moment disk.old) (D.moment disk.new) result }
        ensures unfit { result ≡ Err StoreFault.Unfit → CanOpen frame.now packs.now.site asked → ⊥ }
    {
        match self.find(asked.inst) {
            Some(row) => {
                row.open_again(frame, out)?;
                Ok(())
            }
            None => {
                self.open_new(frame, packs, disk, asked, out)?;
                Ok(())
            }
        }
    }

    /// An open of an instance that isn't there.
    fn open_new<D: Disk>(
        &mut self,
        frame: &SiteFrame,
        packs: &SitePacks,
        disk: &mut D,
        asked: StoreRequest,
        out: &mut Outbox,
    ) -> Result<(), StoreFault>
        requires stands { Stand packs.now (D.moment disk.old) }
        requires absent { row instance_key (serial_key asked.inst) self.old.instances ≡ None }
        ensures gives { OnOk result (Gives (opens frame.now asked asked.mode (store_of self.old packs.now (D.moment disk.old).seen)) (store_of self.new packs.now (D.moment disk.new).seen) out.old out.new) }
        ensures stands { Stand packs.now (D.moment disk.new) }
        ensures disk { Reads (D.moment disk.old) (D.moment disk.new) result }
        ensures unfit { result ≡ Err StoreFault.Unfit → CanOpen frame.now packs.now.site asked → ⊥ }
    {
        let Some(us) = SiteId::new(asked.inst.us) else {
            return Err(StoreFault::Unfit);
        };
        if is_make(asked.mode) {
            return self.open_made(frame, packs, disk, us, asked, out);
        }
        self.open_copy(frame, packs, disk, us, asked, out)
    }

    /// Opens the copy of a file that there is, or none where the file is to be mended without one.
    fn open_copy<D: Disk>(
        &mut self,
        frame: &SiteFrame,
        packs: &SitePacks,
        disk: &mut D,
        us: SiteId,
        asked: StoreRequest,
        out: &mut Outbox,
    ) -> Result<(), StoreFault>
        requires stands { Stand packs.now (D.moment disk.old) }
        requires own { us ≡ asked.inst.us }
        requires absent { row instance_key (serial_key asked.inst) self.old.instances ≡ None }
        requires stays { is_make asked.mode ≡ false }
        ensures gives { OnOk result (Gives (opens frame.now asked asked.mode (store_of self.old packs.now (D.moment disk.old).seen)) (store_of self.new packs.now (D.moment disk.new).seen) out.old out.new) }
        ensures stands { Stand packs.now (D.moment disk.new) }
        ensures disk { Reads (D.moment disk.old) (D.moment disk.new) result }
        ensures fit { result ≢ Err StoreFault.Unfit }
    {
        let alloc = *self.rows.allocator();
        let file = asked.file;
        let head = packs.head(file);
        let base = base_of(asked.mode, head, asked.base);
        let mut bytes = Bytes::new(alloc);
        packs.read(disk, file, &mut bytes)?;
        let content = WorkingContent::from_slice(alloc, bytes.as_slice())?;
        let new = StoreInstance::begun(alloc, us, asked, file, base, content);
        self.begin(frame, new, out)?;
        Ok(())
    }

    /// Opens a file that is made, under the least number of this site that isn't used; where none is left, no instance begins.
    fn open_made<D: Disk>(
        &mut self,
        frame: &SiteFrame,
        packs: &SitePacks,
        disk: &mut D,
        us: SiteId,
        asked: StoreRequest,
        out: &mut Outbox,
    ) -> Result<(), StoreFault>
        requires stands { Stand packs.now (D.moment disk.old) }
        requires own { us ≡ asked.inst.us }
        requires absent { row instance_key (serial_key asked.inst) self.old.instances ≡ None }
        requires made { is_make asked.mode ≡ true }
        ensures gives { OnOk result (Gives (opens frame.now asked asked.mode (store_of self.old packs.now (D.moment disk.old).seen)) (store_of self.new packs.now (D.moment disk.new).seen) out.old out.new) }
        ensures stands { Stand packs.now (D.moment disk.new) }
        ensures disk { Reads (D.moment disk.old) (D.moment disk.new) result }
        ensures unfit { result ≡ Err StoreFault.Unfit → packs.now.site ≡ frame.now.me → ⊥ }
    {
        if !is_own(packs, frame) {
            return Err(StoreFault::Unfit);
        }
        let alloc = *self.rows.allocator();
        let group = asked.file.group;
        let making = self.making(group)?;
        match packs.next_ino(group, making.as_slice()) {
            None => {
                send_no_inode(frame, &asked, out)?;
                Ok(())
            }
            Some(ino) => {
                let file = FileId { group, ino };
                let content = WorkingContent::from_slice(alloc, &[])?;
                let new = StoreInstance::begun(alloc, us, asked, file, None, content);
                self.begin(frame, new, out)?;
                Ok(())
            }
        }
    }

    /// The inodes that open instances of the group make.
    fn making(&self, group: u8) -> Result<ItemList<u16>, NoMemory>
        ensures { IfOk result (λ making. making ≡ flat_map (made_ino group) self.now.instances) }
    {
        let alloc = *self.rows.allocator();
        let making = making_at(alloc, self.rows.as_slice(), self.standing.as_slice(), group)?;
        Ok(making)
    }

    /// One open instance more, which is answered.
    fn begin(
        &mut self,
        frame: &SiteFrame,
        new: StoreInstance,
        out: &mut Outbox,
    ) -> Result<(), NoMemory>
        requires absent { row instance_key (instance_key new) self.old.instances ≡ None }
        requires stands { is_open new.stage ≡ true }
        ensures row { OnOk result (self.new ≡ record self.old { instances = with_latest instance_key new self.old.instances }) }
        ensures packets { OnOk result (out.new.packets ≡ out.old.packets ++ opened_packets frame.now new) }
        ensures records { OnOk result (out.new.records ≡ out.old.records) }
    {
        new.send_opened(frame, out)?;
        self.push(new)?;
        Ok(())
    }
}

/// The packs are those of the frame's site.
fn is_own(packs: &SitePacks, frame: &SiteFrame) -> bool
    ensures own { result ≡ true → packs.now.site ≡ frame.now.me }
    ensures other { result ≡ false → packs.now.site ≡ frame.now.me → ⊥ }
{
    packs.site() == frame.me
}

/// Tells the synchronization site that no number is left.
fn send_no_inode(frame: &SiteFrame, asked: &StoreRequest, out: &mut Outbox) -> Result<(), NoMemory>
    ensures packets { OnOk result (out.new.packets ≡ out.old.packets ++ no_inode_packets frame.now asked.now) }
    ensures records { OnOk result (out.new.records ≡ out.old.records) }
{
    let why = Refusal::NoInode;
    let body = Body::Opened {
        inst: asked.inst,
        answer: OpenedAs::No { why },
    };
    frame.send_to_sync(asked.file.group, body, out)?;
    Ok(())
}

fn is_make(mode: Mode) -> bool
    ensures { result ≡ is_make mode }
{
    match mode {
        Mode::Read => false,
        Mode::Write => false,
        Mode::Resolve => false,
        Mode::Mend => false,
        Mode::Make => true,
    }
}

/// The version that an instance begins from, where the site has a copy of its file or none.
fn base_of(mode: Mode, head: Option<ReportedCopy>, base: Stamp) -> Option<Stamp>
    ensures { result ≡ base_by mode (is_some head) base }
{
    match mode {
        Mode::Make => None,
        Mode::Mend => match head {
            Some(_) => Some(base),
            None => None,
        },
        Mode::Read => Some(base),
        Mode::Write => Some(base),
        Mode::Resolve => Some(base),
    }
}

/// The inodes that the instances at these places make, where they are open ones of the group.
fn making_at(
    alloc: Global,
    rows: &[StoreInstance],
    standing: &[usize],
    group: u8,
) -> Result<ItemList<u16>, NoMemory>
    ensures { IfOk result (λ making. making ≡ flat_map (λ q. made_by group (slice_get rows.now q)) standing.now) }
{
    let mut making = ItemList::new(alloc);
    for place in standing {
        add_made(rows, *place, group, &mut making)?;
    }
    Ok(making)
}

fn add_made(
    rows: &[StoreInstance],
    place: usize,
    group: u8,
    making: &mut ItemList<u16>,
) -> Result<(), NoMemory>
    ensures { OnOk result (making.new ≡ making.old ++ made_by group (slice_get rows.now place)) }
{
    let Some(row) = rows.get(place) else {
        return Ok(());
    };
    if row.is_open() && row.file().group == group && is_make(row.mode()) {
        return making.push(row.file().ino);
    }
    Ok(())
}
