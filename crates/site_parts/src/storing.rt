// What comes to the storage site.
ghost use Rattle.std.specs.Prelude.{◌≡◌, ◌≢◌, None, Err, IfErr, OnOk};
ghost use Rattle.role_steps.specs.Operations.{on_op, on_read_held};
ghost use Rattle.role_steps.specs.Storage.{on_close, on_closed_ok, on_look_ss, on_open_ss, on_pull, on_want};
ghost use Rattle.site_packs.specs.Packs.{SamePlaces, Stand, groups_of};
ghost use Rattle.storage_site.specs.of_store_instances.Stores.{Gives, store_of};
ghost use Rattle.run_laws.specs.of_the_run.Steps.{from_user};
ghost use Rattle.storage_site.specs.Fitting.{CanCloseAt, CanOpen, CanOperateAt};
ghost use Rattle.site_parts.specs.Faults.{fault_of_reading};
ghost use Rattle.site_parts.specs.Fitting.{CanTakeAtStore};
ghost use Rattle.site_parts.specs.Roles.{mending_by, store_take};
ghost use Rattle.site_parts.specs.Writing.{EventWrites};
ghost use Rattle.site_parts.specs.declared.fault.NodeFault.TheVariants.{NoNumber, Unfit};

use crate::NodeFault;
use crate::mending::work_for;
use disk_model::Disk;
use keyed_tables::SortedTable;
use locus_ids::sizes::SITES;
use locus_ids::{FileId, Serial, SiteId, Stamp};
use operation_effects::MendingWork;
use site_frame::SiteFrame;
use site_mends::css_core::Css;
use site_mends::using_site::UsingSite;
use site_packs::SitePacks;
use std::alloc::Global;
use storage_site::{HeldRead, LookRequest, Store, StoreFault, StoreRequest};
use trace_book::Op;
use version_vector::Vector;
use wire_messages::{Body, Outbox};

/// Takes what a member sent, where it is for the storage site; else nothing happens. The tables and the using site tell what a mend
/// works on.
pub fn take_at_store<D: Disk>(
    alloc: Global,
    store: &mut Store,
    packs: &mut SitePacks,
    frame: &SiteFrame,
    tables: &SortedTable<Css>,
    users: &UsingSite,
    disk: &mut D,
    from: SiteId,
    body: Body,
    out: &mut Outbox,
) -> Result<(), NodeFault>
    requires { Stand packs.old (D.moment disk.old) }
    ensures gives { OnOk result (Gives (store_take frame.now (mending_by tables.now users.now (store_of store.old packs.old (D.moment disk.old).seen)) from body (store_of store.old packs.old (D.moment disk.old).seen)) (store_of store.new packs.new (D.moment disk.new).seen) out.old out.new) }
    ensures stands { OnOk result (Stand packs.new (D.moment disk.new)) }
    ensures places { OnOk result (SamePlaces packs.old packs.new) }
    ensures disk { EventWrites (store_take frame.now (mending_by tables.now users.now (store_of store.old packs.old (D.moment disk.old).seen)) from body (store_of store.old packs.old (D.moment disk.old).seen)).written packs.old (D.moment disk.old) (D.moment disk.new) out.old out.new result }
    ensures numbered { IfErr result (λ fault. fault ≢ NoNumber) }
    ensures unfit { result ≡ Err Unfit → CanTakeAtStore frame.now (mending_by tables.now users.now (store_of store.old packs.old (D.moment disk.old).seen)) tables.now (groups_of packs.old) packs.old.site from body (store_of store.old packs.old (D.moment disk.old).seen) → ⊥ }
{
    match body {
        Body::OpenSs {
            inst,
            file,
            mode,
            set,
            kind,
            base,
            vector,
            parents,
        } => {
            let asked = StoreRequest {
                inst,
                file,
                mode,
                set,
                kind,
                base,
                vector,
                parents,
            };
            take_open(store, packs, frame, disk, asked, out)
        }
        Body::Op {
            serial,
            number,
            op,
            seen,
        } => {
            let inst = named(from, serial);
            let work = work_for(alloc, store, tables, users, inst, &op)?;
            take_op(
                store, packs, frame, disk, inst, number, &op, &seen, &work, out,
            )
        }
        Body::ReadHeld {
            serial,
            number,
            at,
            len,
        } => {
            let read = HeldRead { number, at, len };
            take_read_held(store, packs, frame, disk, named(from, serial), read, out)
        }
        Body::Close { serial } => take_close(store, packs, frame, disk, named(from, serial), out),
        Body::ClosedOk { inst } => take_closed_ok(store, packs, frame, disk, inst, out),
        Body::LookSs {
            us,
            call,
            process,
            request,
            take,
            file,
            what,
            serve,
        } => {
            let look = LookRequest {
                call,
                process,
                request,
                take,
                file,
                what,
            };
            take_look(store, packs, frame, disk, us, &look, serve, out)
        }
        Body::Pull { file, stamp, page } => {
            take_pull(store, packs, frame, disk, from, file, stamp, page, out)
        }
        Body::Want { file, wanted, own } => {
            take_want(store, packs, frame, disk, from, file, wanted, own, out)
        }
        body => {
            ignored(body);
            Ok(())
        }
    }
}

/// An open.
fn take_open<D: Disk>(
    store: &mut Store,
    packs: &SitePacks,
    frame: &SiteFrame,
    disk: &mut D,
    asked: StoreRequest,
    out: &mut Outbox,
) -> Result<(), NodeFault>
    requires { Stand packs.now (D.moment disk.old) }
    ensures gives { OnOk result (Gives (on_open_ss frame.now asked (store_of store.old packs.now (D.moment disk.old).seen)) (store_of store.new packs.now (D.moment disk.new).seen) out.old out.new) }
    ensures stands { Stand packs.now (D.moment disk.new) }
    ensures disk { EventWrites None packs.now (D.moment disk.old) (D.moment disk.new) out.old out.new result }
    ensures numbered { IfErr result (λ fault. fault ≢ NoNumber) }
    ensures unfit { result ≡ Err Unfit → CanOpen frame.now packs.now.site asked → ⊥ }
{
    match store.on_open_ss(frame, packs, disk, asked, out) {
        Ok(()) => Ok(()),
        Err(fault) => Err(reading(fault)),
    }
}

/// A look at a file.
fn take_look<D: Disk>(
    store: &Store,
    packs: &SitePacks,
    frame: &SiteFrame,
    disk: &mut D,
    us: SiteId,
    look: &LookRequest,
    serve: Stamp,
    out: &mut Outbox,
) -> Result<(), NodeFault>
    requires { Stand packs.now (D.moment disk.old) }
    ensures gives { OnOk result (Gives (on_look_ss frame.now us look.now serve (store_of store.now packs.now (D.moment disk.old).seen)) (store_of store.now packs.now (D.moment disk.new).seen) out.old out.new) }
    ensures stands { Stand packs.now (D.moment disk.new) }
    ensures disk { EventWrites None packs.now (D.moment disk.old) (D.moment disk.new) out.old out.new result }
    ensures numbered { IfErr result (λ fault. fault ≢ NoNumber) }
    ensures fit { result ≢ Err Unfit }
{
    match store.on_look_ss(frame, packs, disk, us, look, serve, out) {
        Ok(()) => Ok(()),
        Err(fault) => Err(reading(fault)),
    }
}

/// A page is asked for.
fn take_pull<D: Disk>(
    store: &Store,
    packs: &SitePacks,
    frame: &SiteFrame,
    disk: &mut D,
    from: SiteId,
    file: FileId,
    stamp: Stamp,
    page: u8,
    out: &mut Outbox,
) -> Result<(), NodeFault>
    requires { Stand packs.now (D.moment disk.old) }
    ensures gives { OnOk result (Gives (on_pull frame.now from file stamp page (store_of store.now packs.now (D.moment disk.old).seen)) (store_of store.now packs.now (D.moment disk.new).seen) out.old out.new) }
    ensures stands { Stand packs.now (D.moment disk.new) }
    ensures disk { EventWrites None packs.now (D.moment disk.old) (D.moment disk.new) out.old out.new result }
    ensures numbered { IfErr result (λ fault. fault ≢ NoNumber) }
    ensures fit { result ≢ Err Unfit }
{
    match store.on_pull(frame, packs, disk, from, file, stamp, page, out) {
        Ok(()) => Ok(()),
        Err(fault) => Err(reading(fault)),
    }
}

/// The pages to pull of a version are asked for. Nothing is asked of the disk.
fn take_want<D: Disk>(
    store: &Store,
    packs: &SitePacks,
    frame: &SiteFrame,
    _disk: &mut D,
    from: SiteId,
    file: FileId,
    wanted: Stamp,
    own: Stamp,
    out: &mut Outbox,
) -> Result<(), NodeFault>
    requires { Stand packs.now (D.moment _disk.old) }
    ensures gives { OnOk result (Gives (on_want frame.now from file wanted own (store_of store.now packs.now (D.moment _disk.old).seen)) (store_of store.now packs.now (D.moment _disk.new).seen) out.old out.new) }
    ensures stands { Stand packs.now (D.moment _disk.new) }
    ensures disk { EventWrites None packs.now (D.moment _disk.old) (D.moment _disk.new) out.old out.new result }
    ensures numbered { IfErr result (λ fault. fault ≢ NoNumber) }
    ensures fit { result ≢ Err Unfit }
{
    store.on_want(frame, packs, from, file, wanted, own, out)?;
    Ok(())
}

/// A close of an instance. What it owes is committed first.
fn take_close<D: Disk>(
    store: &mut Store,
    packs: &mut SitePacks,
    frame: &SiteFrame,
    disk: &mut D,
    inst: Serial,
    out: &mut Outbox,
) -> Result<(), NodeFault>
    requires { Stand packs.old (D.moment disk.old) }
    ensures gives { OnOk result (Gives (on_close frame.now inst (store_of store.old packs.old (D.moment disk.old).seen)) (store_of store.new packs.new (D.moment disk.new).seen) out.old out.new) }
    ensures stands { OnOk result (Stand packs.new (D.moment disk.new)) }
    ensures places { OnOk result (SamePlaces packs.old packs.new) }
    ensures disk { EventWrites (on_close frame.now inst (store_of store.old packs.old (D.moment disk.old).seen)).written packs.old (D.moment disk.old) (D.moment disk.new) out.old out.new result }
    ensures numbered { IfErr result (λ fault. fault ≢ NoNumber) }
    ensures unfit { result ≡ Err Unfit → CanCloseAt frame.now (groups_of packs.old) inst (store_of store.old packs.old (D.moment disk.old).seen) → ⊥ }
{
    store.on_close(frame, packs, disk, inst, out)?;
    Ok(())
}

/// The synchronization site has answered the close of an instance. Nothing is asked of the disk.
fn take_closed_ok<D: Disk>(
    store: &mut Store,
    packs: &SitePacks,
    frame: &SiteFrame,
    _disk: &mut D,
    inst: Serial,
    out: &mut Outbox,
) -> Result<(), NodeFault>
    requires { Stand packs.now (D.moment _disk.old) }
    ensures gives { OnOk result (Gives (on_closed_ok frame.now inst (store_of store.old packs.now (D.moment _disk.old).seen)) (store_of store.new packs.now (D.moment _disk.new).seen) out.old out.new) }
    ensures stands { Stand packs.now (D.moment _disk.new) }
    ensures disk { EventWrites None packs.now (D.moment _disk.old) (D.moment _disk.new) out.old out.new result }
    ensures numbered { IfErr result (λ fault. fault ≢ NoNumber) }
    ensures fit { result ≢ Err Unfit }
{
    store.on_closed_ok(frame, inst, out)?;
    Ok(())
}

/// An operation on an instance, with what a mend works on.
fn take_op<D: Disk>(
    store: &mut Store,
    packs: &mut SitePacks,
    frame: &SiteFrame,
    disk: &mut D,
    inst: Serial,
    number: u32,
    op: &Op,
    seen: &Vector<SITES>,
    work: &MendingWork,
    out: &mut Outbox,
) -> Result<(), NodeFault>
    requires { Stand packs.old (D.moment disk.old) }
    ensures gives { OnOk result (Gives (on_op frame.now work.now inst number op.now seen.now (store_of store.old packs.old (D.moment disk.old).seen)) (store_of store.new packs.new (D.moment disk.new).seen) out.old out.new) }
    ensures stands { OnOk result (Stand packs.new (D.moment disk.new)) }
    ensures places { OnOk result (SamePlaces packs.old packs.new) }
    ensures disk { EventWrites (on_op frame.now work.now inst number op.now seen.now (store_of store.old packs.old (D.moment disk.old).seen)).written packs.old (D.moment disk.old) (D.moment disk.new) out.old out.new result }
    ensures numbered { IfErr result (λ fault. fault ≢ NoNumber) }
    ensures unfit { result ≡ Err Unfit → CanOperateAt frame.now work.now (groups_of packs.old) inst number op.now (store_of store.old packs.old (D.moment disk.old).seen) → ⊥ }
{
    store.on_op(frame, packs, disk, inst, number, op, seen, work, out)?;
    Ok(())
}

/// A read whose asker has the bytes. Nothing is asked of the disk.
fn take_read_held<D: Disk>(
    store: &mut Store,
    packs: &SitePacks,
    frame: &SiteFrame,
    _disk: &mut D,
    inst: Serial,
    read: HeldRead,
    out: &mut Outbox,
) -> Result<(), NodeFault>
    requires { Stand packs.now (D.moment _disk.old) }
    ensures gives { OnOk result (Gives (on_read_held frame.now inst read.number read.at read.len (store_of store.old packs.now (D.moment _disk.old).seen)) (store_of store.new packs.now (D.moment _disk.new).seen) out.old out.new) }
    ensures stands { Stand packs.now (D.moment _disk.new) }
    ensures disk { EventWrites None packs.now (D.moment _disk.old) (D.moment _disk.new) out.old out.new result }
    ensures numbered { IfErr result (λ fault. fault ≢ NoNumber) }
    ensures fit { result ≢ Err Unfit }
{
    store.on_read_held(frame, packs, inst, read, out)?;
    Ok(())
}

/// What is for another role.
fn ignored(_body: Body) {}

/// The fault of a call that only reads: no write is cut off in it.
fn reading(fault: StoreFault) -> NodeFault
    ensures { result ≡ fault_of_reading fault }
{
    match fault {
        StoreFault::Disk => NodeFault::Disk,
        StoreFault::Cut(_) => NodeFault::Disk,
        StoreFault::Unfit => NodeFault::Unfit,
        StoreFault::NoMemory => NodeFault::NoMemory,
    }
}

/// The instance of this number that the using site named.
fn named(us: SiteId, serial: u32) -> Serial
    ensures { result ≡ from_user us serial }
{
    Serial {
        us: us.get(),
        serial,
    }
}
