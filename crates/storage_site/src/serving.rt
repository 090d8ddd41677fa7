//! Looks and pulls: what the copies on the disk show to other sites.

ghost use Rattle.std.specs.Prelude.{◌≡◌, ◌≢◌, ◌<◌, ◌^◌, ◌++◌, ◌∷◌, [], ℕ, List, length, Err, IfOk, OnOk};
ghost use Rattle.commit_graph.specs.Versions.{same_stamp};
ghost use Rattle.wire_messages.specs.declared.body.Body.TheVariants as Body;
ghost use Rattle.role_steps.specs.Views.{packet};
ghost use Rattle.role_steps.specs.Storage.{look_found, on_look_ss, on_pull, served_content, served_copy};
ghost use Rattle.store_instances.specs.of_site_packs.Packs.{Stand, copy_at};
ghost use Rattle.store_instances.specs.Stores.{Gives, store_of};
ghost use Rattle.store_instances.specs.Writes.{Reads};
ghost use Rattle.storage_site.specs.Serving.{head_page};

use crate::{LookRequest, Store};
use dir_format::LookResult;
use dir_operations::{dir_in, lookup};
use disk_model::Disk;
use file_content::pages_of;
use locus_ids::{Bytes, FileId, NoMemory, Refusal, SiteId, Stamp};
use site_frame::SiteFrame;
use std::alloc::Global;
use store_instances::StoreFault;
use store_instances::site_packs::SitePacks;
use trace_book::What;
use wire_messages::{Body, LookAnswer, Outbox, ReportedCopy};

impl Store {
    /// A look of a using site, which the synchronization site has handed on: it is served from this version and no other.
    pub fn on_look_ss<D: Disk>(
        &self,
        frame: &SiteFrame,
        packs: &SitePacks,
        disk: &mut D,
        us: SiteId,
        look: &LookRequest,
        serve: Stamp,
        out: &mut Outbox,
    ) -> Result<(), StoreFault>
        requires { Stand packs.now (D.moment disk.old) }
        ensures gives { OnOk result (Gives (on_look_ss frame.now us look.now serve (store_of self.now packs.now (D.moment disk.old).seen)) (store_of self.now packs.now (D.moment disk.new).seen) out.old out.new) }
        ensures stands { Stand packs.now (D.moment disk.new) }
        ensures disk { Reads (D.moment disk.old) (D.moment disk.new) result }
        ensures fit { result ≢ Err StoreFault.Unfit }
    {
        let alloc = *self.rows.allocator();
        let answer = served_copy(alloc, packs, disk, look.file, &look.what, serve)?;
        send_look(frame, us, look, answer, out)?;
        Ok(())
    }

    /// A pull of a page, from 0, of a version. It is answered exactly where that version is committed here and has the page.
    pub fn on_pull<D: Disk>(
        &self,
        frame: &SiteFrame,
        packs: &SitePacks,
        disk: &mut D,
        from: SiteId,
        file: FileId,
        stamp: Stamp,
        page: u8,
        out: &mut Outbox,
    ) -> Result<(), StoreFault>
        requires { Stand packs.now (D.moment disk.old) }
        ensures gives { OnOk result (Gives (on_pull frame.now from file stamp page (store_of self.now packs.now (D.moment disk.old).seen)) (store_of self.now packs.now (D.moment disk.new).seen) out.old out.new) }
        ensures stands { Stand packs.now (D.moment disk.new) }
        ensures disk { Reads (D.moment disk.old) (D.moment disk.new) result }
        ensures fit { result ≢ Err StoreFault.Unfit }
    {
        let alloc = *self.rows.allocator();
        if !has_page(packs.head(file), stamp, page) {
            return Ok(());
        }
        let bytes = packs.read_page(alloc, disk, file, u16::from(page))?;
        send_page(frame, from, file, stamp, page, bytes, out)?;
        Ok(())
    }
}

fn send_look(
    frame: &SiteFrame,
    us: SiteId,
    look: &LookRequest,
    answer: LookAnswer,
    out: &mut Outbox,
) -> Result<(), NoMemory>
    ensures packets { OnOk result (out.new.packets ≡ out.old.packets ++ packet frame.now us (Body.LookDone look.now.call look.now.request look.now.take answer) ∷ []) }
    ensures records { OnOk result (out.new.records ≡ out.old.records) }
{
    let body = Body::LookDone {
        call: look.call,
        request: look.request,
        take: look.take,
        answer,
    };
    out.send(frame.packet(us, body))
}

fn send_page(
    frame: &SiteFrame,
    to: SiteId,
    file: FileId,
    stamp: Stamp,
    page: u8,
    bytes: Bytes,
    out: &mut Outbox,
) -> Result<(), NoMemory>
    ensures packets { OnOk result (out.new.packets ≡ out.old.packets ++ packet frame.now to (Body.Page file stamp page bytes) ∷ []) }
    ensures records { OnOk result (out.new.records ≡ out.old.records) }
{
    let body = Body::Page {
        file,
        stamp,
        page,
        bytes,
    };
    out.send(frame.packet(to, body))
}

/// The copy is of this version, and has this page.
fn has_page(copy: Option<ReportedCopy>, stamp: Stamp, page: u8) -> bool
    ensures { result ≡ head_page stamp page copy }
{
    match copy {
        None => false,
        Some(copy) => {
            same_stamp(copy.stamp, stamp) && usize::from(page) < pages_of(copy.size as usize)
        }
    }
}

/// Two stamps name one version of a file.
pub(crate) fn same_stamp(a: Stamp, b: Stamp) -> bool
    ensures { result ≡ same_stamp a b }
{
    a.site == b.site && a.n == b.n
}

/// What the copy of a file answers where it is this version.
fn served_copy<D: Disk>(
    alloc: Global,
    packs: &SitePacks,
    disk: &mut D,
    file: FileId,
    what: &What,
    stamp: Stamp,
) -> Result<LookAnswer, StoreFault>
    requires { Stand packs.now (D.moment disk.old) }
    ensures answer { IfOk result (λ a. a ≡ served_copy what.now stamp (copy_at packs.now (D.moment disk.old).seen file)) }
    ensures stands { Stand packs.now (D.moment disk.new) }
    ensures disk { Reads (D.moment disk.old) (D.moment disk.new) result }
    ensures fit { result ≢ Err StoreFault.Unfit }
{
    let Some(copy) = packs.head(file) else {
        return Ok(LookAnswer::Moved);
    };
    if !same_stamp(copy.stamp, stamp) {
        return Ok(LookAnswer::Moved);
    }
    let mut content = Bytes::new(alloc);
    packs.read(disk, file, &mut content)?;
    let answer = served_content(alloc, what, content)?;
    Ok(answer)
}

fn served_content(alloc: Global, what: &What, content: Bytes) -> Result<LookAnswer, NoMemory>
    requires { length content < 2 ^ 32 }
    ensures { IfOk result (λ a. a ≡ served_content what.now content) }
{
    match what {
        What::Name { component } => {
            let d = dir_in(alloc, content.as_slice())?;
            look_found(component, lookup(&d, component.as_slice()))
        }
        What::List => Ok(LookAnswer::Content { bytes: content }),
        What::Stat => Ok(LookAnswer::Content { bytes: content }),
        What::Whole { stamp: _ } => Ok(LookAnswer::Content { bytes: content }),
    }
}

fn look_found(component: &Bytes, found: LookResult) -> Result<LookAnswer, NoMemory>
    ensures { IfOk result (λ a. a ≡ look_found component.now found) }
{
    match found {
        LookResult::Found { ino, kind } => Ok(LookAnswer::Found {
            ino: ino.get(),
            kind,
        }),
        LookResult::Absent => {
            let name = component.copy()?;
            Ok(LookAnswer::No {
                why: Refusal::Absent { name },
            })
        }
        LookResult::Ambiguous { a, b } => Ok(LookAnswer::No {
            why: Refusal::Ambiguous {
                a: a.get(),
                b: b.get(),
            },
        }),
    }
}
