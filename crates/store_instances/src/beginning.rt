//! An instance that begins.

ghost use Rattle.std.specs.Prelude.{◌≡◌, ◌++◌, [], cond, OnOk};
ghost use Rattle.role_steps.specs.Storage.{is_open, opened_packets};
ghost use Rattle.store_instances.specs.Stores.{begun_with};

use crate::{StoreInstance, StoreRequest};
use locus_ids::{FileId, NoMemory, SiteId, Stamp};
use operation_effects::{OpenWork, WorkingContent};
use role_steps::Stage;
use site_frame::SiteFrame;
use std::alloc::Global;
use wire_messages::{Body, OpenedAs, Outbox};

impl StoreInstance {
    /// The instance that is asked for, as it begins: of this file, from this version with this content.
    pub fn begun(
        alloc: Global,
        us: SiteId,
        asked: StoreRequest,
        file: FileId,
        base: Option<Stamp>,
        content: WorkingContent,
    ) -> StoreInstance
        requires { us ≡ asked.inst.us }
        ensures { result ≡ begun_with asked file base content }
    {
        let size = content.len() as u32;
        StoreInstance {
            us,
            serial: asked.inst.serial,
            file,
            mode: asked.mode,
            set: asked.set,
            kind: asked.kind,
            vector: asked.vector,
            parents: asked.parents,
            size,
            work: OpenWork::begun(alloc, asked.mode, base, content),
            answered: None,
            stage: Stage::Running,
        }
    }

    /// A repeated open is answered again while the instance is open.
    pub fn open_again(&self, frame: &SiteFrame, out: &mut Outbox) -> Result<(), NoMemory>
        ensures packets { OnOk result (out.new.packets ≡ out.old.packets ++ cond (is_open self.now.stage) (opened_packets frame.now self.now) []) }
        ensures records { OnOk result (out.new.records ≡ out.old.records) }
    {
        if !self.is_open() {
            return Ok(());
        }
        self.send_opened(frame, out)?;
        Ok(())
    }

    /// Tells the synchronization site that the instance is open.
    pub fn send_opened(&self, frame: &SiteFrame, out: &mut Outbox) -> Result<(), NoMemory>
        ensures packets { OnOk result (out.new.packets ≡ out.old.packets ++ opened_packets frame.now self.now) }
        ensures records { OnOk result (out.new.records ≡ out.old.records) }
    {
        let answer = OpenedAs::Open {
            ino: self.file.ino,
            size: self.size,
        };
        let body = Body::Opened {
            inst: self.inst(),
            answer,
        };
        frame.send_to_sync(self.file.group, body, out)?;
        Ok(())
    }
}
