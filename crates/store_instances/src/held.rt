//! Reads whose asker has the bytes: of an instance that was opened to read, which is of one version, their number alone is sent.

ghost use Rattle.std.specs.Prelude.{◌≡◌, ◌<◌, ◌++◌, ◌∷◌, [], ℕ, List, None, Some, OnOk};
ghost use Rattle.role_steps.specs.of_commit_graph.Grants.{is_read};
ghost use Rattle.role_steps.specs.of_dir_format.Entries.{nothing_seen};
ghost use Rattle.role_steps.specs.Views.{packet};
ghost use Rattle.role_steps.specs.Storage.{free_pages, instance_key};
ghost use Rattle.role_steps.specs.Operations.{executes_effect, in_form, nothing_to_mend, on_op_at, op_again, op_done, sent_in_form};
ghost use Rattle.role_steps.specs.OperationEffects.{effect_of};
ghost use Rattle.trace_book.specs.declared.operation.Op.TheVariants as Op;
ghost use Rattle.trace_book.specs.declared.record.Record.TheVariants as Record;
ghost use Rattle.wire_messages.specs.declared.body.Body.TheVariants as Body;
ghost use Rattle.site_packs.specs.Packs.{PacksState};
ghost use Rattle.store_instances.specs.Stores.{IsRow, RowGives, StoreState, store_of};

use crate::StoreInstance;
use crate::pages::short_number;
use instance_choices::is_next;
use locus_ids::{Mode, NoMemory};
use site_frame::SiteFrame;
use trace_book::{Op, Outcome};
use wire_messages::{Body, Outbox};

/// A read whose asker has the bytes: the number of the operation, and what is read.
#[derive(Clone, Copy)]
pub struct HeldRead {
    pub number: u32,
    pub at: u32,
    pub len: u16,
}

impl StoreInstance {
    /// A read whose asker has the bytes. It is executed and told as any read is.
    pub fn on_read_held(
        &mut self,
        frame: &SiteFrame,
        read: HeldRead,
        free: u16,
        out: &mut Outbox,
    ) -> Result<(), NoMemory>
        ensures gives { OnOk result ((r : StoreState) (p : PacksState) (image : List ℕ) → IsRow self.old r.instances → free_pages (store_of r p image) self.old.file.group ≡ free → RowGives (in_form (Some self.old) (on_op_at frame.now nothing_to_mend self.old self.old.stage read.number (Op.Read read.at read.len) nothing_seen (store_of r p image))) r None self.new p image out.old out.new) }
        ensures key { instance_key self.new ≡ instance_key self.old }
        ensures stage { self.new.stage ≡ self.old.stage }
    {
        if !self.is_running() {
            return Ok(());
        }
        let done = self.done();
        if read.number == done {
            self.answer_held_again(frame, read.number, out)?;
            return Ok(());
        }
        if !is_next(read.number, done) {
            return Ok(());
        }
        self.execute_held(frame, read, free, out)?;
        Ok(())
    }

    fn execute_held(
        &mut self,
        frame: &SiteFrame,
        read: HeldRead,
        free: u16,
        out: &mut Outbox,
    ) -> Result<(), NoMemory>
        requires { self.old.work.ops < 4294967295 }
        ensures gives { OnOk result ((r : StoreState) (p : PacksState) (image : List ℕ) → IsRow self.old r.instances → free_pages (store_of r p image) self.old.file.group ≡ free → RowGives (in_form (Some self.old) (executes_effect frame.now self.old (Op.Read read.at read.len) (effect_of (Op.Read read.at read.len) nothing_seen nothing_to_mend self.old.work.content) (store_of r p image))) r None self.new p image out.old out.new) }
        ensures key { instance_key self.new ≡ instance_key self.old }
        ensures stage { self.new.stage ≡ self.old.stage }
    {
        match operation_effects::read(&mut self.work, read.at, read.len, free)? {
            None => Ok(()),
            Some(gave) => {
                let op = Op::Read {
                    at: read.at,
                    len: read.len,
                };
                self.act_held(frame, &op, gave, out)?;
                Ok(())
            }
        }
    }

    /// The read with the number that it has now gave this: it is answered so, without the bytes where they are at hand, and told.
    fn act_held(
        &mut self,
        frame: &SiteFrame,
        op: &Op,
        gave: Outcome,
        out: &mut Outbox,
    ) -> Result<(), NoMemory>
        ensures row { OnOk result (self.new ≡ record self.old { answered = Some gave }) }
        ensures packets { OnOk result (out.new.packets ≡ out.old.packets ++ sent_in_form self.old (op_done frame.now self.old self.old.work.ops gave)) }
        ensures records { OnOk result (out.new.records ≡ out.old.records ++ Record.Act frame.now.epoch self.old.inst self.old.work.ops op.now gave ∷ []) }
        ensures key { instance_key self.new ≡ instance_key self.old }
        ensures stage { self.new.stage ≡ self.old.stage }
    {
        let n = self.work.ops;
        self.answer_held(frame, n, &gave, out)?;
        self.tell(frame, op, gave, out)
    }

    /// Sends what a read gave, without the bytes where the instance was opened to read.
    fn answer_held(
        &self,
        frame: &SiteFrame,
        n: u32,
        gave: &Outcome,
        out: &mut Outbox,
    ) -> Result<(), NoMemory>
        ensures packets { OnOk result (out.new.packets ≡ out.old.packets ++ sent_in_form self.now (op_done frame.now self.now n gave.now)) }
        ensures records { OnOk result (out.new.records ≡ out.old.records) }
    {
        if !is_read(self.mode) {
            self.answer(frame, n, gave, out)?;
            return Ok(());
        }
        match gave {
            Outcome::Data { bytes } => {
                let len = short_number(bytes.len())?;
                self.answer_number(frame, n, len, out)?;
                Ok(())
            }
            _ => {
                self.answer(frame, n, gave, out)?;
                Ok(())
            }
        }
    }

    /// Sends that a read gave so many bytes.
    fn answer_number(
        &self,
        frame: &SiteFrame,
        n: u32,
        len: u16,
        out: &mut Outbox,
    ) -> Result<(), NoMemory>
        ensures packets { OnOk result (out.new.packets ≡ out.old.packets ++ packet frame.now self.now.inst.us (Body.AsHeld self.now.inst.serial n len) ∷ []) }
        ensures records { OnOk result (out.new.records ≡ out.old.records) }
    {
        let body = Body::AsHeld {
            serial: self.serial,
            number: n,
            len,
        };
        out.send(frame.packet(self.us, body))
    }

    /// Answers the operation that was done last once more, in this form.
    fn answer_held_again(&self, frame: &SiteFrame, n: u32, out: &mut Outbox) -> Result<(), NoMemory>
        ensures packets { OnOk result (out.new.packets ≡ out.old.packets ++ sent_in_form self.now (op_again frame.now self.now n self.now.answered)) }
        ensures records { OnOk result (out.new.records ≡ out.old.records) }
    {
        match &self.answered {
            None => Ok(()),
            Some(gave) => {
                self.answer_held(frame, n, gave, out)?;
                Ok(())
            }
        }
    }
}

fn is_read(mode: Mode) -> bool
    ensures { result ≡ is_read mode }
{
    matches!(mode, Mode::Read)
}
