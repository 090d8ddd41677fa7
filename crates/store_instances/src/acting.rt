//! What is told and answered of an operation.

ghost use Rattle.std.specs.Prelude.{◌≡◌, ◌++◌, ◌∷◌, [], Some, OnOk};
ghost use Rattle.trace_book.specs.declared.record.Record.TheVariants as Record;
ghost use Rattle.role_steps.specs.Storage.{instance_key};
ghost use Rattle.role_steps.specs.Operations.{op_again, op_done};

use crate::StoreInstance;
use locus_ids::NoMemory;
use site_frame::SiteFrame;
use trace_book::{Op, Outcome, Record};
use wire_messages::{Body, Outbox};

impl StoreInstance {
    /// The operation with the number that it has now gave this: it is answered so, and told.
    pub(crate) fn act(
        &mut self,
        frame: &SiteFrame,
        op: &Op,
        gave: Outcome,
        out: &mut Outbox,
    ) -> Result<(), NoMemory>
        ensures row { OnOk result (self.new ≡ record self.old { answered = Some gave }) }
        ensures packets { OnOk result (out.new.packets ≡ out.old.packets ++ op_done frame.now self.old self.old.work.ops gave) }
        ensures records { OnOk result (out.new.records ≡ out.old.records ++ Record.Act frame.now.epoch self.old.inst self.old.work.ops op.now gave ∷ []) }
        ensures key { instance_key self.new ≡ instance_key self.old }
        ensures stage { self.new.stage ≡ self.old.stage }
    {
        let n = self.work.ops;
        self.answer(frame, n, &gave, out)?;
        self.tell(frame, op, gave, out)
    }

    /// The operation with the number that it has now is told, and what it gave is kept for a repeated question.
    pub(crate) fn tell(
        &mut self,
        frame: &SiteFrame,
        op: &Op,
        gave: Outcome,
        out: &mut Outbox,
    ) -> Result<(), NoMemory>
        ensures row { OnOk result (self.new ≡ record self.old { answered = Some gave }) }
        ensures packets { OnOk result (out.new.packets ≡ out.old.packets) }
        ensures records { OnOk result (out.new.records ≡ out.old.records ++ Record.Act frame.now.epoch self.old.inst self.old.work.ops op.now gave ∷ []) }
        ensures key { instance_key self.new ≡ instance_key self.old }
        ensures stage { self.new.stage ≡ self.old.stage }
    {
        let n = self.work.ops;
        self.tell_act(frame, n, op, &gave, out)?;
        self.answered = Some(gave);
        Ok(())
    }

    /// Tells what an operation gave.
    fn tell_act(
        &self,
        frame: &SiteFrame,
        n: u32,
        op: &Op,
        gave: &Outcome,
        out: &mut Outbox,
    ) -> Result<(), NoMemory>
        ensures packets { OnOk result (out.new.packets ≡ out.old.packets) }
        ensures records { OnOk result (out.new.records ≡ out.old.records ++ Record.Act frame.now.epoch self.now.inst n op.now gave.now ∷ []) }
    {
        let op = op.copy()?;
        out.note(Record::Act {
            epoch: frame.epoch,
            inst: self.inst(),
            n,
            op,
            result: gave.copy()?,
        })
    }

    /// Sends what an operation gave.
    pub(crate) fn answer(
        &self,
        frame: &SiteFrame,
        n: u32,
        gave: &Outcome,
        out: &mut Outbox,
    ) -> Result<(), NoMemory>
        ensures packets { OnOk result (out.new.packets ≡ out.old.packets ++ op_done frame.now self.now n gave.now) }
        ensures records { OnOk result (out.new.records ≡ out.old.records) }
    {
        let body = Body::OpDone {
            serial: self.serial,
            number: n,
            outcome: gave.copy()?,
        };
        out.send(frame.packet(self.us, body))
    }

    /// Answers the operation that was done last once more.
    pub(crate) fn answer_again(
        &self,
        frame: &SiteFrame,
        n: u32,
        out: &mut Outbox,
    ) -> Result<(), NoMemory>
        ensures packets { OnOk result (out.new.packets ≡ out.old.packets ++ op_again frame.now self.now n self.now.answered) }
        ensures records { OnOk result (out.new.records ≡ out.old.records) }
    {
        match &self.answered {
            None => Ok(()),
            Some(gave) => self.answer(frame, n, gave, out),
        }
    }
}
