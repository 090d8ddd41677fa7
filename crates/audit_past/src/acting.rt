ghost use Rattle.std.specs.Prelude.{◌≡◌, ◌≤◌, ℕ, length, filter, OnOk, IfOk};
ghost use Rattle.std.specs.List.{find};
ghost use Rattle.std.specs.Option.{option_and_then, option_map};
ghost use Rattle.locus_ids.specs.declared.config.Config.{Config};
ghost use Rattle.trace_book.specs.declared.record.Record.TheVariants as rec;
ghost use Rattle.promises.specs.Past.{Epoch, Past, is_named};
ghost use Rattle.promises.specs.Tree.{work_after};
ghost use Rattle.promises.specs.After.{after, close_answer, is_epoch, is_id};
ghost use Rattle.audit_epochs.specs.Places.{work_of};
ghost use Rattle.audit_past.specs.Writing.{IsActor, IsEnder, IsOpen, handed_out};

use crate::{LastSeen, Told};
use audit_acts::audit_tree::{close_answer, outcome_answer};
use call_rules::Answer;
use locus_ids::{CallId, EpochId, FileId, NoMemory, Serial, Stamp};
use operation_effects::OpenWork;
use trace_book::{Op, Outcome};

impl Told {
    /// Hands out what has become of an open instance, so that an operation can change it in place.
    pub fn take_work(&mut self, epoch: EpochId, inst: Serial) -> Result<Option<OpenWork>, NoMemory>
        ensures work { IfOk result (λ work. work ≡ work_of inst (find (is_epoch epoch) self.old.epochs)) }
        ensures left { OnOk result (self.new ≡ handed_out epoch inst self.old) }
    {
        self.epochs.take_work(epoch, inst)
    }

    /// The instance whose work was handed out has done an operation, which was a step of this call and leaves this of it.
    pub fn acted(
        &mut self,
        epoch: EpochId,
        inst: Serial,
        done: (&Op, &Outcome),
        work: OpenWork,
        actor: CallId,
    ) -> Result<(), NoMemory>
        requires once { length (filter (is_id actor) self.old.calls) ≤ 1 }
        ensures { (c : Config) (p : Past) (n : ℕ) (it : IsOpen p epoch inst) → self.old ≡ handed_out epoch inst p → IsActor p epoch inst n actor → work ≡ work_after p it.epoch done.entry.0.now done.entry.1.now it.instance → OnOk result (self.new ≡ after c (rec.Act epoch inst n done.entry.0.now done.entry.1.now) p) }
    {
        let (op, outcome) = done;
        let answer = outcome_answer(outcome)?;
        self.epochs.act(epoch, inst, op, outcome, work)?;
        self.calls.answer(actor, answer)?;
        self.seen = LastSeen::Another;
        Ok(())
    }

    /// An open instance is released, which is a step of this call.
    pub fn released(
        &mut self,
        epoch: EpochId,
        inst: Serial,
        file: FileId,
        stamp: Option<Stamp>,
        ender: CallId,
    ) -> Result<(), NoMemory>
        requires stands { IsOpen self.old epoch inst }
        requires step { IsEnder self.old epoch inst ender }
        ensures { (c : Config) → OnOk result (self.new ≡ after c (rec.Release epoch inst file stamp) self.old) }
    {
        let Some(answer) = self.close_answer(epoch, inst, stamp) else {
            return Err(NoMemory);
        };
        self.calls.answer(ender, answer)?;
        self.epochs.release(epoch, inst, file, stamp)?;
        self.seen = LastSeen::Another;
        Ok(())
    }

    /// What the close of an open instance is answered.
    fn close_answer(&self, epoch: EpochId, inst: Serial, stamp: Option<Stamp>) -> Option<Answer>
        ensures { result ≡ option_and_then (λ (t : Epoch). option_map (close_answer stamp) (find (is_named inst) t.opened)) (find (is_epoch epoch) self.now.epochs) }
    {
        match self.epochs.find(epoch) {
            Some(row) => match row.opened().named(inst) {
                Some(instance) => Some(close_answer(stamp, instance.work())),
                None => None,
            },
            None => None,
        }
    }
}
