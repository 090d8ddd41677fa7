//! Numbered operations at one instance: each number is executed once.

ghost use Rattle.std.specs.Prelude.{◌≡◌, ◌≢◌, ◌<◌, ◌+◌, ◌++◌, ◌∷◌, [], ℕ, List, None, IfOk, OnOk, Some, Ok, Err};
ghost use Rattle.role_steps.specs.Views.{Store};
ghost use Rattle.role_steps.specs.Storage.{free_pages, instance_key, next_stamp, next_vector};
ghost use Rattle.trace_book.specs.declared.record.Record.TheVariants as Record;
ghost use Rattle.role_steps.specs.Operations.{abort_op, commit_op, executes_effect, last_committed, on_op_at, op_done};
ghost use Rattle.role_steps.specs.OperationEffects.{effect_of};
ghost use Rattle.file_effects.specs.Works.{counted};
ghost use Rattle.site_packs.specs.Copies.{copies_on};
ghost use Rattle.site_packs.specs.Packs.{PacksState, SamePlaces, Stand, groups_of};
ghost use Rattle.store_instances.specs.Stores.{IsRow, RowGives, StoreState, commits_and_acts, store_of};
ghost use Rattle.operation_effects.specs.Joinable.{CanWorkOn};
ghost use Rattle.store_instances.specs.Fitting.{CanCommit, CanOperate, CanStore};
ghost use Rattle.store_instances.specs.Writes.{Writes, disk_answer, write_as};

use crate::{StoreFault, StoreInstance};
use disk_model::Disk;
use instance_choices::{OpTurn, turn_of};
use locus_ids::sizes::SITES;
use locus_ids::{Bytes, NoMemory, Refusal};
use operation_effects::{MendingWork, operate};
use role_steps::Step;
use site_frame::SiteFrame;
use site_packs::SitePacks;
use trace_book::{Op, Outcome};
use version_vector::Vector;
use wire_messages::Outbox;

impl StoreInstance {
    /// An operation of this number, where so many pages are free. The last number is answered again, and any that is neither
    /// that nor the next is ignored. What it committed, if anything, is the answer.
    pub fn on_op<D: Disk>(
        &mut self,
        frame: &SiteFrame,
        packs: &mut SitePacks,
        disk: &mut D,
        n: u32,
        op: &Op,
        seen: &Vector<SITES>,
        mending: &MendingWork,
        free: u16,
        out: &mut Outbox,
    ) -> Result<Option<Step>, StoreFault>
        requires { Stand packs.old (D.moment disk.old) }
        ensures gives { IfOk result (λ made. (r : StoreState) → IsRow self.old r.instances → free_pages (store_of r packs.old (D.moment disk.old).seen) self.old.file.group ≡ free → RowGives (on_op_at frame.now mending.now self.old self.old.stage n op.now seen.now (store_of r packs.old (D.moment disk.old).seen)) r made self.new packs.new (D.moment disk.new).seen out.old out.new) }
        ensures key { instance_key self.new ≡ instance_key self.old }
        ensures stage { self.new.stage ≡ self.old.stage }
        ensures stands { OnOk result (Stand packs.new (D.moment disk.new)) }
        ensures places { OnOk result (SamePlaces packs.old packs.new) }
        ensures disk { (s : Store) → Writes (on_op_at frame.now mending.now self.old self.old.stage n op.now seen.now s).written packs.old (D.moment disk.old) (D.moment disk.new) out.old out.new result }
        ensures unfit { result ≡ Err StoreFault.Unfit → CanOperate frame.now mending.now (groups_of packs.old) (copies_on (groups_of packs.old) (D.moment disk.old).seen) self.old self.old.stage n op.now → ⊥ }
    {
        if !self.is_running() {
            return Ok(None);
        }
        match turn_of(self.done(), n, op) {
            OpTurn::Again => {
                self.answer_again(frame, n, out)?;
                Ok(None)
            }
            OpTurn::Ignored => Ok(None),
            OpTurn::Commits => {
                let made = self.commit_op(frame, packs, disk, out)?;
                Ok(made)
            }
            OpTurn::Aborts => {
                self.abort_op(frame, packs, disk, out)?;
                Ok(None)
            }
            OpTurn::Works => {
                self.execute(frame, op, seen, mending, free, out)?;
                Ok(None)
            }
        }
    }

    /// An operation on the content.
    fn execute(
        &mut self,
        frame: &SiteFrame,
        op: &Op,
        seen: &Vector<SITES>,
        mending: &MendingWork,
        free: u16,
        out: &mut Outbox,
    ) -> Result<(), StoreFault>
        requires { self.old.work.ops < 4294967295 }
        ensures gives { OnOk result ((r : StoreState) (p : PacksState) (image : List ℕ) → IsRow self.old r.instances → free_pages (store_of r p image) self.old.file.group ≡ free → RowGives (executes_effect frame.now self.old op.now (effect_of op.now seen.now mending.now self.old.work.content) (store_of r p image)) r None self.new p image out.old out.new) }
        ensures disk { disk_answer result ≡ Ok tt }
        ensures unfit { result ≡ Err StoreFault.Unfit → CanWorkOn op.now mending.now.contents → ⊥ }
        ensures key { instance_key self.new ≡ instance_key self.old }
        ensures stage { self.new.stage ≡ self.old.stage }
    {
        match operate(&mut self.work, op, seen, mending, free)? {
            None => Ok(()),
            Some(gave) => {
                self.act(frame, op, gave, out)?;
                Ok(())
            }
        }
    }

    /// What is owed is committed first.
    fn commit_op<D: Disk>(
        &mut self,
        frame: &SiteFrame,
        packs: &mut SitePacks,
        disk: &mut D,
        out: &mut Outbox,
    ) -> Result<Option<Step>, StoreFault>
        requires stands { Stand packs.old (D.moment disk.old) }
        requires few { self.old.work.ops < 4294967295 }
        ensures gives { IfOk result (λ made. (r : StoreState) → IsRow self.old r.instances → RowGives (commit_op frame.now self.old (store_of r packs.old (D.moment disk.old).seen)) r made self.new packs.new (D.moment disk.new).seen out.old out.new) }
        ensures key { instance_key self.new ≡ instance_key self.old }
        ensures stage { self.new.stage ≡ self.old.stage }
        ensures stands { OnOk result (Stand packs.new (D.moment disk.new)) }
        ensures places { OnOk result (SamePlaces packs.old packs.new) }
        ensures disk { (s : Store) → Writes (commit_op frame.now self.old s).written packs.old (D.moment disk.old) (D.moment disk.new) out.old out.new result }
        ensures unfit { result ≡ Err StoreFault.Unfit → CanCommit frame.now (groups_of packs.old) (copies_on (groups_of packs.old) (D.moment disk.old).seen) self.old → ⊥ }
    {
        if !self.owes() {
            self.last_committed(frame, out)?;
            return Ok(None);
        }
        match self.next_vector(frame) {
            None => {
                let why = Refusal::Spent;
                self.act_counted(frame, &Op::Commit, Outcome::No { why }, out)?;
                Ok(None)
            }
            Some(vector) => {
                let made = self.commit_owed(frame, packs, disk, &vector, out)?;
                Ok(made)
            }
        }
    }

    /// The version of this vector is committed, and the commit answered.
    fn commit_owed<D: Disk>(
        &mut self,
        frame: &SiteFrame,
        packs: &mut SitePacks,
        disk: &mut D,
        vector: &Vector<SITES>,
        out: &mut Outbox,
    ) -> Result<Option<Step>, StoreFault>
        requires stands { Stand packs.old (D.moment disk.old) }
        requires few { self.old.work.ops < 4294967295 }
        ensures gives { IfOk result (λ made. (r : StoreState) → vector.now ≡ next_vector frame.now self.old → RowGives (commits_and_acts frame.now self.old (store_of r packs.old (D.moment disk.old).seen)) r made self.new packs.new (D.moment disk.new).seen out.old out.new) }
        ensures key { instance_key self.new ≡ instance_key self.old }
        ensures stage { self.new.stage ≡ self.old.stage }
        ensures stands { OnOk result (Stand packs.new (D.moment disk.new)) }
        ensures places { OnOk result (SamePlaces packs.old packs.new) }
        ensures disk { Writes (Some (write_as frame.now self.old vector.now)) packs.old (D.moment disk.old) (D.moment disk.new) out.old out.new result }
        ensures unfit { result ≡ Err StoreFault.Unfit → CanStore (groups_of packs.old) (copies_on (groups_of packs.old) (D.moment disk.old).seen) self.old vector.now (next_stamp frame.now vector.now) → ⊥ }
    {
        let step = self.commit(frame, packs, disk, vector, out)?;
        let stamp = step.after;
        self.act_counted(frame, &Op::Commit, Outcome::Committed { stamp }, out)?;
        Ok(Some(step))
    }

    /// Where nothing is owed the last version's stamp is answered.
    fn last_committed(&mut self, frame: &SiteFrame, out: &mut Outbox) -> Result<(), NoMemory>
        requires { self.old.work.ops < 4294967295 }
        ensures gives { OnOk result ((r : StoreState) (p : PacksState) (image : List ℕ) → IsRow self.old r.instances → RowGives (last_committed frame.now self.old self.old.work.last (store_of r p image)) r None self.new p image out.old out.new) }
        ensures key { instance_key self.new ≡ instance_key self.old }
        ensures stage { self.new.stage ≡ self.old.stage }
    {
        match self.last() {
            None => Ok(()),
            Some(stamp) => {
                self.act_counted(frame, &Op::Commit, Outcome::Committed { stamp }, out)?;
                Ok(())
            }
        }
    }

    /// The instance goes back to the copy of its file.
    fn abort_op<D: Disk>(
        &mut self,
        frame: &SiteFrame,
        packs: &SitePacks,
        disk: &mut D,
        out: &mut Outbox,
    ) -> Result<(), StoreFault>
        requires stands { Stand packs.now (D.moment disk.old) }
        requires few { self.old.work.ops < 4294967295 }
        ensures gives { OnOk result ((r : StoreState) → IsRow self.old r.instances → RowGives (abort_op frame.now self.old (store_of r packs.now (D.moment disk.old).seen)) r None self.new packs.now (D.moment disk.new).seen out.old out.new) }
        ensures key { instance_key self.new ≡ instance_key self.old }
        ensures stage { self.new.stage ≡ self.old.stage }
        ensures stands { OnOk result (Stand packs.now (D.moment disk.new)) }
        ensures disk { Writes None packs.now (D.moment disk.old) (D.moment disk.new) out.old out.new result }
        ensures fit { result ≢ Err StoreFault.Unfit }
    {
        let mut content = Bytes::new(self.parents.allocator());
        packs.read(disk, self.file, &mut content)?;
        self.work.abort(self.mode, content.as_slice())?;
        self.act(frame, &Op::Abort, Outcome::Done, out)?;
        Ok(())
    }

    /// One operation more is done, which gave this.
    fn act_counted(
        &mut self,
        frame: &SiteFrame,
        op: &Op,
        gave: Outcome,
        out: &mut Outbox,
    ) -> Result<(), NoMemory>
        requires { self.old.work.ops < 4294967295 }
        ensures row { OnOk result (self.new ≡ record self.old { work = counted self.old.work; answered = Some gave }) }
        ensures packets { OnOk result (out.new.packets ≡ out.old.packets ++ op_done frame.now self.old (counted self.old.work).ops gave) }
        ensures records { OnOk result (out.new.records ≡ out.old.records ++ Record.Act frame.now.epoch self.old.inst (counted self.old.work).ops op.now gave ∷ []) }
        ensures key { instance_key self.new ≡ instance_key self.old }
        ensures stage { self.new.stage ≡ self.old.stage }
    {
        self.work.count();
        self.act(frame, op, gave, out)
    }
}
