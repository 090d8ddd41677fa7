ghost use Rattle.std.specs.Prelude.{◌≡◌, ◌<◌, ◌&&◌, ◌==◌, ◌++◌, ◌∷◌, [], List, cond, length, IfOk, OnOk, OnErr};
ghost use Rattle.commit_graph.specs.declared.history.Version.{Version};
ghost use Rattle.trace_book.specs.declared.record.Record.TheVariants as Record;
ghost use Rattle.trace_book.specs.Same.{same_epoch};
ghost use Rattle.tree_model.specs.Given.{gives_look};
ghost use Rattle.tree_model.specs.State.{is_granted_here, is_make};
ghost use Rattle.tree_model.specs.Tree.{committed_at, has_now, joined, left, without_make};
ghost use Rattle.one_tree.specs.Following.{applied, told_of, tree_after};
ghost use Rattle.one_tree.specs.Unfit.{IsUnfitRecord};
ghost use Rattle.one_tree.specs.declared.applied.Applied.TheVariants.{Other};

use crate::{Applied, OneTree, TreeFault};
use commit_graph::History;
use locus_ids::{
    Brought, CallId, EpochId, FileId, Members, Mode, NoMemory, Refusal, Serial, Stamp,
};
use trace_book::{Call, Op, Outcome, Record, Served, What};
use tree_acts::act;

impl OneTree {
    /// Takes a record. After a fault the tree is as it was.
    pub(crate) fn step(&mut self, h: &History, r: &Record) -> Result<Applied, TreeFault>
        requires { length h.now < 4294967295 }
        ensures applied { IfOk result (λ told. told ≡ applied h.now self.old r.now) }
        ensures next { OnOk result (self.new ≡ tree_after h.now self.old r.now) }
        ensures err { OnErr result (self.new ≡ self.old) }
        ensures unfit { result ≡ Err TreeFault.Unfit → IsUnfitRecord h.now self.old r.now }
    {
        match r {
            Record::Up { site, boot: _ } => Ok(self.leave(*site)?),
            Record::Stopped { site, cause: _ } => Ok(self.leave(*site)?),
            Record::Leave { site, epoch: _ } => Ok(self.leave(*site)?),
            Record::Join {
                site,
                epoch,
                members,
            } => Ok(self.join(*site, *epoch, members)?),
            Record::Start {
                epoch,
                group,
                copies,
            } => Ok(self.start(*epoch, *group, copies.as_slice())),
            Record::Accept {
                site: _,
                process,
                call,
                words,
            } => Ok(self.accept(*call, *process, words)?),
            Record::Look {
                epoch,
                call: _,
                request: _,
                file,
                what,
                result: served,
            } => Ok(self.look(h, *epoch, *file, what, served)?),
            Record::Grant {
                epoch,
                call,
                request: _,
                inst,
                mode,
                file,
                stamp,
                ss,
            } => Ok(self.grant(h, *epoch, *call, *inst, *mode, *file, *stamp, *ss)?),
            Record::Refuse {
                epoch,
                call,
                request: _,
                inst,
                mode,
                file,
                why,
            } => Ok(self.refuse(h, *epoch, *call, *inst, *mode, *file, why)?),
            Record::Act {
                epoch,
                inst,
                n,
                op,
                result: outcome,
            } => self.act(h, *epoch, *inst, *n, op, outcome),
            Record::Commit {
                file,
                site,
                stamp,
                parents: _,
                content: _,
            } => Ok(self.commit(*file, *site, *stamp)?),
            Record::Release {
                epoch,
                inst,
                file,
                stamp,
            } => Ok(self.release(h, *epoch, *inst, *file, *stamp)?),
            Record::Adopt { file, site, stamp } => Ok(self.adopt(*file, *site, *stamp)?),
            _ => Ok(Applied::Other),
        }
    }

    /// A site isn't in the epoch any longer.
    fn leave(&mut self, site: u8) -> Result<Applied, NoMemory>
        ensures told { IfOk result (λ told. told ≡ Other) }
        ensures next { OnOk result (self.new ≡ left site self.old) }
        ensures err { OnErr result (self.new ≡ self.old) }
    {
        self.tables.leave(site)?;
        Ok(Applied::Other)
    }

    /// A site joins the epoch of the tree, or another one.
    fn join(&mut self, site: u8, epoch: EpochId, members: &Members) -> Result<Applied, NoMemory>
        ensures told { IfOk result (λ told. told ≡ Other) }
        ensures next { OnOk result (self.new ≡ cond (same_epoch epoch self.old.epoch) (joined site members.now self.old) (left site self.old)) }
        ensures err { OnErr result (self.new ≡ self.old) }
    {
        if !self.tables.is_of(epoch) {
            return self.leave(site);
        }
        self.tables.join(site, members)?;
        Ok(Applied::Other)
    }

    fn start(&mut self, epoch: EpochId, group: u8, copies: &[Brought]) -> Applied
        ensures applied { (h : List Version) → result ≡ applied h self.old (Record.Start epoch group copies.now) }
        ensures next { (h : List Version) → self.new ≡ tree_after h self.old (Record.Start epoch group copies.now) }
    {
        if !self.tables.is_here(epoch, group) {
            return Applied::Other;
        }
        if !self.tables.gives_start(copies) {
            return Applied::Differs;
        }
        self.tables.start();
        Applied::Follows
    }

    fn accept(&mut self, call: CallId, process: u8, words: &Call) -> Result<Applied, NoMemory>
        ensures told { IfOk result (λ told. told ≡ Other) }
        ensures next { OnOk result (self.new ≡ record self.old { calls = self.old.calls ++ record { call = call; process = process; words = words.now } ∷ [] }) }
        ensures err { OnErr result (self.new ≡ self.old) }
    {
        self.tables.accept(call, process, words)?;
        Ok(Applied::Other)
    }

    fn look(
        &self,
        h: &History,
        epoch: EpochId,
        file: FileId,
        what: &What,
        served: &Served,
    ) -> Result<Applied, NoMemory>
        ensures { IfOk result (λ told. told ≡ cond (same_epoch epoch self.now.epoch && (file.group == self.now.group)) (told_of (gives_look h.now self.now file what.now served.now)) Other) }
    {
        if !self.tables.is_here(epoch, file.group) {
            return Ok(Applied::Other);
        }
        let given = self.tables.gives_look(h, file, what, served)?;
        Ok(told_of(given))
    }

    fn grant(
        &mut self,
        h: &History,
        epoch: EpochId,
        call: CallId,
        inst: Serial,
        mode: Mode,
        file: FileId,
        stamp: Option<Stamp>,
        ss: u8,
    ) -> Result<Applied, NoMemory>
        ensures applied { IfOk result (λ told. told ≡ applied h.now self.old (Record.Grant epoch call 0 inst mode file stamp ss)) }
        ensures next { OnOk result (self.new ≡ tree_after h.now self.old (Record.Grant epoch call 0 inst mode file stamp ss)) }
        ensures err { OnErr result (self.new ≡ self.old) }
    {
        if !self.tables.is_of(epoch) {
            return Ok(Applied::Other);
        }
        if file.group != self.tables.group() {
            self.tables.grant(h, call, inst, mode, file, stamp, ss)?;
            return Ok(Applied::Other);
        }
        if !self
            .tables
            .gives_grant(h, call, inst, mode, file, stamp, ss)?
        {
            return Ok(Applied::Differs);
        }
        self.tables.grant(h, call, inst, mode, file, stamp, ss)?;
        Ok(Applied::Follows)
    }

    fn refuse(
        &mut self,
        h: &History,
        epoch: EpochId,
        call: CallId,
        inst: Serial,
        mode: Mode,
        file: FileId,
        why: &Refusal,
    ) -> Result<Applied, NoMemory>
        ensures applied { IfOk result (λ told. told ≡ applied h.now self.old (Record.Refuse epoch call 0 inst mode file why.now)) }
        ensures next { OnOk result (self.new ≡ tree_after h.now self.old (Record.Refuse epoch call 0 inst mode file why.now)) }
        ensures err { OnErr result (self.new ≡ self.old) }
    {
        if !self.tables.is_here(epoch, file.group) {
            return Ok(Applied::Other);
        }
        if !self.tables.gives_refusal(h, call, mode, file, why)? {
            return Ok(Applied::Differs);
        }
        self.end_make(call, mode)?;
        Ok(Applied::Follows)
    }

    /// A make that is refused isn't underway any longer.
    fn end_make(&mut self, call: CallId, mode: Mode) -> Result<(), NoMemory>
        ensures ok { OnOk result (self.new ≡ cond (is_make mode) (record self.old { makes = without_make call self.old.makes }) self.old) }
        ensures err { OnErr result (self.new ≡ self.old) }
    {
        match mode {
            Mode::Make => self.tables.refuse_make(call),
            Mode::Read => Ok(()),
            Mode::Write => Ok(()),
            Mode::Resolve => Ok(()),
            Mode::Mend => Ok(()),
        }
    }

    #[tactic(auto, using(crate::proofs::Unfitting::refused_so))]
    fn act(
        &mut self,
        h: &History,
        epoch: EpochId,
        inst: Serial,
        n: u32,
        op: &Op,
        outcome: &Outcome,
    ) -> Result<Applied, TreeFault>
        requires { length h.now < 4294967295 }
        ensures applied { IfOk result (λ told. told ≡ applied h.now self.old (Record.Act epoch inst n op.now outcome.now)) }
        ensures next { OnOk result (self.new ≡ tree_after h.now self.old (Record.Act epoch inst n op.now outcome.now)) }
        ensures err { OnErr result (self.new ≡ self.old) }
        ensures unfit { result ≡ Err TreeFault.Unfit → IsUnfitRecord h.now self.old (Record.Act epoch inst n op.now outcome.now) }
    {
        if !self.has_act(epoch, inst) {
            return Ok(Applied::Other);
        }
        let given = act(&mut self.tables, h, inst, n, op, outcome)?;
        Ok(told_of(given))
    }

    /// An act is one of the group in which its instance was granted.
    fn has_act(&self, epoch: EpochId, inst: Serial) -> bool
        ensures { result ≡ (same_epoch epoch self.now.epoch && is_granted_here self.now inst) }
    {
        self.tables.is_of(epoch) && self.tables.is_granted_here(inst)
    }

    fn commit(&mut self, file: FileId, site: u8, stamp: Stamp) -> Result<Applied, NoMemory>
        ensures told { IfOk result (λ told. told ≡ Other) }
        ensures next { OnOk result (self.new ≡ committed_at file site stamp (has_now file site stamp self.old)) }
        ensures err { OnErr result (self.new ≡ self.old) }
    {
        self.tables.commit(file, site, stamp)?;
        Ok(Applied::Other)
    }

    fn release(
        &mut self,
        h: &History,
        epoch: EpochId,
        inst: Serial,
        file: FileId,
        stamp: Option<Stamp>,
    ) -> Result<Applied, NoMemory>
        requires { length h.now < 4294967295 }
        ensures applied { IfOk result (λ told. told ≡ applied h.now self.old (Record.Release epoch inst file stamp)) }
        ensures next { OnOk result (self.new ≡ tree_after h.now self.old (Record.Release epoch inst file stamp)) }
        ensures err { OnErr result (self.new ≡ self.old) }
    {
        if !self.tables.is_here(epoch, file.group) {
            return Ok(Applied::Other);
        }
        if !self.tables.gives_release(h, inst, file, stamp) {
            return Ok(Applied::Differs);
        }
        self.tables.release(inst, file, stamp)?;
        Ok(Applied::Follows)
    }

    fn adopt(&mut self, file: FileId, site: u8, stamp: Stamp) -> Result<Applied, NoMemory>
        ensures told { IfOk result (λ told. told ≡ Other) }
        ensures next { OnOk result (self.new ≡ has_now file site stamp self.old) }
        ensures err { OnErr result (self.new ≡ self.old) }
    {
        self.tables.has_now(file, site, stamp)?;
        Ok(Applied::Other)
    }
}

/// A step of the tree follows or differs.
fn told_of(given: bool) -> Applied
    ensures { result ≡ told_of given }
{
    if given {
        Applied::Follows
    } else {
        Applied::Differs
    }
}
