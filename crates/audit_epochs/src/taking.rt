//! What a record makes of all epochs: it changes one of them.

ghost use Rattle.std.specs.Prelude.{◌≡◌, OnOk};
ghost use Rattle.promises.specs.After.{change, is_epoch, released};
ghost use Rattle.audit_epochs.specs.Changes.{accepts, acts_so, is_home, joins, leaves, refuses, starts, unmends};

use crate::Epochs;
use audit_copies::CopyRow;
use locus_ids::{CallId, EpochId, FileId, Mode, NoMemory, Serial, Stamp};
use operation_effects::OpenWork;
use trace_book::{Beginning, Call, Op, Outcome};

impl Epochs {
    /// A site leaves the epoch that it is in, or stops in it, and had these versions.
    pub fn leave(
        &mut self,
        home: Option<EpochId>,
        site: u8,
        held: &[CopyRow],
    ) -> Result<(), NoMemory>
        ensures { OnOk result (self.new ≡ change (is_home home) (leaves site held.now) self.old) }
    {
        let alloc = self.allocator();
        match self.home_place(home) {
            Some(place) => {
                let row = &mut self.rows[place];
                row.leave(alloc, site, held)?;
                Ok(())
            }
            None => Ok(()),
        }
    }

    /// A site joins the epoch, and brings these versions.
    pub fn join(&mut self, epoch: EpochId, site: u8, held: &[CopyRow]) -> Result<(), NoMemory>
        ensures { OnOk result (self.new ≡ change (is_epoch epoch) (joins site held.now) self.old) }
    {
        match self.place(epoch) {
            Some(place) => {
                let row = &mut self.rows[place];
                row.join(site, held)?;
                Ok(())
            }
            None => Ok(()),
        }
    }

    /// A group of the epoch starts.
    pub fn start(&mut self, epoch: EpochId, group: u8) -> Result<(), NoMemory>
        ensures { OnOk result (self.new ≡ change (is_epoch epoch) (starts group) self.old) }
    {
        match self.place(epoch) {
            Some(place) => {
                let row = &mut self.rows[place];
                row.start(group)?;
                Ok(())
            }
            None => Ok(()),
        }
    }

    /// A call that begins so is accepted at a site of this epoch.
    pub fn accept(
        &mut self,
        home: Option<EpochId>,
        begins: &Beginning,
        words: &Call,
    ) -> Result<(), NoMemory>
        ensures { OnOk result (self.new ≡ change (is_home home) (accepts begins.now words.now) self.old) }
    {
        match self.home_place(home) {
            Some(place) => {
                let row = &mut self.rows[place];
                row.accept(begins, words)?;
                Ok(())
            }
            None => Ok(()),
        }
    }

    /// An open of this call is refused: where it is a make, the make is over.
    pub fn refuse(
        &mut self,
        epoch: EpochId,
        call: CallId,
        mode: Mode,
        file: FileId,
    ) -> Result<(), NoMemory>
        ensures { OnOk result (self.new ≡ change (is_epoch epoch) (refuses call mode file) self.old) }
    {
        let alloc = self.allocator();
        match self.place(epoch) {
            Some(place) => {
                let row = &mut self.rows[place];
                row.refuse(alloc, call, mode, file)?;
                Ok(())
            }
            None => Ok(()),
        }
    }

    /// An operation of an open instance has given this result, and this has become of the instance.
    pub fn act(
        &mut self,
        epoch: EpochId,
        inst: Serial,
        op: &Op,
        outcome: &Outcome,
        work: OpenWork,
    ) -> Result<(), NoMemory>
        ensures { OnOk result (self.new ≡ change (is_epoch epoch) (acts_so inst op.now outcome.now work) self.old) }
    {
        match self.place(epoch) {
            Some(place) => {
                let row = &mut self.rows[place];
                row.act(inst, op, outcome, work)?;
                Ok(())
            }
            None => Ok(()),
        }
    }

    /// An open instance ends, and its last version is published.
    pub fn release(
        &mut self,
        epoch: EpochId,
        inst: Serial,
        file: FileId,
        stamp: Option<Stamp>,
    ) -> Result<(), NoMemory>
        ensures { OnOk result (self.new ≡ change (is_epoch epoch) (released inst file stamp) self.old) }
    {
        let alloc = self.allocator();
        match self.place(epoch) {
            Some(place) => {
                let row = &mut self.rows[place];
                row.release(alloc, inst, file, stamp)?;
                Ok(())
            }
            None => Ok(()),
        }
    }

    /// A mend of the directory was refused for good.
    pub fn unmend(&mut self, home: Option<EpochId>, file: FileId) -> Result<(), NoMemory>
        ensures { OnOk result (self.new ≡ change (is_home home) (unmends file) self.old) }
    {
        match self.home_place(home) {
            Some(place) => {
                let row = &mut self.rows[place];
                row.unmend(file)?;
                Ok(())
            }
            None => Ok(()),
        }
    }
}
