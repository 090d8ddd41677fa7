//! What becomes of the open instances of an epoch by its name.

ghost use Rattle.std.specs.Prelude.{◌≡◌, ◌≤◌, false, filter, length, OnOk, IfOk};
ghost use Rattle.std.specs.List.{find};
ghost use Rattle.promises.specs.After.{change, is_epoch};
ghost use Rattle.audit_instances.specs.Rows.{no_work};
ghost use Rattle.audit_epochs.specs.Changes.{grants, holds_again, is_home, names, publishes, turn_among, works};
ghost use Rattle.audit_epochs.specs.Places.{has_open, turn_at, work_of};

use crate::Epochs;
use locus_ids::{EpochId, FileId, NoMemory, Serial, Stamp};
use operation_effects::{OpenWork, WorkingContent};
use trace_book::{Beginning, Call};
use tree_model::Granted;

impl Epochs {
    /// An instance of a name that no open one of the epoch has is granted on a version of this content.
    pub fn grant(
        &mut self,
        epoch: EpochId,
        grant: Granted,
        stamp: Option<Stamp>,
        content: WorkingContent,
    ) -> Result<(), NoMemory>
        requires { has_open epoch grant.inst self.old ≡ false }
        ensures { OnOk result (self.new ≡ change (is_epoch epoch) (grants grant stamp content) self.old) }
    {
        let alloc = self.allocator();
        match self.place(epoch) {
            Some(place) => {
                let row = &mut self.rows[place];
                row.grant(alloc, grant, stamp, content)?;
                Ok(())
            }
            None => Ok(()),
        }
    }

    /// Hands out what has become of an open instance, so that an operation can change it in place.
    pub fn take_work(&mut self, epoch: EpochId, inst: Serial) -> Result<Option<OpenWork>, NoMemory>
        ensures work { IfOk result (λ work. work ≡ work_of inst (find (is_epoch epoch) self.old)) }
        ensures left { OnOk result (self.new ≡ change (is_epoch epoch) (works inst no_work) self.old) }
    {
        let alloc = self.allocator();
        match self.place(epoch) {
            Some(place) => {
                let row = &mut self.rows[place];
                let work = row.take_work(alloc, inst)?;
                Ok(work)
            }
            None => Ok(None),
        }
    }

    /// The file is committed at a site of this epoch as this version.
    pub fn commit(&mut self, home: Option<EpochId>, file: FileId, site: u8, stamp: Stamp)
        ensures { self.new ≡ change (is_home home) (publishes file site stamp) self.old }
    {
        if let Some(place) = self.home_place(home) {
            let row = &mut self.rows[place];
            row.commit(file, site, stamp);
        }
    }

    /// A descriptor names an open instance.
    pub fn name(&mut self, epoch: EpochId, inst: Serial)
        ensures { self.new ≡ change (is_epoch epoch) (names inst) self.old }
    {
        if let Some(place) = self.place(epoch) {
            let row = &mut self.rows[place];
            row.name(inst);
        }
    }

    /// A read of a steady descriptor has opened an instance.
    pub fn hold_again(&mut self, epoch: EpochId, inst: Serial) -> Result<(), NoMemory>
        ensures { OnOk result (self.new ≡ change (is_epoch epoch) (holds_again inst) self.old) }
    {
        match self.place(epoch) {
            Some(place) => {
                let row = &mut self.rows[place];
                row.hold_again(inst)?;
                Ok(())
            }
            None => Ok(()),
        }
    }

    /// Which use of its instance a call is that begins so; 0 where it uses none that is open.
    pub fn turn(&self, begins: &Beginning, words: &Call) -> Result<u32, NoMemory>
        ensures { IfOk result (λ turn. turn ≡ turn_among self.now begins.now words.now) }
    {
        match begins {
            Beginning::Uses { epoch, inst: _ } => {
                let turn = self.turn_in(*epoch, begins, words)?;
                Ok(turn)
            }
            Beginning::Denied { why: _ } => Ok(0),
            Beginning::Walks { call: _ } => Ok(0),
            Beginning::Reopens {
                version: _,
                last: _,
            } => Ok(0),
            Beginning::Frees => Ok(0),
        }
    }

    /// The same of the epoch of this name.
    fn turn_in(&self, epoch: EpochId, begins: &Beginning, words: &Call) -> Result<u32, NoMemory>
        ensures turn { IfOk result (λ turn. turn ≡ turn_at begins.now words.now (find (is_epoch epoch) self.now)) }
        ensures one { length (filter (is_epoch epoch) self.now) ≤ 1 }
    {
        match self.find(epoch) {
            Some(row) => row.turn(begins, words),
            None => Ok(0),
        }
    }
}
