ghost use Rattle.std.specs.Prelude.{◌≡◌, false, IfOk, OnOk};
ghost use Rattle.operation_effects.specs.of_role_steps.of_file_effects.Works.{begun, committed};
ghost use Rattle.audit_instances.specs.Rows.{held_again, no_work, once_named, used_once, with_work};

use locus_ids::{Mode, NoMemory, Stamp};
use operation_effects::{OpenWork, WorkingContent};
use std::alloc::Global;
use std::marker::Model;
use tree_model::Granted;

/// An open instance: what its grant fixed, and what has become of it. Contracts see an `Instance`.
#[derive(Drop)]
pub struct InstanceRow {
    grant: Granted,
    work: OpenWork,
    named: bool,
    again: bool,
    uses: u32,
}

impl Model for InstanceRow {
    ghost use Rattle.past_laws.specs.of_promises.Past.{Instance};

    ghost Value = { Instance };

    ghost view = { λ x. record { grant = x.grant; work = x.work; named = x.named; again = x.again; uses = x.uses } };
}

impl InstanceRow {
    /// The instance as it is granted, on this version with this content.
    pub fn begun(
        alloc: Global,
        grant: Granted,
        stamp: Option<Stamp>,
        content: WorkingContent,
    ) -> InstanceRow
        ensures { result ≡ record { grant = grant; work = begun grant.mode stamp content; named = false; again = false; uses = 0 } }
    {
        InstanceRow {
            grant,
            work: OpenWork::begun(alloc, grant.mode, stamp, content),
            named: false,
            again: false,
            uses: 0,
        }
    }

    /// What its grant fixed.
    pub fn grant(&self) -> Granted
        ensures { result ≡ self.now.grant }
    {
        self.grant
    }

    /// What has become of it.
    pub fn work(&self) -> &OpenWork
        ensures { result.now ≡ self.now.work }
    {
        &self.work
    }

    /// A descriptor has named it.
    pub fn is_named(&self) -> bool
        ensures { result ≡ self.now.named }
    {
        self.named
    }

    /// A read of a steady descriptor has opened it, and is its first use.
    pub fn is_again(&self) -> bool
        ensures { result ≡ self.now.again }
    {
        self.again
    }

    /// How many calls but its close were accepted on its descriptor, with that read.
    pub fn uses(&self) -> u32
        ensures { result ≡ self.now.uses }
    {
        self.uses
    }

    /// A descriptor names it.
    pub fn name(&mut self)
        ensures { self.new ≡ once_named self.old }
    {
        self.named = true;
    }

    /// A read of a steady descriptor has opened it.
    pub fn hold_again(&mut self) -> Result<(), NoMemory>
        ensures ok { OnOk result (self.new ≡ held_again self.old) }
        ensures kept { self.new.grant ≡ self.old.grant }
    {
        match self.uses.checked_add(1) {
            Some(uses) => {
                self.named = true;
                self.again = true;
                self.uses = uses;
                Ok(())
            }
            None => Err(NoMemory),
        }
    }

    /// One call more is accepted on its descriptor.
    pub fn use_once(&mut self) -> Result<(), NoMemory>
        ensures ok { OnOk result (self.new ≡ used_once self.old) }
        ensures kept { self.new.grant ≡ self.old.grant }
    {
        match self.uses.checked_add(1) {
            Some(uses) => {
                self.uses = uses;
                Ok(())
            }
            None => Err(NoMemory),
        }
    }

    /// Hands out what has become of it, so that an operation can change it in place; none is left until it is put back.
    pub fn take_work(&mut self, alloc: Global) -> Result<OpenWork, NoMemory>
        ensures work { IfOk result (λ work. work ≡ self.old.work) }
        ensures left { OnOk result (self.new ≡ with_work no_work self.old) }
        ensures kept { self.new.grant ≡ self.old.grant }
    {
        let content = WorkingContent::from_slice(alloc, &[])?;
        let none = OpenWork::begun(alloc, Mode::Read, None, content);
        Ok(std::mem::replace(&mut self.work, none))
    }

    /// This has become of it.
    pub fn put_work(&mut self, work: OpenWork)
        ensures { self.new ≡ with_work work self.old }
    {
        self.work = work;
    }

    /// Its content is committed as this version.
    pub fn commit(&mut self, stamp: Stamp)
        ensures { self.new ≡ with_work (committed stamp self.old.work) self.old }
    {
        self.work.commit(stamp);
    }
}
