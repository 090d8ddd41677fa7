//! What a record makes of an epoch.

ghost use Rattle.std.specs.Prelude.{◌≡◌, ◌==◌, ◌&&◌, not, false, filter, OnOk, IfOk};
ghost use Rattle.trace_book.specs.Same.{same_call};
ghost use Rattle.tree_model.specs.State.{is_make};
ghost use Rattle.tree_model.specs.Tree.{is_passed_probe};
ghost use Rattle.std.specs.List.{list_any, find};
ghost use Rattle.std.specs.Option.{option_map};
ghost use Rattle.promises.specs.Past.{Instance, Make, is_named};
ghost use Rattle.promises.specs.After.{released};
ghost use Rattle.audit_instances.specs.Rows.{no_work};
ghost use Rattle.audit_epochs.specs.Changes.{accepts, acts_so, begins_make, begins_make_by, ends_make, grants, holds_again, joins, knows, leaves, names, publishes, refuses, starts, unmends, works};

use crate::uses::used_by;
use crate::{EpochRow, LeftRow, MakeRow};
use audit_copies::CopyRow;
use audit_instances::InstanceRow;
use locus_ids::{CallId, FileId, ItemList, Mode, NoMemory, Serial, Stamp};
use operation_effects::{OpenWork, WorkingContent};
use std::alloc::Global;
use trace_book::{Beginning, Call, Op, Outcome};
use tree_model::Granted;

impl EpochRow {
    /// A site leaves it, or stops in it, and had these versions.
    pub fn leave(&mut self, alloc: Global, site: u8, held: &[CopyRow]) -> Result<(), NoMemory>
        ensures ok { OnOk result (self.new ≡ leaves site held.now self.old) }
        ensures kept { self.new.id ≡ self.old.id }
    {
        let held = copies_of(alloc, held)?;
        self.left.insert(0, LeftRow { site, held })
    }

    /// A site joins it, and brings these versions.
    pub fn join(&mut self, site: u8, held: &[CopyRow]) -> Result<(), NoMemory>
        ensures ok { OnOk result (self.new ≡ joins site held.now self.old) }
        ensures kept { self.new.id ≡ self.old.id }
    {
        self.joined.insert(0, site)?;
        self.known.note_all(held)
    }

    /// A group starts.
    pub fn start(&mut self, group: u8) -> Result<(), NoMemory>
        ensures ok { OnOk result (self.new ≡ starts group self.old) }
        ensures kept { self.new.id ≡ self.old.id }
    {
        self.started.insert(0, group)
    }

    /// A call that begins so is accepted.
    pub fn accept(&mut self, begins: &Beginning, words: &Call) -> Result<(), NoMemory>
        ensures ok { OnOk result (self.new ≡ accepts begins.now words.now self.old) }
        ensures kept { self.new.id ≡ self.old.id }
    {
        match used_by(begins, words, self.id) {
            Some(inst) => {
                self.opened.use_once(inst)?;
                Ok(())
            }
            None => Ok(()),
        }
    }

    /// An instance of a new name is granted on a version of this content.
    pub fn grant(
        &mut self,
        alloc: Global,
        grant: Granted,
        stamp: Option<Stamp>,
        content: WorkingContent,
    ) -> Result<(), NoMemory>
        requires { list_any (is_named grant.inst) self.old.opened ≡ false }
        ensures ok { OnOk result (self.new ≡ grants grant stamp content self.old) }
        ensures kept { self.new.id ≡ self.old.id }
    {
        self.granted.push(grant)?;
        self.opened
            .push(InstanceRow::begun(alloc, grant, stamp, content))
    }

    /// An open of this call is refused: where it is a make, the make is over.
    pub fn refuse(
        &mut self,
        alloc: Global,
        call: CallId,
        mode: Mode,
        file: FileId,
    ) -> Result<(), NoMemory>
        ensures ok { OnOk result (self.new ≡ refuses call mode file self.old) }
        ensures kept { self.new.id ≡ self.old.id }
    {
        if is_make(mode) {
            self.makes = makes_without(alloc, self.makes.as_slice(), call, file.group)?;
        }
        Ok(())
    }

    /// Hands out what has become of an open instance, so that an operation can change it in place.
    pub fn take_work(&mut self, alloc: Global, inst: Serial) -> Result<Option<OpenWork>, NoMemory>
        ensures work { IfOk result (λ work. work ≡ option_map (λ (x : Instance). x.work) (find (is_named inst) self.old.opened)) }
        ensures left { OnOk result (self.new ≡ works inst no_work self.old) }
        ensures kept { self.new.id ≡ self.old.id }
    {
        self.opened.take_work(alloc, inst)
    }

    /// An operation of an open instance has given this result, and this has become of the instance.
    pub fn act(
        &mut self,
        inst: Serial,
        op: &Op,
        outcome: &Outcome,
        work: OpenWork,
    ) -> Result<(), NoMemory>
        ensures ok { OnOk result (self.new ≡ acts_so inst op.now outcome.now work self.old) }
        ensures kept { self.new.id ≡ self.old.id }
    {
        self.begin_make_by(inst, op, outcome)?;
        self.opened.put_work(inst, work);
        Ok(())
    }

    /// The file is committed at the site as this version.
    pub fn commit(&mut self, file: FileId, site: u8, stamp: Stamp)
        ensures { self.new ≡ publishes file site stamp self.old }
    {
        self.opened.commit(file, site, stamp);
    }

    /// An open instance ends, and its last version is published.
    pub fn release(
        &mut self,
        alloc: Global,
        inst: Serial,
        file: FileId,
        stamp: Option<Stamp>,
    ) -> Result<(), NoMemory>
        ensures ok { OnOk result (self.new ≡ released inst file stamp self.old) }
        ensures kept { self.new.id ≡ self.old.id }
    {
        self.end_make(alloc, inst, file.group)?;
        self.publish(file, stamp)?;
        self.opened.remove(inst);
        Ok(())
    }

    /// A descriptor names an open instance.
    pub fn name(&mut self, inst: Serial)
        ensures { self.new ≡ names inst self.old }
    {
        self.opened.name(inst);
    }

    /// A read of a steady descriptor has opened an instance.
    pub fn hold_again(&mut self, inst: Serial) -> Result<(), NoMemory>
        ensures ok { OnOk result (self.new ≡ holds_again inst self.old) }
        ensures kept { self.new.id ≡ self.old.id }
    {
        self.opened.hold_again(inst)?;
        Ok(())
    }

    /// A mend of the directory was refused for good.
    pub fn unmend(&mut self, file: FileId) -> Result<(), NoMemory>
        ensures ok { OnOk result (self.new ≡ unmends file self.old) }
        ensures kept { self.new.id ≡ self.old.id }
    {
        self.unmended.insert(0, file)
    }
}

impl EpochRow {
    /// The make of the call of an open instance is underway.
    fn begin_make(&mut self, inst: Serial) -> Result<(), NoMemory>
        ensures ok { OnOk result (self.new ≡ begins_make inst self.old) }
        ensures kept { self.new.id ≡ self.old.id }
    {
        if let Some(row) = self.opened.named(inst) {
            let grant = row.grant();
            self.makes.insert(
                0,
                MakeRow {
                    call: grant.call,
                    group: grant.file.group,
                },
            )?;
        }
        Ok(())
    }

    /// Where the operation is a probe that finds its name free, the make of its call is underway.
    fn begin_make_by(&mut self, inst: Serial, op: &Op, outcome: &Outcome) -> Result<(), NoMemory>
        ensures ok { OnOk result (self.new ≡ begins_make_by inst op.now outcome.now self.old) }
        ensures kept { self.new.id ≡ self.old.id }
    {
        if is_passed_probe(op, outcome) {
            self.begin_make(inst)?;
            return Ok(());
        }
        Ok(())
    }

    /// The make of the call of an open instance is over.
    fn end_make(&mut self, alloc: Global, inst: Serial, group: u8) -> Result<(), NoMemory>
        ensures ok { OnOk result (self.new ≡ ends_make inst group self.old) }
        ensures kept { self.new.id ≡ self.old.id }
    {
        if let Some(row) = self.opened.named(inst) {
            let grant = row.grant();
            if is_make(grant.mode) {
                self.makes = makes_without(alloc, self.makes.as_slice(), grant.call, group)?;
            }
        }
        Ok(())
    }

    /// The version of the file, where there is one, is known from now on.
    fn publish(&mut self, file: FileId, stamp: Option<Stamp>) -> Result<(), NoMemory>
        ensures ok { OnOk result (self.new ≡ knows file stamp self.old) }
        ensures kept { self.new.id ≡ self.old.id }
    {
        match stamp {
            Some(stamp) => self.known.note(CopyRow { file, stamp }),
            None => Ok(()),
        }
    }
}

/// The makes but those of this call in this group.
fn makes_without(
    alloc: Global,
    makes: &[MakeRow],
    call: CallId,
    group: u8,
) -> Result<ItemList<MakeRow>, NoMemory>
    ensures { IfOk result (λ made. made ≡ filter (λ (k : Make). not ((k.group == group) && same_call k.call call)) makes.now) }
{
    let mut made = ItemList::new(alloc);
    for make in makes {
        if !(make.group == group && make.call == call) {
            made.push(*make)?;
        }
    }
    Ok(made)
}

/// These versions, in memory of their own.
fn copies_of(alloc: Global, held: &[CopyRow]) -> Result<ItemList<CopyRow>, NoMemory>
    ensures { IfOk result (λ made. made ≡ held.now) }
{
    let mut made = ItemList::new(alloc);
    for copy in held {
        made.push(*copy)?;
    }
    Ok(made)
}

fn is_make(mode: Mode) -> bool
    ensures { result ≡ is_make mode }
{
    matches!(mode, Mode::Make)
}

/// The operation is a probe that finds the name free.
fn is_passed_probe(op: &Op, outcome: &Outcome) -> bool
    ensures { result ≡ is_passed_probe op.now outcome.now }
{
    match op {
        Op::Probe { name: _ } => match outcome {
            Outcome::Done => true,
            _ => false,
        },
        _ => false,
    }
}
