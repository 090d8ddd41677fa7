ghost use Rattle.std.specs.Prelude.{◌≡◌, ◌<◌, ◌≤◌, cond, [], ◌∷◌, ◌++◌, length, filter, false, not, IfSome, IfOk, OnOk};
ghost use Rattle.std.specs.List.{position_from, find, list_any};
ghost use Rattle.std.specs.Option.{option_copied, option_map};
ghost use Rattle.commit_graph.specs.Grants.{is_read};
ghost use Rattle.past_laws.specs.of_promises.Past.{Instance, is_named, is_writer};
ghost use Rattle.past_laws.specs.of_promises.After.{change};
ghost use Rattle.audit_instances.specs.Rows.{held_again, no_work, with_work, once_named, used_once, commits};

use crate::InstanceRow;
use locus_ids::{FileId, Mode, NoMemory, Serial, Stamp};
use operation_effects::OpenWork;
use std::alloc::Global;
use std::marker::Model;

/// The open instances of an epoch, the earliest granted first, each with a serial of its own.
#[derive(Drop)]
pub struct Instances {
    items: Vec<InstanceRow>,
}

impl Model for Instances {
    ghost use Rattle.std.specs.Prelude.{◌≤◌, List, length, filter};
    ghost use Rattle.locus_ids.specs.declared.ids.Serial.{Serial};
    ghost use Rattle.past_laws.specs.of_promises.Past.{Instance, is_named};

    ghost Value = { List Instance };

    ghost view = { λ l. l.items.items };

    ghost invariant = { λ l. (i : Serial) → length (filter (is_named i) l.items.items) ≤ 1 };
}

impl Instances {
    /// No instance. What the list takes later comes from this allocator.
    pub fn new(alloc: Global) -> Instances
        ensures { result ≡ [] }
    {
        Instances {
            items: Vec::new(alloc),
        }
    }

    /// All instances, the earliest granted first.
    pub fn as_slice(&self) -> &[InstanceRow]
        ensures { result.now ≡ self.now }
    {
        self.items.as_slice()
    }

    /// The instance of this name.
    pub fn named(&self, inst: Serial) -> Option<&InstanceRow>
        ensures found { option_copied result ≡ find (is_named inst) self.now }
        ensures one { length (filter (is_named inst) self.now) ≤ 1 }
    {
        match place_of(self.items.as_slice(), inst) {
            Some(place) => Some(&self.items[place]),
            None => None,
        }
    }

    /// One more instance, of a name that no other has.
    pub fn push(&mut self, row: InstanceRow) -> Result<(), NoMemory>
        requires { list_any (is_named row.grant.inst) self.old ≡ false }
        ensures { OnOk result (self.new ≡ self.old ++ row ∷ []) }
    {
        self.items.push(row)?;
        Ok(())
    }

    /// A descriptor names the instance.
    pub fn name(&mut self, inst: Serial)
        ensures { self.new ≡ change (is_named inst) once_named self.old }
    {
        if let Some(place) = place_of(self.items.as_slice(), inst) {
            let row = &mut self.items[place];
            row.name();
        }
    }

    /// A read of a steady descriptor has opened the instance.
    pub fn hold_again(&mut self, inst: Serial) -> Result<(), NoMemory>
        ensures { OnOk result (self.new ≡ change (is_named inst) held_again self.old) }
    {
        match place_of(self.items.as_slice(), inst) {
            Some(place) => {
                let row = &mut self.items[place];
                row.hold_again()?;
                Ok(())
            }
            None => Ok(()),
        }
    }

    /// One call more is accepted on the descriptor of the instance.
    pub fn use_once(&mut self, inst: Serial) -> Result<(), NoMemory>
        ensures { OnOk result (self.new ≡ change (is_named inst) used_once self.old) }
    {
        match place_of(self.items.as_slice(), inst) {
            Some(place) => {
                let row = &mut self.items[place];
                row.use_once()?;
                Ok(())
            }
            None => Ok(()),
        }
    }

    /// Hands out what has become of the instance, so that an operation can change it in place.
    pub fn take_work(&mut self, alloc: Global, inst: Serial) -> Result<Option<OpenWork>, NoMemory>
        ensures work { IfOk result (λ work. work ≡ option_map (λ (x : Instance). x.work) (find (is_named inst) self.old)) }
        ensures left { OnOk result (self.new ≡ change (is_named inst) (with_work no_work) self.old) }
    {
        match place_of(self.items.as_slice(), inst) {
            Some(place) => {
                let row = &mut self.items[place];
                let work = row.take_work(alloc)?;
                Ok(Some(work))
            }
            None => Ok(None),
        }
    }

    /// This has become of the instance.
    pub fn put_work(&mut self, inst: Serial, work: OpenWork)
        ensures { self.new ≡ change (is_named inst) (with_work work) self.old }
    {
        if let Some(place) = place_of(self.items.as_slice(), inst) {
            let row = &mut self.items[place];
            row.put_work(work);
        }
    }

    /// The instances of the file at the site that aren't only read have committed this version.
    pub fn commit(&mut self, file: FileId, site: u8, stamp: Stamp)
        ensures { self.new ≡ change (is_writer file site) (commits stamp) self.old }
    {
        commit_all(self.items.as_mut_slice(), file, site, stamp);
    }

    /// Takes the instance of this name away.
    pub fn remove(&mut self, inst: Serial)
        ensures { self.new ≡ filter (λ x. not (is_named inst x)) self.old }
    {
        if let Some(place) = place_of(self.items.as_slice(), inst) {
            self.items.remove(place);
        }
    }
}

fn place_of(instances: &[InstanceRow], inst: Serial) -> Option<usize>
    ensures place { result ≡ position_from (is_named inst) 0 instances.now }
    ensures within { IfSome result (λ place. place < length instances.now) }
{
    instances.iter().position(|row| is_named(row, inst))
}

fn is_named(row: &InstanceRow, inst: Serial) -> bool
    ensures { result ≡ is_named inst row.now }
{
    row.grant().inst == inst
}

fn is_writer(row: &InstanceRow, file: FileId, site: u8) -> bool
    ensures { result ≡ is_writer file site row.now }
{
    row.grant().file == file && (row.grant().ss == site && !is_read(row.grant().mode))
}

fn commit_all(rows: &mut [InstanceRow], file: FileId, site: u8, stamp: Stamp)
    ensures { rows.new ≡ change (is_writer file site) (commits stamp) rows.old }
{
    for row in rows.iter_mut() {
        commit_row(row, file, site, stamp);
    }
}

fn commit_row(row: &mut InstanceRow, file: FileId, site: u8, stamp: Stamp)
    ensures { row.new ≡ cond (is_writer file site row.old) (commits stamp row.old) row.old }
{
    if is_writer(row, file, site) {
        row.commit(stamp);
    }
}

fn is_read(mode: Mode) -> bool
    ensures { result ≡ is_read mode }
{
    matches!(mode, Mode::Read)
}
