ghost use Rattle.std.specs.Prelude.{◌≡◌, [], ◌∷◌, OnOk};
ghost use Rattle.audit_epochs.specs.Changes.{is_granted, is_taken};

use key_places::{Places, file_key, serial_key};
use locus_ids::{FileId, NoMemory, Serial};
use std::alloc::Global;
use std::marker::Model;
use tree_model::Granted;

/// All grants of an epoch, of which each is found by its instance and by its file. Contracts see the latest first.
#[derive(Drop)]
pub struct Grants {
    rows: Vec<Granted>,
    by_inst: Places,
    by_file: Places,
}

impl Model for Grants {
    ghost use Rattle.std.specs.Prelude.{◌≡◌, List, map, reverse};
    ghost use Rattle.tree_model.specs.declared.instance.Granted.{Granted};
    ghost use Rattle.key_places.specs.Keys.{serial_key, file_key};

    ghost Value = { List Granted };

    ghost view = { λ g. reverse g.rows.items };

    ghost invariant = { λ g. (g.by_inst ≡ map (λ (r : Granted). serial_key r.inst) (reverse g.rows.items)) × (g.by_file ≡ map (λ (r : Granted). file_key r.file) (reverse g.rows.items)) };
}

impl Grants {
    /// No grant. What the table takes later comes from this allocator.
    pub fn new(alloc: Global) -> Grants
        ensures { result ≡ [] }
    {
        Grants {
            rows: Vec::new(alloc),
            by_inst: Places::new(alloc),
            by_file: Places::new(alloc),
        }
    }

    /// One more grant, the latest.
    pub fn push(&mut self, grant: Granted) -> Result<(), NoMemory>
        ensures { OnOk result (self.new ≡ grant ∷ self.old) }
    {
        self.by_inst.push(serial_key(grant.inst))?;
        if self.by_file.push(file_key(grant.file)).is_err() {
            empty(&mut self.rows, &mut self.by_inst, &mut self.by_file);
            return Err(NoMemory);
        }
        if self.rows.push(grant).is_err() {
            empty(&mut self.rows, &mut self.by_inst, &mut self.by_file);
            return Err(NoMemory);
        }
        Ok(())
    }

    /// Some grant names the instance.
    pub fn is_granted(&self, inst: Serial) -> bool
        ensures { result ≡ is_granted self.now inst }
    {
        self.by_inst.place(&serial_key(inst)).is_some()
    }

    /// Some grant is of the file.
    pub fn is_taken(&self, file: FileId) -> bool
        ensures { result ≡ is_taken self.now file }
    {
        self.by_file.place(&file_key(file)).is_some()
    }
}

/// Leaves no grant.
fn empty(rows: &mut Vec<Granted>, by_inst: &mut Places, by_file: &mut Places)
    ensures rows { rows.new.items ≡ [] }
    ensures by_inst { by_inst.new ≡ [] }
    ensures by_file { by_file.new ≡ [] }
{
    let alloc = *rows.allocator();
    rows.clear();
    *by_inst = Places::new(alloc);
    *by_file = Places::new(alloc);
}
