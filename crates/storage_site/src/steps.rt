//! The last commits and adoptions of each file.

ghost use Rattle.std.specs.Prelude.{◌≡◌, ◌∷◌, [], take, OnOk};
ghost use Rattle.keyed_tables.specs.Rising.{Rising};
ghost use Rattle.role_steps.specs.Tables.{without_row};
ghost use Rattle.role_steps.specs.Views.{file_key};
ghost use Rattle.role_steps.specs.Storage.{steps_kept, steps_key, steps_of, with_step};

use keyed_tables::{Keyed, SortedTable, file_key};
use locus_ids::{FileId, NoMemory};
use role_steps::Step;
use std::alloc::Global;
use std::marker::Model;

/// How many steps of a file are remembered.
const STEPS_KEPT: usize = 16;

/// The last steps of a file, the latest first.
#[derive(Drop)]
pub(crate) struct StepRow {
    file: FileId,
    steps: Vec<Step>,
}

impl Model for StepRow {
    ghost use Rattle.role_steps.specs.Views.{FileSteps};

    ghost Value = { FileSteps };

    ghost view = { λ r. record { file = r.file; steps = r.steps.items } };
}

impl Keyed for StepRow {
    ghost use Rattle.role_steps.specs.Storage.{steps_key};

    ghost key = { steps_key };

    fn key(&self) -> u64 {
        file_key(self.file)
    }
}

/// What is remembered of all files.
#[derive(Drop)]
pub struct StepTable {
    rows: SortedTable<StepRow>,
}

impl Model for StepTable {
    ghost use Rattle.std.specs.Prelude.{List};
    ghost use Rattle.role_steps.specs.Views.{FileSteps};

    ghost Value = { List FileSteps };

    ghost view = { λ t. t.rows };
}

impl StepTable {
    /// Nothing is remembered.
    pub(crate) fn new(alloc: Global) -> StepTable
        ensures { result ≡ [] }
    {
        StepTable {
            rows: SortedTable::new(alloc),
        }
    }

    /// All is forgotten.
    pub(crate) fn clear(&mut self)
        ensures { self.new ≡ [] }
    {
        self.rows.clear();
    }

    /// The steps of a file, the latest first.
    pub(crate) fn of(&self, file: FileId) -> &[Step]
        ensures { result.now ≡ steps_of file self.now }
    {
        match self.rows.find(file_key(file)) {
            Some(row) => row.steps.as_slice(),
            None => &[],
        }
    }

    /// A step of a file more; what is more than the last few is forgotten.
    pub(crate) fn remember(&mut self, file: FileId, step: Step) -> Result<(), NoMemory>
        ensures { OnOk result (self.new ≡ with_step file step self.old) }
    {
        let mut steps = self.take(file);
        put_first(&mut steps, step)?;
        self.rows.put(StepRow { file, steps })?;
        Ok(())
    }

    /// Takes the steps of a file out, the latest first.
    fn take(&mut self, file: FileId) -> Vec<Step>
        ensures taken { result.items ≡ steps_of file self.old }
        ensures left { self.new ≡ without_row steps_key (file_key file) self.old }
        ensures rising { Rising steps_key self.old }
    {
        let alloc = self.rows.allocator();
        let _rows = self.rows.as_slice();
        match self.rows.remove(file_key(file)) {
            Some(row) => row.steps,
            None => Vec::new(alloc),
        }
    }
}

fn put_first(steps: &mut Vec<Step>, step: Step) -> Result<(), NoMemory>
    ensures { OnOk result (steps.new.items ≡ take steps_kept (step ∷ steps.old.items)) }
{
    steps.truncate(STEPS_KEPT - 1);
    steps.insert(0, step)?;
    Ok(())
}
