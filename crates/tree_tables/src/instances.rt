ghost use Rattle.std.specs.Prelude.{◌≡◌, ◌<◌, List, [], ◌∷◌, ◌++◌, length, Some, IfSome, OnOk, OnErr, not, ◌&&◌, ◌==◌};
ghost use Rattle.std.specs.List.{position_from, find};
ghost use Rattle.std.specs.Option.{option_copied};
ghost use Rattle.commit_graph.specs.Grants.{is_read};
ghost use Rattle.tree_model.specs.Lists.{change_first, without_first};
ghost use Rattle.tree_model.specs.State.{is_named, is_writer};
ghost use Rattle.tree_model.specs.Tree.{once_committed};
ghost use Rattle.tree_model.specs.Working.{is_target};
ghost use Rattle.tree_model.specs.declared.instance.Instance.{Instance};
ghost use Rattle.tree_tables.specs.Worked.{worked};

use locus_ids::{CallId, FileId, Mode, NoMemory, Serial, Stamp};
use std::alloc::Global;
use std::marker::Model;
use tree_model::Instance;
use tree_model::file_effects::Work;

/// The open instances of a group in an epoch, the earliest granted first.
#[derive(Drop)]
pub struct Instances {
    items: Vec<Instance>,
}

impl Model for Instances {
    ghost use Rattle.std.specs.Prelude.{List};
    ghost use Rattle.tree_model.specs.declared.instance.Instance.{Instance};

    ghost Value = { List Instance };

    ghost view = { λ l. l.items.items };
}

impl Instances {
    pub fn new(alloc: Global) -> Instances
        ensures { result ≡ [] }
    {
        Instances {
            items: Vec::new(alloc),
        }
    }

    pub fn as_slice(&self) -> &[Instance]
        ensures { result.now ≡ self.now }
    {
        self.items.as_slice()
    }

    /// The instance after all others. After `NoMemory` all is as it was.
    pub fn push(&mut self, instance: Instance) -> Result<(), NoMemory>
        ensures ok { OnOk result (self.new ≡ self.old ++ instance ∷ []) }
        ensures err { OnErr result (self.new ≡ self.old) }
    {
        self.items.push(instance)?;
        Ok(())
    }

    /// Takes the last instance away.
    pub fn pop(&mut self)
        ensures { (xs : List Instance) (x : Instance) → self.old ≡ xs ++ x ∷ [] → self.new ≡ xs }
    {
        self.items.pop();
    }

    /// The instance of this name.
    pub fn named(&self, inst: Serial) -> Option<&Instance>
        ensures { option_copied result ≡ find (is_named inst) self.now }
    {
        match place_of(self.items.as_slice(), inst) {
            Some(place) => Some(&self.items[place]),
            None => None,
        }
    }

    /// The instance that the call has of the inode.
    pub fn target(&self, call: CallId, ino: u16) -> Option<&Instance>
        ensures { option_copied result ≡ find (is_target call ino) self.now }
    {
        match target_of(self.items.as_slice(), call, ino) {
            Some(place) => Some(&self.items[place]),
            None => None,
        }
    }

    /// What has become of the instance of this name.
    pub fn work(&mut self, inst: Serial, work: Work)
        ensures { self.new ≡ change_first (is_named inst) (worked work) self.old }
    {
        if let Some(place) = place_of(self.items.as_slice(), inst) {
            let instance = &mut self.items[place];
            instance.work = work;
        }
    }

    /// The writer of the file at the site has committed.
    pub fn commit(&mut self, file: FileId, site: u8, stamp: Stamp)
        ensures { self.new ≡ change_first (is_writer file site) (once_committed stamp) self.old }
    {
        if let Some(place) = writer_of(self.items.as_slice(), file, site) {
            let instance = &mut self.items[place];
            instance.work.last = Some(stamp);
            instance.work.committed = Some(stamp);
            instance.work.owes = false;
            instance.work.fresh = true;
            instance.work.changed.clear();
        }
    }

    /// Takes the instance of this name away.
    pub fn remove(&mut self, inst: Serial)
        ensures { self.new ≡ without_first (is_named inst) self.old }
    {
        if let Some(place) = place_of(self.items.as_slice(), inst) {
            self.items.remove(place);
        }
    }
}

fn place_of(instances: &[Instance], inst: Serial) -> Option<usize>
    ensures place { result ≡ position_from (is_named inst) 0 instances.now }
    ensures within { IfSome result (λ place. place < length instances.now) }
{
    instances
        .iter()
        .position(|instance| instance.grant.inst == inst)
}

fn target_of(instances: &[Instance], call: CallId, ino: u16) -> Option<usize>
    ensures place { result ≡ position_from (is_target call ino) 0 instances.now }
    ensures within { IfSome result (λ place. place < length instances.now) }
{
    instances.iter().position(|instance| instance.grant.call == call
        && instance.grant.file.ino == ino)
}

fn writer_of(instances: &[Instance], file: FileId, site: u8) -> Option<usize>
    ensures place { result ≡ position_from (is_writer file site) 0 instances.now }
    ensures within { IfSome result (λ place. place < length instances.now) }
{
    instances.iter().position(|instance| {
        instance.grant.file == file && (instance.grant.ss == site && !is_read(instance.grant.mode))
    })
}

fn is_read(mode: Mode) -> bool
    ensures { result ≡ is_read mode }
{
    matches!(mode, Mode::Read)
}
