ghost use Rattle.std.specs.Prelude.{◌≡◌, ◌==◌, ◌&&◌, ◌++◌, ◌∷◌, [], cond, filter, IfOk, OnOk, OnErr};
ghost use Rattle.std.specs.Option.{is_none};
ghost use Rattle.tree_model.specs.Packs.{has_pack};
ghost use Rattle.tree_model.specs.State.{call_in, copy_of, instance_in, process_of, with_all};
ghost use Rattle.tree_model.specs.Tree.{committed_at, grant_of, granted, has_now, joined, left, published, opened, released, with_root, without_made, without_make};
ghost use Rattle.tree_steps.specs.Answers.{brought_with};

use crate::TreeTables;
use crate::opening::is_make;
use crate::working::{begins_owing, content_at};
use commit_graph::History;
use file_effects::Work;
use locus_ids::{Brought, CallId, FileId, ItemList, Members, Mode, NoMemory, Serial, Stamp};
use std::alloc::Global;
use trace_book::Call;
use tree_model::{AcceptedCall, Granted, HeldCopy, Instance};
use tree_tables::{call_in, has_pack, note, note_copies, with_first, without_number};

/// The root directory as a pack is formatted with it.
const FORMATTED: Stamp = Stamp { site: 0, n: 0 };

impl TreeTables {
    /// A site isn't in the epoch any longer.
    pub fn leave(&mut self, site: u8) -> Result<(), NoMemory>
        ensures ok { OnOk result (self.new ≡ left site self.old) }
        ensures err { OnErr result (self.new ≡ self.old) }
    {
        let alloc = self.allocator();
        self.inside = without_number(alloc, self.inside.as_slice(), site)?;
        Ok(())
    }

    /// A site joins the epoch.
    pub fn join(&mut self, site: u8, members: &Members) -> Result<(), NoMemory>
        ensures ok { OnOk result (self.new ≡ joined site members.now self.old) }
        ensures err { OnErr result (self.new ≡ self.old) }
    {
        let alloc = self.allocator();
        let inside = with_first(alloc, self.inside.as_slice(), site)?;
        let known = self.known_with(site)?;
        self.add_root(site)?;
        self.copies.enter(site);
        self.inside = inside;
        self.known = known;
        self.members = Some(*members);
        Ok(())
    }

    /// The site has a pack, and no version of the root directory yet.
    fn lacks_root(&self, site: u8) -> bool
        ensures { result ≡ (has_pack self.now.config self.now.group site && is_none (copy_of self.now.copies site 1)) }
    {
        has_pack(&self.config, self.group, site) && self.copies.find(site, 1).is_none()
    }

    /// The root directory of the format, where the site has a pack and no version of it yet.
    fn add_root(&mut self, site: u8) -> Result<(), NoMemory>
        ensures ok { OnOk result (self.new ≡ record self.old { copies = with_root self.old site }) }
        ensures err { OnErr result (self.new ≡ self.old) }
    {
        if self.lacks_root(site) {
            self.copies.push(HeldCopy {
                site,
                ino: 1,
                now: FORMATTED,
                held: None,
            })?;
        }
        Ok(())
    }

    /// The known versions, with those that a site brings where it has a pack.
    fn known_with(&self, site: u8) -> Result<ItemList<Brought>, NoMemory>
        ensures { IfOk result (λ made. made ≡ cond (has_pack self.now.config self.now.group site) (brought_with self.now site) self.now.known) }
    {
        if has_pack(&self.config, self.group, site) {
            self.brought_with(site)
        } else {
            self.known.copy()
        }
    }

    /// The known versions, with those that a site has, and the root directory of the format where it stands.
    #[tactic(auto, using(crate::proofs::Bringing::brings_the_root, crate::proofs::Bringing::brings_no_root))]
    fn brought_with(&self, site: u8) -> Result<ItemList<Brought>, NoMemory>
        ensures { IfOk result (λ made. made ≡ brought_with self.now site) }
    {
        let mut made = self.known.copy()?;
        note_copies(&mut made, site, self.copies.as_slice())?;
        if self.lacks_root(site) {
            let root = Brought {
                ino: 1,
                stamp: FORMATTED,
            };
            note(&mut made, root)?;
            return Ok(made);
        }
        Ok(made)
    }

    /// A call is accepted.
    pub fn accept(&mut self, call: CallId, process: u8, words: &Call) -> Result<(), NoMemory>
        ensures ok { OnOk result (self.new ≡ record self.old { calls = self.old.calls ++ record { call = call; process = process; words = words.now } ∷ [] }) }
        ensures err { OnErr result (self.new ≡ self.old) }
    {
        let words = words.copy()?;
        self.calls.push(AcceptedCall {
            call,
            process,
            words,
        })
    }

    /// A site has committed or adopted a version of a file.
    pub fn has_now(&mut self, file: FileId, site: u8, stamp: Stamp) -> Result<(), NoMemory>
        ensures ok { OnOk result (self.new ≡ has_now file site stamp self.old) }
        ensures err { OnErr result (self.new ≡ self.old) }
    {
        if file.group != self.group {
            return Ok(());
        }
        let held = if self.is_inside(site) {
            Some(stamp)
        } else {
            self.held_at(site, file.ino)
        };
        self.copies.put(HeldCopy {
            site,
            ino: file.ino,
            now: stamp,
            held,
        })
    }

    /// A version is on the disk of its site.
    pub fn commit(&mut self, file: FileId, site: u8, stamp: Stamp) -> Result<(), NoMemory>
        ensures ok { OnOk result (self.new ≡ committed_at file site stamp (has_now file site stamp self.old)) }
        ensures err { OnErr result (self.new ≡ self.old) }
    {
        self.has_now(file, site, stamp)?;
        if self.is_inside(site) {
            self.instances.commit(file, site, stamp);
        }
        Ok(())
    }

    /// The process of an accepted call.
    fn process_of(&self, call: CallId) -> u8
        ensures { result ≡ process_of (call_in self.now.calls call) }
    {
        match call_in(self.calls.as_slice(), call) {
            Some(accepted) => accepted.process,
            None => 0,
        }
    }

    /// What a grant fixes.
    fn grant_of(&self, call: CallId, inst: Serial, mode: Mode, file: FileId, ss: u8) -> Granted
        ensures { result ≡ grant_of self.now call inst mode file ss }
    {
        Granted {
            inst,
            call,
            process: self.process_of(call),
            mode,
            file,
            ss,
        }
    }

    /// An instance of the epoch is granted.
    pub fn grant(
        &mut self,
        h: &History,
        call: CallId,
        inst: Serial,
        mode: Mode,
        file: FileId,
        stamp: Option<Stamp>,
        ss: u8,
    ) -> Result<(), NoMemory>
        ensures ok { OnOk result (self.new ≡ granted h.now (grant_of self.old call inst mode file ss) stamp self.old) }
        ensures err { OnErr result (self.new ≡ self.old) }
    {
        let grant = self.grant_of(call, inst, mode, file, ss);
        if file.group != self.group {
            return self.grants.push(grant);
        }
        let instance = opened(self.allocator(), h, grant, stamp)?;
        self.instances.push(instance)?;
        let noted = self.grants.push(grant);
        if noted.is_err() {
            self.instances.pop();
        }
        noted
    }

    /// A make of the group is refused.
    pub fn refuse_make(&mut self, call: CallId) -> Result<(), NoMemory>
        ensures ok { OnOk result (self.new ≡ record self.old { makes = without_make call self.old.makes }) }
        ensures err { OnErr result (self.new ≡ self.old) }
    {
        let alloc = self.allocator();
        self.makes = without_make(alloc, self.makes.as_slice(), call)?;
        Ok(())
    }

    /// An instance of the group ends.
    pub fn release(
        &mut self,
        inst: Serial,
        file: FileId,
        stamp: Option<Stamp>,
    ) -> Result<(), NoMemory>
        ensures ok { OnOk result (self.new ≡ released inst file stamp self.old) }
        ensures err { OnErr result (self.new ≡ self.old) }
    {
        let makes = self.makes_without(inst)?;
        publish(&mut self.known, file, stamp)?;
        self.makes = makes;
        self.instances.remove(inst);
        Ok(())
    }

    /// The makes underway, without that of an instance.
    fn makes_without(&self, inst: Serial) -> Result<ItemList<CallId>, NoMemory>
        ensures { IfOk result (λ made. made ≡ without_made (instance_in self.now inst) self.now.makes) }
    {
        match self.instances.named(inst) {
            Some(instance) if is_make(instance.grant.mode) => {
                without_make(self.allocator(), self.makes.as_slice(), instance.grant.call)
            }
            _ => self.makes.copy(),
        }
    }
}

/// An instance as it is granted.
fn opened(
    alloc: Global,
    h: &History,
    grant: Granted,
    stamp: Option<Stamp>,
) -> Result<Instance, NoMemory>
    ensures { IfOk result (λ made. made ≡ opened h.now grant stamp) }
{
    let content = content_at(alloc, h, grant.file, stamp)?;
    Ok(Instance {
        grant,
        work: Work {
            ops: 0,
            content,
            owes: begins_owing(grant.mode),
            last: stamp,
            committed: None,
            fresh: false,
            changed: ItemList::new(alloc),
        },
    })
}

fn publish(
    known: &mut ItemList<Brought>,
    file: FileId,
    stamp: Option<Stamp>,
) -> Result<(), NoMemory>
    ensures ok { OnOk result (known.new ≡ published file stamp known.old) }
    ensures err { OnErr result (known.new ≡ known.old) }
{
    match stamp {
        Some(stamp) => note(
            known,
            Brought {
                ino: file.ino,
                stamp,
            },
        ),
        None => Ok(()),
    }
}

/// The calls but this one.
fn without_make(alloc: Global, makes: &[CallId], call: CallId) -> Result<ItemList<CallId>, NoMemory>
    ensures { IfOk result (λ made. made ≡ without_make call makes.now) }
{
    let mut made = ItemList::new(alloc);
    for other in makes {
        if *other != call {
            made.push(*other)?;
        }
    }
    Ok(made)
}
