ghost use Rattle.std.specs.Prelude.{◌≡◌, ◌∷◌, [], map, OnOk, OnErr, IfOk};
ghost use Rattle.call_rules.specs.Walks.{root_of};
ghost use Rattle.locus_ids.specs.declared.ids.Kind.TheVariants.{Dir};
ghost use Rattle.tree_model.specs.Packs.{packs_of};
ghost use Rattle.promises.specs.Past.{Making, groups};
ghost use Rattle.audit_sites.specs.Files.{said_of, is_made};

use key_places::{Places, file_key};
use locus_ids::{Config, FileId, Kind, NoMemory, Sites};
use std::alloc::Global;
use std::marker::Model;
use tree_tables::packs_of;

/// What the call that made a file said: its kind, and the sites that it is for.
#[derive(Clone, Copy)]
pub struct MakingRow {
    pub file: FileId,
    pub kind: Kind,
    pub set: Sites,
}

impl Model for MakingRow {
    ghost use Rattle.promises.specs.Past.{Making};

    ghost Value = { Making };

    ghost view = { λ m. record { file = m.file; kind = m.kind; set = m.set } };

    ghost inverse = { λ m. record { file = m.file; kind = m.kind; set = m.set } };
}

/// What the calls that made files said, the earliest first. A file is found at once.
#[derive(Drop)]
pub struct Makings {
    rows: Vec<MakingRow>,
    places: Places,
}

impl Model for Makings {
    ghost use Rattle.std.specs.Prelude.{◌≡◌, List, map, reverse};
    ghost use Rattle.key_places.specs.Keys.{file_key};
    ghost use Rattle.promises.specs.Past.{Making};

    ghost Value = { List Making };

    ghost view = { λ t. reverse t.rows.items };

    ghost invariant = { λ t. t.places ≡ map (λ (m : Making). file_key m.file) (reverse t.rows.items) };
}

/// The root directory of the group is for all its packs.
fn first_making(config: &Config, group: u8) -> MakingRow
    ensures { result ≡ record { file = root_of group; kind = Dir; set = packs_of config.now group } }
{
    MakingRow {
        file: FileId { group, ino: 1 },
        kind: Kind::Dir,
        set: packs_of(config, group),
    }
}

impl Makings {
    /// No file is made. What is taken later comes from this allocator.
    fn none(alloc: Global) -> Makings
        ensures { result ≡ [] }
    {
        Makings {
            rows: Vec::new(alloc),
            places: Places::new(alloc),
        }
    }

    /// The root directories, as the format makes them.
    pub fn new(alloc: Global, config: &Config) -> Result<Makings, NoMemory>
        ensures { IfOk result (λ made. made ≡ map (λ group. record { file = root_of group; kind = Dir; set = packs_of config.now group }) groups) }
    {
        let mut made = Makings::none(alloc);
        made.add(&first_making(config, 3))?;
        made.add(&first_making(config, 2))?;
        made.add(&first_making(config, 1))?;
        made.add(&first_making(config, 0))?;
        Ok(made)
    }

    /// What the call that made the file said; of one that none has made, a plain file for no site.
    pub fn said_of(&self, file: FileId) -> MakingRow
        ensures { result ≡ said_of self.now file }
    {
        match self.places.place(&file_key(file)) {
            Some(place) => self.rows[place],
            None => MakingRow {
                file,
                kind: Kind::File,
                set: Sites(0),
            },
        }
    }

    /// A call has made the file.
    pub fn is_made(&self, file: FileId) -> bool
        ensures { result ≡ is_made self.now file }
    {
        self.places.place(&file_key(file)).is_some()
    }

    /// One more call has said what it made.
    pub fn add(&mut self, making: &MakingRow) -> Result<(), NoMemory>
        ensures ok { OnOk result (self.new ≡ making.now ∷ self.old) }
        ensures err { OnErr result (self.new ≡ self.old) }
    {
        self.rows.push(*making)?;
        match self.places.push(file_key(making.file)) {
            Ok(_) => Ok(()),
            Err(e) => {
                self.rows.pop();
                Err(e)
            }
        }
    }
}
