ghost use Rattle.std.specs.Prelude.{◌≡◌, ◌<◌, ◌++◌, List, [], ◌∷◌, length, map, IfSome, OnOk, OnErr};
ghost use Rattle.std.specs.List.{position_from, find};
ghost use Rattle.tree_model.specs.State.{copy_of, is_copy_of, with_copy};
ghost use Rattle.tree_model.specs.Tree.{entered};

use locus_ids::NoMemory;
use std::alloc::Global;
use std::marker::Model;
use tree_model::HeldCopy;

/// What sites have of the files of a group, with one entry for each site and inode.
#[derive(Drop)]
pub struct Copies {
    rows: Vec<HeldCopy>,
}

impl Model for Copies {
    ghost use Rattle.std.specs.Prelude.{List};
    ghost use Rattle.tree_model.specs.declared.copy.HeldCopy.{HeldCopy};

    ghost Value = { List HeldCopy };

    ghost view = { λ s. s.rows.items };
}

impl Copies {
    pub fn new(alloc: Global) -> Copies
        ensures { result ≡ [] }
    {
        Copies {
            rows: Vec::new(alloc),
        }
    }

    pub fn as_slice(&self) -> &[HeldCopy]
        ensures { result.now ≡ self.now }
    {
        self.rows.as_slice()
    }

    /// What the site has of the inode.
    pub fn find(&self, site: u8, ino: u16) -> Option<HeldCopy>
        ensures { result ≡ copy_of self.now site ino }
    {
        find_copy(self.rows.as_slice(), site, ino)
    }

    /// The copy in place of the one of its site and inode. After `NoMemory` all is as it was.
    pub fn put(&mut self, row: HeldCopy) -> Result<(), NoMemory>
        ensures ok { OnOk result (self.new ≡ with_copy row self.old) }
        ensures err { OnErr result (self.new ≡ self.old) }
    {
        match place_of(self.rows.as_slice(), row.site, row.ino) {
            Some(place) => {
                self.rows[place] = row;
                Ok(())
            }
            None => {
                self.rows.push(row)?;
                Ok(())
            }
        }
    }

    /// The copy after all others. After `NoMemory` all is as it was.
    pub fn push(&mut self, row: HeldCopy) -> Result<(), NoMemory>
        ensures ok { OnOk result (self.new ≡ self.old ++ row ∷ []) }
        ensures err { OnErr result (self.new ≡ self.old) }
    {
        self.rows.push(row)?;
        Ok(())
    }

    /// The site joins the epoch with what it has now.
    pub fn enter(&mut self, site: u8)
        ensures { self.new ≡ map (entered site) self.old }
    {
        for row in self.rows.iter_mut() {
            *row = entered(*row, site);
        }
    }
}

fn entered(row: HeldCopy, site: u8) -> HeldCopy
    ensures { result ≡ entered site row }
{
    if row.site == site {
        HeldCopy {
            held: Some(row.now),
            ..row
        }
    } else {
        row
    }
}

fn find_copy(rows: &[HeldCopy], site: u8, ino: u16) -> Option<HeldCopy>
    ensures { result ≡ find (is_copy_of site ino) rows.now }
{
    match place_of(rows, site, ino) {
        Some(place) => Some(rows[place]),
        None => None,
    }
}

fn place_of(rows: &[HeldCopy], site: u8, ino: u16) -> Option<usize>
    ensures place { result ≡ position_from (is_copy_of site ino) 0 rows.now }
    ensures within { IfSome result (λ place. place < length rows.now) }
{
    rows.iter()
        .position(|row| row.site == site && row.ino == ino)
}
