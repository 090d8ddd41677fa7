ghost use Rattle.std.specs.Prelude.{◌≡◌, ◌<◌, ◌≤◌, [], length, slice_get, slice_set, filter, insert, IfSome, OnOk, MatchResult, None};
ghost use Rattle.std.specs.Option.{option_copied};
ghost use Rattle.role_steps.specs.Mends.{is_dir};
ghost use Rattle.role_steps.specs.Tables.{row, with_row};
ghost use Rattle.role_steps.specs.Versions.{row_ino};
ghost use Rattle.role_steps.specs.declared.synchronizing.FileRow.{FileRow};
ghost use Rattle.keyed_tables.specs.Rising.{Rising};
ghost use Rattle.css_versions.specs.Known.{reported_row, published_row, noted_rows};
ghost use Rattle.css_versions.specs.Lists.{found_rows, lags};

use crate::KnownFile;
use crate::lists::{Listed, Lists, add, settle};
use keyed_tables::{SortedTable, find, place_in};
use locus_ids::sizes::SITES;
use locus_ids::{Kind, Members, NoMemory, SiteId, Sites, Stamp};
use std::alloc::Global;
use std::marker::Model;
use wire_messages::{MadeVersion, ReportedCopy};

/// The files of a group that are known, by inode, ascending, with lists of those that have a member that lags, among the
/// members of one epoch, and of the directories.
#[derive(Drop)]
pub struct Files {
    rows: Vec<KnownFile>,
    lists: Lists,
}

impl Model for Files {
    ghost use Rattle.std.specs.Prelude.{List};
    ghost use Rattle.role_steps.specs.declared.synchronizing.FileRow.{FileRow};
    ghost use Rattle.role_steps.specs.Versions.{row_ino};
    ghost use Rattle.keyed_tables.specs.Rising.{Rising};

    ghost Value = { List FileRow };

    ghost view = { λ f. f.rows.items };

    ghost use Rattle.std.specs.Prelude.{◌≡◌};
    ghost use Rattle.css_versions.specs.Lists.{directories_of, late_of};

    ghost invariant = { λ f. Rising row_ino f.rows.items × (f.lists.late ≡ late_of f.lists.members f.rows.items) × (f.lists.directories ≡ directories_of f.rows.items) };
}

impl Files {
    /// No files. What the table takes later comes from this allocator.
    pub fn new(alloc: Global) -> Files
        ensures { result ≡ [] }
    {
        Files {
            rows: Vec::new(alloc),
            lists: Lists {
                members: Members { boot: [0; SITES] },
                late: SortedTable::new(alloc),
                directories: SortedTable::new(alloc),
            },
        }
    }

    /// While no file is known, the members of the epoch are told.
    pub fn expect(&mut self, members: &Members)
        ensures { self.new ≡ self.old }
    {
        if self.rows.is_empty() {
            self.lists.members = *members;
        }
    }

    /// The files that have a member that lags, the one of the least inode first, or `None` where other members were told.
    pub fn late(&self, members: &Members) -> Option<&[Listed]>
        ensures { IfSome result (λ late. found_rows self.now late.now ≡ filter (lags members.now) self.now) }
    {
        if self.lists.members == *members {
            Some(self.lists.late.as_slice())
        } else {
            None
        }
    }

    /// The directories, the one of the least inode first.
    pub fn directories(&self) -> &[Listed]
        ensures { found_rows self.now result.now ≡ filter (λ (r : FileRow). is_dir r.kind) self.now }
    {
        self.lists.directories.as_slice()
    }

    /// All files, the one of the least inode first.
    pub fn as_slice(&self) -> &[KnownFile]
        ensures { result.now ≡ self.now }
    {
        self.rows.as_slice()
    }

    /// What is known of a file.
    pub fn find(&self, ino: u16) -> Option<&KnownFile>
        ensures { option_copied result ≡ row row_ino ino self.now }
    {
        find(self.rows.as_slice(), u64::from(ino))
    }

    /// A member's pack reports what it holds of a file.
    pub fn report(&mut self, from: SiteId, copy: &ReportedCopy) -> Result<(), NoMemory>
        ensures { OnOk result (self.new ≡ with_row row_ino (reported_row from copy.now (row row_ino copy.now.ino self.old)) self.old) }
    {
        match place_of(self.rows.as_slice(), copy.ino) {
            Ok(place) => {
                let file = &mut self.rows[place];
                let changed = file.report(from, copy);
                settle(&mut self.rows, &mut self.lists, place, changed)?;
                Ok(())
            }
            Err(place) => {
                let alloc = *self.rows.allocator();
                let mut file = KnownFile::new(alloc, copy.ino, copy.kind, copy.set);
                file.report(from, copy)?;
                add(&mut self.rows, &mut self.lists, place, file)?;
                Ok(())
            }
        }
    }

    /// A storage site has made a version of a file, whose kind and set stand here in case that the file isn't known yet.
    pub fn publish(
        &mut self,
        ss: SiteId,
        ino: u16,
        kind: Kind,
        set: Sites,
        made: &MadeVersion,
    ) -> Result<(), NoMemory>
        ensures { OnOk result (self.new ≡ with_row row_ino (published_row ss ino kind set made.now (row row_ino ino self.old)) self.old) }
    {
        match place_of(self.rows.as_slice(), ino) {
            Ok(place) => {
                let file = &mut self.rows[place];
                let changed = file.publish(ss, made);
                settle(&mut self.rows, &mut self.lists, place, changed)?;
                Ok(())
            }
            Err(place) => {
                let alloc = *self.rows.allocator();
                let mut file = KnownFile::new(alloc, ino, kind, set);
                file.publish(ss, made)?;
                add(&mut self.rows, &mut self.lists, place, file)?;
                Ok(())
            }
        }
    }

    /// A site tells which version of a file it holds.
    pub fn note(&mut self, from: SiteId, ino: u16, stamp: Stamp) -> Result<(), NoMemory>
        ensures { OnOk result (self.new ≡ noted_rows from stamp (row row_ino ino self.old) self.old) }
    {
        match place_of(self.rows.as_slice(), ino) {
            Ok(place) => {
                let file = &mut self.rows[place];
                let changed = file.note(from, stamp);
                settle(&mut self.rows, &mut self.lists, place, changed)?;
                Ok(())
            }
            Err(_) => Ok(()),
        }
    }
}

/// Where the row of a file stands, or where it would come.
fn place_of(rows: &[KnownFile], ino: u16) -> Result<usize, usize>
    requires rising { Rising row_ino rows.now }
    ensures row { MatchResult result (λ i. (i < length rows.now) × (row row_ino ino rows.now ≡ slice_get rows.now i)) (λ i. (i ≤ length rows.now) × (row row_ino ino rows.now ≡ None)) }
    ensures with { (x : FileRow) → row_ino x ≡ ino → MatchResult result (λ i. with_row row_ino x rows.now ≡ slice_set rows.now i x) (λ i. with_row row_ino x rows.now ≡ insert rows.now i x) }
{
    place_in(rows, u64::from(ino))
}
