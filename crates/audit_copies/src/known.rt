ghost use Rattle.std.specs.List.{list_all, list_any};
ghost use Rattle.std.specs.Prelude.{◌≡◌, ◌==◌, ◌<◌, ◌≤◌, ◌&&◌, ◌++◌, [], cond, map, filter, length, true, IfSome, IfOk, OnOk, OnErr};
ghost use Rattle.commit_graph.specs.Versions.{is_stamp_below, same_file};
ghost use Rattle.audit_versions.specs.Keeping.{ascend, has_number, tops};
ghost use Rattle.past_laws.specs.of_promises.Past.{Copy};
ghost use Rattle.past_laws.specs.of_promises.After.{is_copy_below, with_known, with_all_known};
ghost use Rattle.past_laws.specs.Agreement.{ascends};
ghost use Rattle.audit_copies.specs.Below.{is_file_below, is_version_of};
ghost use Rattle.audit_copies.specs.Files.{AreByFile, copies_of, file_count, is_file_at, with_copy};

use crate::CopyRow;
use crate::file_rows::{FileRows, has_copy};
use crate::site_ends::{are_numbered, tops_of};
use locus_ids::{FileId, ItemList, NoMemory, Stamps};
use std::alloc::Global;
use std::marker::Model;

/// The versions that are known, ascending, each once. They stand file by file; a file is found by halving, and a version of it.
#[derive(Drop)]
pub struct Known {
    files: Vec<FileRows>,
}

impl Model for Known {
    ghost use Rattle.std.specs.Prelude.{List};
    ghost use Rattle.past_laws.specs.of_promises.Past.{Copy};

    ghost Value = { List Copy };

    ghost use Rattle.audit_copies.specs.Files.{AreByFile, all_copies};

    ghost view = { λ k. all_copies k.files.items };

    ghost invariant = { λ k. AreByFile k.files.items };
}

impl Known {
    /// No version. What the list takes later comes from this allocator.
    pub fn new(alloc: Global) -> Known
        ensures { result ≡ [] }
    {
        Known {
            files: Vec::new(alloc),
        }
    }

    /// One more version is known. After `NoMemory` the list is as it was.
    pub fn note(&mut self, copy: CopyRow) -> Result<(), NoMemory>
        ensures ok { OnOk result (self.new ≡ with_known copy self.old) }
        ensures err { OnErr result (self.new ≡ self.old) }
    {
        note_in(&mut self.files, copy)?;
        Ok(())
    }

    /// All these versions are known.
    pub fn note_all(&mut self, copies: &[CopyRow]) -> Result<(), NoMemory>
        ensures { OnOk result (self.new ≡ with_all_known copies.now self.old) }
    {
        for copy in copies {
            self.note(*copy)?;
        }
        Ok(())
    }

    /// The known versions of a file, ascending.
    fn of_file(&self, file: FileId) -> &[CopyRow]
        ensures found { result.now ≡ filter (λ (v : Copy). same_file v.file file) self.now }
        ensures up { ascends is_copy_below result.now ≡ true }
        ensures stamps { ascends is_stamp_below (map (λ (v : Copy). v.stamp) result.now) ≡ true }
    {
        of_file(self.files.as_slice(), file)
    }

    /// The version is known.
    pub fn has(&self, copy: CopyRow) -> bool
        ensures { result ≡ list_any (is_version_of copy) self.now }
    {
        has_copy(self.of_file(copy.file), copy)
    }

    /// The known versions of a file, ascending.
    pub fn candidates(&self, alloc: Global, file: FileId) -> Result<Stamps, NoMemory>
        ensures { IfOk result (λ made. made ≡ map (λ (v : Copy). v.stamp) (filter (λ (v : Copy). same_file v.file file) self.now)) }
    {
        stamps_of(alloc, self.of_file(file))
    }

    /// The known versions of a file ascend, as they always do, and each site's are numbered from 1 on, which its first one tells.
    pub fn are_in_order(&self, file: FileId) -> bool
        ensures { result ≡ (ascend (map (λ (v : Copy). v.stamp) (filter (λ (v : Copy). same_file v.file file) self.now)) && list_all has_number (map (λ (v : Copy). v.stamp) (filter (λ (v : Copy). same_file v.file file) self.now))) }
    {
        are_numbered(self.of_file(file))
    }

    /// Of the known versions of a file the last of each site. Each is found by halving.
    pub fn tops(&self, alloc: Global, file: FileId) -> Result<Stamps, NoMemory>
        ensures { IfOk result (λ made. made ≡ tops (map (λ (v : Copy). v.stamp) (filter (λ (v : Copy). same_file v.file file) self.now))) }
    {
        tops_of(alloc, self.of_file(file))
    }

    /// The known versions of a group, ascending. Its first file is found by halving.
    pub fn of_group(&self, alloc: Global, group: u8) -> Result<ItemList<CopyRow>, NoMemory>
        ensures { IfOk result (λ made. made ≡ filter (λ (v : Copy). v.file.group == group) self.now) }
    {
        let mut made = ItemList::new(alloc);
        let files = self.files.as_slice();
        for place in place_of(files, FileId { group, ino: 0 })..files.len() {
            let rows = &files[place];
            if group < rows.file().group {
                return Ok(made);
            }
            add_of_group(&mut made, rows, group)?;
        }
        Ok(made)
    }
}

/// One more version is known of its file. After `NoMemory` the files are as they were.
fn note_in(files: &mut Vec<FileRows>, copy: CopyRow) -> Result<(), NoMemory>
    requires { AreByFile files.old.items }
    ensures ok { OnOk result (files.new.items ≡ with_copy copy files.old.items) }
    ensures err { OnErr result (files.new.items ≡ files.old.items) }
{
    let place = place_of(files.as_slice(), copy.file);
    if is_at(files.as_slice(), place, copy.file) {
        return note_at(files, place, copy);
    }
    let rows = FileRows::of(*files.allocator(), copy)?;
    files.insert(place, rows)?;
    Ok(())
}

/// One more version is known of the file at this place.
fn note_at(files: &mut Vec<FileRows>, place: usize, copy: CopyRow) -> Result<(), NoMemory>
    requires there { is_file_at files.old.items place copy.file ≡ true }
    requires count { place ≡ file_count copy.file files.old.items }
    requires order { AreByFile files.old.items }
    ensures ok { OnOk result (files.new.items ≡ with_copy copy files.old.items) }
    ensures err { OnErr result (files.new.items ≡ files.old.items) }
{
    let rows = &mut files[place];
    rows.note(copy)?;
    Ok(())
}

/// How many files are below this one.
fn place_of(files: &[FileRows], file: FileId) -> usize
    ensures within { result ≤ length files.now }
    ensures count { AreByFile files.now → result ≡ file_count file files.now }
{
    files.partition_point(|rows| is_file_below(rows.file(), file))
}

/// The file stands at this place.
fn is_at(files: &[FileRows], place: usize, file: FileId) -> bool
    ensures { result ≡ is_file_at files.now place file }
{
    if files.len() <= place {
        return false;
    }
    is_same(files[place].file(), file)
}

fn is_same(a: FileId, b: FileId) -> bool
    ensures { result ≡ same_file a b }
{
    a == b
}

/// The versions of a file.
fn of_file(files: &[FileRows], file: FileId) -> &[CopyRow]
    requires { AreByFile files.now }
    ensures { result.now ≡ copies_of file files.now }
{
    let place = place_of(files, file);
    if is_at(files, place, file) {
        files[place].as_slice()
    } else {
        &[]
    }
}

/// Adds the versions of a file that is of the group.
fn add_of_group(made: &mut ItemList<CopyRow>, rows: &FileRows, group: u8) -> Result<(), NoMemory>
    ensures { OnOk result (made.new ≡ made.old ++ cond (rows.now.file.group == group) rows.now.copies []) }
{
    if rows.file().group != group {
        return Ok(());
    }
    add_all(made, rows.as_slice())
}

fn add_all(made: &mut ItemList<CopyRow>, rows: &[CopyRow]) -> Result<(), NoMemory>
    ensures { OnOk result (made.new ≡ made.old ++ rows.now) }
{
    for row in rows {
        made.push(*row)?;
    }
    Ok(())
}

fn stamps_of(alloc: Global, rows: &[CopyRow]) -> Result<Stamps, NoMemory>
    ensures { IfOk result (λ made. made ≡ map (λ (v : Copy). v.stamp) rows.now) }
{
    let mut made = Stamps::new(alloc);
    for row in rows {
        made.push(row.stamp)?;
    }
    Ok(made)
}

fn is_file_below(a: FileId, b: FileId) -> bool
    ensures { result ≡ is_file_below a b }
{
    a.group < b.group || (a.group == b.group && a.ino < b.ino)
}
