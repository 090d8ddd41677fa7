// The known versions of one file.
ghost use Rattle.std.specs.List.{list_any};
ghost use Rattle.std.specs.Prelude.{◌≡◌, ◌≤◌, [], ◌∷◌, length, true, IfOk, OnOk, OnErr};
ghost use Rattle.commit_graph.specs.Versions.{is_stamp_below};
ghost use Rattle.past_laws.specs.of_promises.After.{is_copy_below, with_known};
ghost use Rattle.past_laws.specs.Agreement.{ascends};
ghost use Rattle.audit_copies.specs.Below.{IsSplit, is_version_of, stands_at};

use crate::CopyRow;
use locus_ids::{FileId, NoMemory, Stamp};
use std::alloc::Global;
use std::marker::Model;

/// The known versions of one file, ascending. A version is found by halving.
#[derive(Drop)]
pub(crate) struct FileRows {
    file: FileId,
    rows: Vec<CopyRow>,
}

impl Model for FileRows {
    ghost use Rattle.audit_copies.specs.Files.{FileCopies};

    ghost Value = { FileCopies };

    ghost view = { λ f. record { file = f.file; copies = f.rows.items } };
}

impl FileRows {
    /// One version alone.
    pub(crate) fn of(alloc: Global, copy: CopyRow) -> Result<FileRows, NoMemory>
        ensures { IfOk result (λ made. made ≡ record { file = copy.file; copies = copy ∷ [] }) }
    {
        let mut rows = Vec::new(alloc);
        rows.push(copy)?;
        Ok(FileRows {
            file: copy.file,
            rows,
        })
    }

    pub(crate) fn file(&self) -> FileId
        ensures { result ≡ self.now.file }
    {
        self.file
    }

    pub(crate) fn as_slice(&self) -> &[CopyRow]
        ensures { result.now ≡ self.now.copies }
    {
        self.rows.as_slice()
    }

    /// One more version is known. After `NoMemory` the list is as it was.
    pub(crate) fn note(&mut self, copy: CopyRow) -> Result<(), NoMemory>
        requires { ascends is_copy_below self.old.copies ≡ true }
        ensures ok { OnOk result (self.new ≡ record self.old { copies = with_known copy self.old.copies }) }
        ensures err { OnErr result (self.new ≡ self.old) }
    {
        let rows = self.rows.as_slice();
        let place = place_of(rows, copy);
        if is_there(rows, place, copy) {
            return Ok(());
        }
        self.rows.insert(place, copy)?;
        Ok(())
    }
}

/// A version is among these.
pub(crate) fn has_copy(rows: &[CopyRow], copy: CopyRow) -> bool
    requires { ascends is_copy_below rows.now ≡ true }
    ensures { result ≡ list_any (is_version_of copy) rows.now }
{
    is_there(rows, place_of(rows, copy), copy)
}

/// How many versions are below this one.
fn place_of(rows: &[CopyRow], copy: CopyRow) -> usize
    ensures within { result ≤ length rows.now }
    ensures split { ascends is_copy_below rows.now ≡ true → IsSplit (λ v. is_copy_below v copy) rows.now result }
{
    rows.partition_point(|row| is_copy_below(*row, copy))
}

/// At its place one stands that isn't above the version.
fn is_there(rows: &[CopyRow], place: usize, copy: CopyRow) -> bool
    ensures { result ≡ stands_at rows.now place copy }
{
    place < rows.len() && !is_copy_below(copy, rows[place])
}

fn is_copy_below(a: CopyRow, b: CopyRow) -> bool
    ensures { result ≡ is_copy_below a b }
{
    a.file.group < b.file.group
        || (a.file.group == b.file.group
            && (a.file.ino < b.file.ino
                || (a.file.ino == b.file.ino && is_stamp_below(a.stamp, b.stamp))))
}

fn is_stamp_below(a: Stamp, b: Stamp) -> bool
    ensures { result ≡ is_stamp_below a b }
{
    a.site < b.site || (a.site == b.site && a.n < b.n)
}
