// Which copies are known to have no removed entry.
ghost use Rattle.std.specs.Prelude.{◌≡◌, true, false, IfOk};
ghost use Rattle.locus_ids.specs.declared.ids.FileId.{FileId};
ghost use Rattle.site_packs.specs.Live.{is_marked, mark_place, MarkedBy};

use locus_ids::sizes::INODES;
use locus_ids::{FileId, NoMemory};
use std::alloc::Global;
use std::marker::Model;

/// The number of marks: for each of four groups one more than there are inodes, which are numbered from 1.
const MARKS: usize = 4_100;

/// A mark for each inode of each group. It is set where the copy is known to be a directory of live entries alone, so that nobody
/// reads it again to look for removed ones.
#[derive(Drop)]
pub(crate) struct LiveMarks {
    marks: Vec<bool>,
}

impl Model for LiveMarks {
    ghost use Rattle.std.specs.Prelude.{List, Bool};

    ghost Value = { List Bool };

    ghost view = { λ m. m.marks.items };
}

impl LiveMarks {
    /// No mark is set.
    pub(crate) fn none(alloc: Global) -> Result<LiveMarks, NoMemory>
        ensures { IfOk result (λ made. (file : FileId) → is_marked made file ≡ false) }
    {
        let mut marks = Vec::new(alloc);
        marks.resize(MARKS, false)?;
        Ok(LiveMarks { marks })
    }

    /// The mark of a file.
    pub(crate) fn has(&self, file: FileId) -> bool
        ensures { result ≡ is_marked self.now file }
    {
        let place = place_of(file);
        file.ino <= INODES && place < self.marks.len() && self.marks[place]
    }

    /// Sets the mark of a file.
    pub(crate) fn set(&mut self, file: FileId, mark: bool)
        ensures { (other : FileId) → is_marked self.new other ≡ true → MarkedBy self.old file mark other }
    {
        let place = place_of(file);
        if file.ino <= INODES && place < self.marks.len() {
            self.marks[place] = mark;
        }
    }
}

/// Where the mark of a file stands.
fn place_of(file: FileId) -> usize
    ensures { result ≡ mark_place file }
{
    usize::from(file.group) * (INODES as usize + 1) + usize::from(file.ino)
}
