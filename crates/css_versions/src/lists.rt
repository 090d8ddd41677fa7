ghost use Rattle.std.specs.Prelude.{◌≡◌, ◌<◌, ◌≤◌, [], true, length, get_or, insert, OnOk, OnErr};
ghost use Rattle.std.specs.Result.{is_ok};
ghost use Rattle.role_steps.specs.declared.synchronizing.FileRow.{FileRow};
ghost use Rattle.css_versions.specs.Lists.{joined, marked, settled};

use crate::KnownFile;
use keyed_tables::{Keyed, SortedTable};
use locus_ids::{Members, NoMemory};

/// A file that is listed, by its inode.
#[derive(Clone, Copy)]
pub struct Listed {
    pub ino: u16,
}

impl Keyed for Listed {
    ghost use Rattle.css_versions.specs.Lists.{listed_ino};

    ghost key = { listed_ino };

    fn key(&self) -> u64 {
        u64::from(self.ino)
    }
}

/// Which files of a group have a member that lags, among the members of one epoch, and which are directories.
#[derive(Drop)]
pub(crate) struct Lists {
    pub(crate) members: Members,
    pub(crate) late: SortedTable<Listed>,
    pub(crate) directories: SortedTable<Listed>,
}

/// A file stands in the list exactly where it is to.
fn mark(list: &mut SortedTable<Listed>, is_in: bool, file: &KnownFile) -> Result<(), NoMemory>
    ensures { OnOk result (list.new ≡ marked is_in file.now list.old) }
{
    if is_in {
        return list.put(Listed { ino: file.ino() });
    }
    list.remove(u64::from(file.ino()));
    Ok(())
}

/// Lists the file at this place again, once it was changed. Where there was no memory, no file stays.
pub(crate) fn settle(
    rows: &mut Vec<KnownFile>,
    lists: &mut Lists,
    place: usize,
    changed: Result<(), NoMemory>,
) -> Result<(), NoMemory>
    requires { place < length rows.old.items }
    ensures was { OnOk result (is_ok changed ≡ true) }
    ensures rows { OnOk result (rows.new.items ≡ rows.old.items) }
    ensures lists { OnOk result ((r : FileRow) → r ≡ get_or rows.old.items place r → lists.new ≡ settled r lists.old) }
    ensures no_rows { OnErr result (rows.new.items ≡ []) }
    ensures none_late { OnErr result (lists.new.late ≡ []) }
    ensures no_directories { OnErr result (lists.new.directories ≡ []) }
{
    let done = match changed {
        Ok(()) => mark_late(lists, &rows[place]),
        Err(fault) => Err(fault),
    };
    if done.is_err() {
        rows.clear();
        lists.late.clear();
        lists.directories.clear();
    }
    done
}

/// A file is listed where it has a member that lags.
fn mark_late(lists: &mut Lists, file: &KnownFile) -> Result<(), NoMemory>
    ensures { OnOk result (lists.new ≡ settled file.now lists.old) }
{
    let lags = file.lags(&lists.members);
    mark(&mut lists.late, lags, file)
}

/// A file more. Where there was no memory, no file stays.
pub(crate) fn add(
    rows: &mut Vec<KnownFile>,
    lists: &mut Lists,
    place: usize,
    file: KnownFile,
) -> Result<(), NoMemory>
    requires { place ≤ length rows.old.items }
    ensures rows { OnOk result (rows.new.items ≡ insert rows.old.items place file) }
    ensures lists { OnOk result (lists.new ≡ joined file lists.old) }
    ensures no_rows { OnErr result (rows.new.items ≡ []) }
    ensures none_late { OnErr result (lists.new.late ≡ []) }
    ensures no_directories { OnErr result (lists.new.directories ≡ []) }
{
    let done = bring(rows, lists, place, file);
    if done.is_err() {
        rows.clear();
        lists.late.clear();
        lists.directories.clear();
    }
    done
}

/// A file comes to its place, and is listed where it has a member that lags, and where it is a directory.
fn bring(
    rows: &mut Vec<KnownFile>,
    lists: &mut Lists,
    place: usize,
    file: KnownFile,
) -> Result<(), NoMemory>
    requires { place ≤ length rows.old.items }
    ensures rows { OnOk result (rows.new.items ≡ insert rows.old.items place file) }
    ensures lists { OnOk result (lists.new ≡ joined file lists.old) }
{
    mark_late(lists, &file)?;
    mark(&mut lists.directories, file.is_directory(), &file)?;
    rows.insert(place, file)?;
    Ok(())
}
