ghost use Rattle.std.specs.Prelude.{◌≡◌, ◌<◌, ◌+◌, ◌==◌, ◌&&◌, ◌||◌, not, filter, length, IfSome};
ghost use Rattle.std.specs.List.{position_from};
ghost use Rattle.std.specs.Option.{option_copied};
ghost use Rattle.commit_graph.specs.Grants.{is_read};
ghost use Rattle.commit_graph.specs.Versions.{same_stamp};
ghost use Rattle.tree_model.specs.Same.{same_version};
ghost use Rattle.promises.specs.Rows.{is_writing};
ghost use Rattle.audit_row_parts.specs.Parts.{commits_so, commits_work, may_end, only_of};

use audit_instances::{InstanceRow, Instances};
use audit_same::same_stamps;
use locus_ids::{FileId, Mode, Stamp};
use operation_effects::OpenWork;
use tree_tables::same_version;

fn is_read(mode: Mode) -> bool
    ensures { result ≡ is_read mode }
{
    matches!(mode, Mode::Read)
}

/// The instance is of the file, and isn't only read.
fn may_write(row: &InstanceRow, file: FileId) -> bool
    ensures { result ≡ is_writing file row.now }
{
    let grant = row.grant();
    grant.file == file && !is_read(grant.mode)
}

fn writer_in(rows: &[InstanceRow], file: FileId) -> Option<usize>
    ensures place { result ≡ position_from (is_writing file) 0 rows.now }
    ensures within { IfSome result (λ place. place < length rows.now) }
{
    rows.iter().position(|row| may_write(row, file))
}

/// The only open instance of the file that isn't only read; none where there are none or several.
pub fn only_writer(opened: &Instances, file: FileId) -> Option<&InstanceRow>
    ensures { option_copied result ≡ only_of (filter (is_writing file) opened.now) }
{
    let rows = opened.as_slice();
    let Some(place) = writer_in(rows, file) else {
        return None;
    };
    if writer_in(&rows[place + 1..], file).is_some() {
        return None;
    }
    Some(&rows[place])
}

/// A version as a record of a commit tells it.
#[derive(Clone, Copy)]
pub struct Commit<'a> {
    pub site: u8,
    pub stamp: Stamp,
    pub parents: &'a [Stamp],
    pub content: &'a [u8],
}

/// The instance owes a commit of this, which stands on these parents, where its stamp is the right one.
pub fn commits_so(row: &InstanceRow, told: &Commit<'_>, stands_on: &[Stamp], stamped: bool) -> bool
    ensures { result ≡ commits_so told.now.site told.now.parents.now told.now.content.now stands_on.now stamped row.now }
{
    row.grant().ss == told.site && commits_work(row.work(), told, stands_on, stamped)
}

fn commits_work(work: &OpenWork, told: &Commit<'_>, stands_on: &[Stamp], stamped: bool) -> bool
    ensures { result ≡ commits_work told.now.parents.now told.now.content.now stands_on.now stamped work.now }
{
    work.owes
        && told.content == work.content.as_slice()
        && same_stamps(told.parents, stands_on)
        && stamped
}

/// The stamp has the number that the site gives next.
pub fn is_stamped(stamp: Stamp, site: u8, next: u64) -> bool
    ensures { result ≡ same_stamp stamp (record { site = site; n = next }) }
{
    stamp.site == site && u64::from(stamp.n) == next
}

/// The instance may end where a counter that it must raise has its greatest value or not: this is its last version, and it owes no
/// commit, or one that can't be made.
pub fn may_end(row: &InstanceRow, file: FileId, stamp: Option<Stamp>, spent: bool) -> bool
    ensures { result ≡ may_end file stamp spent row.now }
{
    row.grant().file == file && may_end_so(row.work(), stamp, spent)
}

fn may_end_so(work: &OpenWork, stamp: Option<Stamp>, spent: bool) -> bool
    ensures { result ≡ (same_version stamp work.now.committed && (not work.now.owes || spent)) }
{
    same_version(stamp, work.committed) && (!work.owes || spent)
}

/// The operation of this number is the next of the instance.
pub fn is_next(row: &InstanceRow, n: u32) -> bool
    ensures { result ≡ (n == row.now.work.ops + 1) }
{
    is_above(row.work(), n)
}

fn is_above(work: &OpenWork, n: u32) -> bool
    ensures { result ≡ (n == work.now.ops + 1) }
{
    n > 0 && n - 1 == work.ops
}
