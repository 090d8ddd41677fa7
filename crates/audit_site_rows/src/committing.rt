ghost use Rattle.std.specs.Prelude.{◌≡◌, IfOk};
ghost use Rattle.std.specs.List.{list_any};
ghost use Rattle.commit_graph.specs.Versions.{same_stamp};
ghost use Rattle.commit_graph.specs.Counters.{next_number};
ghost use Rattle.promises.specs.Rows.{may_commit};
ghost use Rattle.audit_site_rows.specs.Rows.{AreApart, commits_in};

use crate::adopting::home_of;
use audit_past::Told;
use audit_past::audit_acts::parents_of;
use audit_past::audit_epochs::EpochRow;
use audit_row_parts::{Commit, commits_so, is_stamped, only_writer};
use locus_ids::{FileId, NoMemory};
use std::alloc::Global;

/// A version is committed by the one open instance of its file that isn't only read, which owes it, at its storage site: its
/// working content, on the parents that it stands on, with the site's next number.
pub fn may_commit(
    alloc: Global,
    told: &Told,
    file: FileId,
    commit: &Commit<'_>,
) -> Result<bool, NoMemory>
    requires apart { AreApart told.now.epochs }
    ensures { IfOk result (λ yes. yes ≡ list_any (may_commit told.now file commit.now.site commit.now.stamp commit.now.parents.now commit.now.content.now) told.now.epochs) }
{
    let home = home_of(told, commit.site);
    match told.epochs().home(home) {
        Some(row) => commits(alloc, told, row, file, commit),
        None => Ok(false),
    }
}

fn commits(
    alloc: Global,
    told: &Told,
    row: &EpochRow,
    file: FileId,
    commit: &Commit<'_>,
) -> Result<bool, NoMemory>
    ensures { IfOk result (λ yes. yes ≡ commits_in told.now file commit.now.site commit.now.stamp commit.now.parents.now commit.now.content.now row.now) }
{
    match only_writer(row.opened(), file) {
        Some(writer) => {
            let stands_on = parents_of(alloc, told.versions(), row.known(), writer)?;
            let stamped = has_next_stamp(told, file, commit);
            Ok(commits_so(writer, commit, stands_on.as_slice(), stamped))
        }
        None => Ok(false),
    }
}

/// The stamp has the next number of the site.
fn has_next_stamp(told: &Told, file: FileId, commit: &Commit<'_>) -> bool
    ensures { result ≡ same_stamp commit.now.stamp (record { site = commit.now.site; n = next_number told.now.history file commit.now.parents.now commit.now.site }) }
{
    let next = told
        .versions()
        .next_number(file, commit.parents, commit.site);
    is_stamped(commit.stamp, commit.site, next)
}
