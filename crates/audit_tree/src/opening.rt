ghost use Rattle.std.specs.Prelude.{◌≡◌, ◌==◌, ◌&&◌, not, length};
ghost use Rattle.commit_graph.specs.Grants.{is_read, kept_refusal};
ghost use Rattle.commit_graph.specs.Versions.{same_stamp};
ghost use Rattle.tree_model.specs.Given.{only_kept, served_by};
ghost use Rattle.tree_model.specs.Same.{is_served, same_served};
ghost use Rattle.tree_model.specs.Working.{list_of};
ghost use Rattle.promises.specs.Same.{same_list};
ghost use Rattle.audit_tree.specs.Parts.{has_kept_among, is_given, used_among};

use audit_copies::CopyRow;
use locus_ids::sizes::SITE_INODES;
use locus_ids::{FileId, Mode, Refusal, Stamp};
use trace_book::{Served, What};
use tree_tables::{has_stamp, same_served};

/// Two instances of one file exclude each other unless both only read.
pub fn excludes(mode: Mode, other: Mode) -> bool
    ensures { result ≡ not (is_read mode && is_read other) }
{
    !(is_read(mode) && is_read(other))
}

pub fn is_read(mode: Mode) -> bool
    ensures { result ≡ is_read mode }
{
    matches!(mode, Mode::Read)
}

/// What the kept versions refuse of an open of a file that no open instance excludes.
pub fn kept_refusal(mode: Mode, kept: &[Stamp]) -> Option<Refusal>
    ensures { result ≡ kept_refusal mode kept.now }
{
    match kept {
        [] => match mode {
            Mode::Make => None,
            _ => Some(Refusal::NoStorage),
        },
        [_only] => match mode {
            Mode::Resolve => Some(Refusal::NoConflict),
            _ => None,
        },
        [a, b, ..] => match mode {
            Mode::Read | Mode::Write => Some(Refusal::Conflict { a: *a, b: *b }),
            _ => None,
        },
    }
}

/// One of these versions of the file is kept.
pub fn has_kept(copies: &[CopyRow], file: FileId, kept: &[Stamp]) -> bool
    ensures { result ≡ has_kept_among file kept.now copies.now }
{
    copies
        .iter()
        .any(|copy| copy.file == file && has_stamp(kept, copy.stamp))
}

/// The version is the only one of these, or there is none in both.
pub fn is_only(kept: &[Stamp], stamp: Option<Stamp>) -> bool
    ensures { result ≡ same_list same_stamp kept.now (list_of stamp) }
{
    match kept {
        [] => stamp.is_none(),
        [only] => match stamp {
            Some(stamp) => *only == stamp,
            None => false,
        },
        _ => false,
    }
}

/// The number is one of those that the site gives to files.
pub fn is_given(site: u8, ino: u16) -> bool
    ensures { result ≡ is_given site ino }
{
    let before = SITE_INODES as u32 * u32::from(site.saturating_sub(1));
    let ino = u32::from(ino);
    before < ino && ino <= before + SITE_INODES as u32
}

/// How many of these files of the group have numbers of the site's range.
pub fn numbers_used(copies: &[CopyRow], group: u8, site: u8) -> usize
    ensures { result ≡ length (used_among group site copies.now) }
{
    let mut used = 0;
    for copy in copies {
        if is_used(*copy, group, site) {
            used += 1;
        }
    }
    used
}

fn is_used(copy: CopyRow, group: u8, site: u8) -> bool
    ensures { result ≡ ((copy.file.group == group) && is_given site copy.file.ino) }
{
    copy.file.group == group && is_given(site, copy.file.ino)
}

/// A look that asks this is so answered where these versions are kept.
pub fn is_served(what: &What, kept: &[Stamp], served: &Served) -> bool
    ensures { result ≡ is_served (served_by what.now kept.now) served.now }
{
    match what {
        What::Whole { stamp } => {
            has_stamp(kept, *stamp) && same_served(&Served::At { stamp: *stamp }, served)
        }
        What::Name { component: _ } => is_only_kept(kept, served),
        What::List => is_only_kept(kept, served),
        What::Stat => is_only_kept(kept, served),
    }
}

/// The only kept version is served, or is told why there is none.
fn is_only_kept(kept: &[Stamp], served: &Served) -> bool
    ensures { result ≡ same_served (only_kept kept.now) served.now }
{
    let only = match kept {
        [] => Served::No {
            why: Refusal::NoStorage,
        },
        [only] => Served::At { stamp: *only },
        [a, b, ..] => Served::No {
            why: Refusal::Conflict { a: *a, b: *b },
        },
    };
    same_served(&only, served)
}
