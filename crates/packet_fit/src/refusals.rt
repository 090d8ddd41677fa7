ghost use Rattle.std.specs.Prelude.{◌↔◌, IsTrue};
ghost use Rattle.field_codec.specs.Codec.{pair, u16};
ghost use Rattle.field_codec.specs.Shapes.{IsInRange};
ghost use Rattle.wire_fields.specs.Parts.{sites, processes, inodes, stamps};
ghost use Rattle.wire_fields.specs.Refusals.{refusal_fields};

use crate::fields::{is_component_field, is_inode, is_process, is_site, is_stamp};
use locus_ids::{Refusal, Stamp};

fn is_user(site: u8, process: u8) -> bool
    ensures { IsTrue result ↔ (pair sites processes).Fits (site, process) }
{
    is_site(site) && is_process(process)
}

fn are_stamps(a: Stamp, b: Stamp) -> bool
    ensures { IsTrue result ↔ (pair stamps stamps).Fits (a, b) }
{
    is_stamp(a) && is_stamp(b)
}

fn are_inodes(a: u16, b: u16) -> bool
    ensures { IsTrue result ↔ (pair inodes inodes).Fits (a, b) }
{
    is_inode(a) && is_inode(b)
}

fn are_pages(needed: u16, free: u16) -> bool
    ensures { IsTrue result ↔ (pair u16 u16).Fits (needed, free) }
{
    needed <= 65_535 && free <= 65_535
}

/// A refusal that one site gives another.
pub fn is_refusal(why: &Refusal) -> bool
    ensures { IsTrue result ↔ IsInRange (refusal_fields why.now) }
{
    match why {
        Refusal::Busy { site, process } => is_user(*site, *process),
        Refusal::Absent { name } => is_component_field(name),
        Refusal::Exists { ino } => is_inode(*ino),
        Refusal::NotEmpty { name } => is_component_field(name),
        Refusal::Conflict { a, b } => are_stamps(*a, *b),
        Refusal::Ambiguous { a, b } => are_inodes(*a, *b),
        Refusal::NoSpace { needed, free } => are_pages(*needed, *free),
        Refusal::NoStorage => true,
        Refusal::TooLong => true,
        Refusal::NoInode => true,
        Refusal::Spent => true,
        Refusal::NoConflict => true,
        Refusal::NotDir { .. } => false,
        Refusal::IsDir => false,
        Refusal::NoPartition => false,
        Refusal::Changed { .. } => false,
        Refusal::BadDescriptor => false,
        Refusal::Stale { .. } => false,
        Refusal::BadName => false,
        Refusal::ReadOnly => false,
        Refusal::NoDescriptor => false,
    }
}
