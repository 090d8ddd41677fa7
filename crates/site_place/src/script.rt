ghost use Rattle.std.specs.Prelude.{◌≡◌};
ghost use Rattle.std.specs.Option.{option_map};
ghost use Rattle.the_run.specs.Worlds.{cause_of};
ghost use Rattle.site_disk.specs.Run.{as_leave};
ghost use Rattle.cut_gates.specs.Cuts.{cut_of};
ghost use Rattle.site_place.specs.Places.{cut_by};

use disk_model::Leave as DiskLeave;
use locus_ids::SiteId;
use schedule_lines::Leave;
use trace_book::StopCause;

/// How a disk call is cut off: the site stops in it, or it fails.
#[derive(Clone, Copy, PartialEq, Eq)]
pub enum CallCut {
    Stops { leave: Leave },
    Fails,
}

/// So many disk calls of a site pass, and the next one is cut off.
#[derive(Clone, Copy)]
pub struct DiskScript {
    pub site: SiteId,
    pub left: u32,
    pub how: CallCut,
}

/// What a line leaves, as a disk has it.
pub(crate) fn disk_leave(leave: Leave) -> DiskLeave
    ensures { result ≡ as_leave leave }
{
    match leave {
        Leave::Old => DiskLeave::Old,
        Leave::New => DiskLeave::New,
        Leave::Byte { byte } => DiskLeave::Byte(byte),
    }
}

/// What the call that is cut off so leaves, where the site stops in it.
pub(crate) fn leave_of(how: CallCut) -> Option<Leave>
    ensures { cut_of result ≡ cut_by how }
{
    match how {
        CallCut::Stops { leave } => Some(leave),
        CallCut::Fails => None,
    }
}

/// Why a site stops whose disk call is cut off so.
pub(crate) fn cause_of(how: CallCut) -> StopCause
    ensures { result ≡ cause_of (cut_by how) }
{
    match how {
        CallCut::Stops { .. } => StopCause::Fuse,
        CallCut::Fails => StopCause::Fault,
    }
}

/// The script with so many calls left.
pub(crate) fn with_left(armed: Option<DiskScript>, left: u32) -> Option<DiskScript>
    ensures { result ≡ option_map (λ (x : DiskScript). record x { left = left }) armed }
{
    match armed {
        Some(script) => Some(DiskScript { left, ..script }),
        None => None,
    }
}
