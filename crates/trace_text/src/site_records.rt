// What a trace tells of sites, epochs and packets, as text at the end.
ghost use Rattle.std.specs.Prelude.{◌≡◌, ℕ, List, ◌++◌, OnOk};
ghost use Rattle.trace_book.specs.Text.{record_text};
ghost use Rattle.trace_book.specs.declared.record.Record.TheVariants.{Up, Stopped, Leave, Join, Start, Packet};

use crate::lists::{push_copies, push_members};
use crate::phrases::{
    push_next_epoch, push_next_number, push_word_epoch, push_word_number, push_word_numbers,
};
use crate::pieces::{push_cause, push_epoch, push_number};
use crate::requests::push_packet_kind;
use locus_ids::{Bytes, EpochId, Members, NoMemory};
use trace_book::{BroughtList, PacketKind, StopCause};

pub fn push_up(out: &mut Bytes, site: u8, boot: u32) -> Result<(), NoMemory>
    ensures { OnOk result (out.new ≡ out.old ++ record_text (Up site boot)) }
{
    push_word_numbers(out, b"up ", site as u32, boot)
}

pub fn push_stopped(out: &mut Bytes, site: u8, cause: StopCause) -> Result<(), NoMemory>
    ensures { OnOk result (out.new ≡ out.old ++ record_text (Stopped site cause)) }
{
    push_word_number(out, b"stopped ", site as u32)?;
    out.push(b' ')?;
    push_cause(out, cause)
}

pub fn push_leave(out: &mut Bytes, site: u8, epoch: EpochId) -> Result<(), NoMemory>
    ensures { OnOk result (out.new ≡ out.old ++ record_text (Leave site epoch)) }
{
    push_word_number(out, b"leave ", site as u32)?;
    push_next_epoch(out, epoch)
}

pub fn push_join(
    out: &mut Bytes,
    site: u8,
    epoch: EpochId,
    members: &Members,
) -> Result<(), NoMemory>
    ensures { OnOk result (out.new ≡ out.old ++ record_text (Join site epoch members.now)) }
{
    out.append(b"join ")?;
    push_number(out, u32::from(site))?;
    out.append(b" ")?;
    push_epoch(out, epoch)?;
    out.append(b" ")?;
    push_members(out, members)
}

pub fn push_start(
    out: &mut Bytes,
    epoch: EpochId,
    group: u8,
    copies: &BroughtList,
) -> Result<(), NoMemory>
    ensures { OnOk result (out.new ≡ out.old ++ record_text (Start epoch group copies.now)) }
{
    push_word_epoch(out, b"start ", epoch)?;
    push_next_number(out, group as u32)?;
    push_copies(out, copies.as_slice())
}

pub fn push_packet(
    out: &mut Bytes,
    number: u32,
    from: u8,
    to: u8,
    kind: PacketKind,
) -> Result<(), NoMemory>
    ensures { OnOk result (out.new ≡ out.old ++ record_text (Packet number from to kind)) }
{
    push_word_numbers(out, b"packet ", number, from as u32)?;
    push_next_number(out, to as u32)?;
    out.push(b' ')?;
    push_packet_kind(out, kind)
}
