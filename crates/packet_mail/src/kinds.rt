ghost use Rattle.std.specs.Prelude.{◌≡◌, slice_index};
ghost use Rattle.packet_mail.specs.Kinds.{kind_numbered};

use trace_book::PacketKind;

/// Where the number of the kind stands.
const KIND_AT: usize = 1;

/// The kind of this number, from 1; the last one for any number past it.
fn kind_numbered(number: u8) -> PacketKind
    ensures { result ≡ kind_numbered number }
{
    match number {
        1 => PacketKind::Poll,
        2 => PacketKind::Promise,
        3 => PacketKind::Refuse,
        4 => PacketKind::Install,
        5 => PacketKind::Joined,
        6 => PacketKind::Report,
        7 => PacketKind::ReportOk,
        8 => PacketKind::Open,
        9 => PacketKind::OpenSs,
        10 => PacketKind::Opened,
        11 => PacketKind::OpenDone,
        12 => PacketKind::Op,
        13 => PacketKind::OpDone,
        14 => PacketKind::Close,
        15 => PacketKind::Closed,
        16 => PacketKind::ClosedOk,
        17 => PacketKind::CloseDone,
        18 => PacketKind::Look,
        19 => PacketKind::LookSs,
        20 => PacketKind::LookDone,
        21 => PacketKind::Notify,
        22 => PacketKind::Pull,
        23 => PacketKind::Page,
        24 => PacketKind::Have,
        25 => PacketKind::Want,
        _ => PacketKind::Delta,
    }
}

/// The kind of the packet that these bytes are.
pub fn kind_of_letter(bytes: &[u8]) -> PacketKind
    ensures { result ≡ kind_numbered (slice_index bytes.now 1) }
{
    match bytes.get(KIND_AT) {
        Some(number) => kind_numbered(*number),
        None => PacketKind::Delta,
    }
}
