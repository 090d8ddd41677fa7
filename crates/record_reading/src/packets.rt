ghost use Rattle.std.specs.Prelude.{◌≡◌};
ghost use Rattle.record_reading.specs.Records.{copy_packet_in, packet_in, service_packet_in};

use line_text::is_text;
use trace_book::PacketKind;

pub(crate) fn packet(word: &[u8]) -> Option<PacketKind>
    ensures { result ≡ packet_in word.now }
{
    if is_text(word, b"poll") {
        return Some(PacketKind::Poll);
    }
    if is_text(word, b"promise") {
        return Some(PacketKind::Promise);
    }
    if is_text(word, b"refuse") {
        return Some(PacketKind::Refuse);
    }
    if is_text(word, b"install") {
        return Some(PacketKind::Install);
    }
    if is_text(word, b"joined") {
        return Some(PacketKind::Joined);
    }
    if is_text(word, b"report") {
        return Some(PacketKind::Report);
    }
    if is_text(word, b"reportok") {
        return Some(PacketKind::ReportOk);
    }
    copy_packet(word)
}

/// A packet that carries what a site has.
fn copy_packet(word: &[u8]) -> Option<PacketKind>
    ensures { result ≡ copy_packet_in word.now }
{
    if is_text(word, b"look") {
        return Some(PacketKind::Look);
    }
    if is_text(word, b"lookss") {
        return Some(PacketKind::LookSs);
    }
    if is_text(word, b"lookdone") {
        return Some(PacketKind::LookDone);
    }
    if is_text(word, b"notify") {
        return Some(PacketKind::Notify);
    }
    if is_text(word, b"pull") {
        return Some(PacketKind::Pull);
    }
    if is_text(word, b"page") {
        return Some(PacketKind::Page);
    }
    if is_text(word, b"have") {
        return Some(PacketKind::Have);
    }
    if is_text(word, b"want") {
        return Some(PacketKind::Want);
    }
    if is_text(word, b"delta") {
        return Some(PacketKind::Delta);
    }
    service_packet(word)
}

/// A packet of the roles that open, read and write.
fn service_packet(word: &[u8]) -> Option<PacketKind>
    ensures { result ≡ service_packet_in word.now }
{
    if is_text(word, b"open") {
        return Some(PacketKind::Open);
    }
    if is_text(word, b"openss") {
        return Some(PacketKind::OpenSs);
    }
    if is_text(word, b"opened") {
        return Some(PacketKind::Opened);
    }
    if is_text(word, b"opendone") {
        return Some(PacketKind::OpenDone);
    }
    if is_text(word, b"op") {
        return Some(PacketKind::Op);
    }
    if is_text(word, b"opdone") {
        return Some(PacketKind::OpDone);
    }
    if is_text(word, b"close") {
        return Some(PacketKind::Close);
    }
    if is_text(word, b"closed") {
        return Some(PacketKind::Closed);
    }
    if is_text(word, b"closedok") {
        return Some(PacketKind::ClosedOk);
    }
    if is_text(word, b"closedone") {
        return Some(PacketKind::CloseDone);
    }
    None
}
