ghost use Rattle.circuits.specs.Circuits.{circuit_of};
ghost use Rattle.std.specs.Prelude.{◌≡◌, ◌≢◌, ◌<◌, ◌≤◌, ◌+◌, ◌++◌, length, slice_range, Err, OnOk, OnErr};
ghost use Rattle.wire_messages.specs.Packets.{IsPacket};
ghost use Rattle.wire_messages.specs.declared.packet.Packet.{Packet};

use crate::MailFault;
use circuits::circuit_of;
use locus_ids::{Bytes, SiteId};

/// The bytes of packets that a run may send.
pub const MOST_BYTES: usize = 134_217_728;

/// Where the numbers of the sender and of the receiver stand.
const SENDER_AT: usize = 2;

const RECEIVER_AT: usize = 7;

/// Adds the bytes of packets to a log, or, after a fault, none.
pub fn put_letters(log: &mut Bytes, letters: &[u8]) -> Result<(), MailFault>
    requires { length log.old ≤ 134217728 }
    ensures ok { OnOk result (log.new ≡ log.old ++ letters.now) }
    ensures err { OnErr result (log.new ≡ log.old) }
    ensures room { OnOk result (length log.new ≤ 134217728) }
    ensures full { result ≡ Err MailFault.Full → 134217728 < length log.old + length letters.now }
    ensures fits { result ≢ Err MailFault.Unfit }
{
    if letters.len() > MOST_BYTES - log.len() {
        return Err(MailFault::Full);
    }
    match log.append(letters) {
        Ok(()) => Ok(()),
        Err(_) => Err(MailFault::NoMemory),
    }
}

/// The bytes between two places.
pub fn part(log: &[u8], start: usize, end: usize) -> &[u8]
    requires order { start ≤ end }
    requires within { end ≤ length log.now }
    ensures { result.now ≡ slice_range log.now start end }
{
    &log[start..end]
}

/// The circuit of the packet that these bytes are.
pub fn circuit_of_letter(bytes: &[u8]) -> u8
    ensures { (p : Packet) → IsPacket bytes.now p → result ≡ circuit_of p.from p.to }
{
    let (Some(sender), Some(receiver)) = (bytes.get(SENDER_AT), bytes.get(RECEIVER_AT)) else {
        return 0;
    };
    let (Some(from), Some(to)) = (SiteId::new(*sender), SiteId::new(*receiver)) else {
        return 0;
    };
    circuit_of(from, to)
}
