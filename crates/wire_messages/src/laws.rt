ghost use Rattle.wire_messages.specs.Packets.{BeginsNoOther};

/// No packet's bytes are the beginning of another's.
pub fn no_packet_begins_another()
    ensures { BeginsNoOther }
{}
