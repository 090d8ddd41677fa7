use locus_ids::NoMemory;
use thiserror::Error;

/// Why a packet is not sent.
#[derive(Clone, Copy, Debug, Error)]
pub enum MailFault {
    #[error("no memory")]
    NoMemory,
    /// There would be more packets, or more bytes of packets, than a run may send.
    #[error("the mail is full")]
    Full,
    /// A field of the packet is not one of its format.
    #[error("no packet of the format")]
    Unfit,
}

impl From<NoMemory> for MailFault {
    fn from(_: NoMemory) -> MailFault {
        MailFault::NoMemory
    }
}
