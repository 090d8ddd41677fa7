use locus_ids::NoMemory;
use packet_mail::MailFault;
use thiserror::Error;

/// Why an event is not in the book.
#[derive(Clone, Copy, Debug, Error)]
pub enum BookFault {
    #[error("no memory")]
    NoMemory,
    /// A packet of the event is not one of the format.
    #[error("no packet of the format")]
    Unfit,
}

impl From<NoMemory> for BookFault {
    fn from(_: NoMemory) -> BookFault {
        BookFault::NoMemory
    }
}

impl From<MailFault> for BookFault {
    fn from(_: MailFault) -> BookFault {
        BookFault::NoMemory
    }
}

/// The limit that an event passed.
#[derive(Clone, Copy, Debug)]
pub enum Passed {
    Packets,
    Bytes,
    Trace,
}
