use crate::{Call, Op, Outcome, PacketKind, Reply, Served, What};
pub use locus_ids::Brought;
use locus_ids::{
    Bytes, CallId, EpochId, FileId, ItemList, Members, Mode, Refusal, Serial, Stamp, Stamps,
};

/// Versions that a group starts with.
pub type BroughtList = ItemList<Brought>;

/// Why a site stopped.
#[derive(Clone, Copy)]
pub enum StopCause {
    /// By a line.
    Asked,
    /// Within a disk call, as a line had armed.
    Fuse,
    /// A disk call failed.
    Fault,
}

/// What a trace tells of one moment.
#[derive(Drop)]
pub enum Record {
    /// A site boots.
    Up {
        site: u8,
        boot: u32,
    },
    Stopped {
        site: u8,
        cause: StopCause,
    },
    /// A site leaves its epoch.
    Leave {
        site: u8,
        epoch: EpochId,
    },
    Join {
        site: u8,
        epoch: EpochId,
        members: Members,
    },
    /// A group starts, with these versions brought.
    Start {
        epoch: EpochId,
        group: u8,
        copies: BroughtList,
    },
    /// A call is accepted.
    Accept {
        site: u8,
        process: u8,
        call: CallId,
        words: Call,
    },
    Look {
        epoch: EpochId,
        call: CallId,
        request: u16,
        file: FileId,
        what: What,
        result: Served,
    },
    Grant {
        epoch: EpochId,
        call: CallId,
        request: u16,
        inst: Serial,
        mode: Mode,
        file: FileId,
        stamp: Option<Stamp>,
        /// The storage site.
        ss: u8,
    },
    /// An open is refused. The inode of a make is 0.
    Refuse {
        epoch: EpochId,
        call: CallId,
        request: u16,
        inst: Serial,
        mode: Mode,
        file: FileId,
        why: Refusal,
    },
    /// A storage site executes an operation, numbered from 1 in its instance.
    Act {
        epoch: EpochId,
        inst: Serial,
        n: u32,
        op: Op,
        result: Outcome,
    },
    /// A version is on the disk.
    Commit {
        file: FileId,
        site: u8,
        stamp: Stamp,
        parents: Stamps,
        content: Bytes,
    },
    /// An instance ends, and its last version is published.
    Release {
        epoch: EpochId,
        inst: Serial,
        file: FileId,
        stamp: Option<Stamp>,
    },
    /// A propagated version is on the disk.
    Adopt {
        file: FileId,
        site: u8,
        stamp: Stamp,
    },
    /// A call is answered.
    Answer {
        site: u8,
        process: u8,
        call: CallId,
        reply: Reply,
    },
    /// A packet that is neither delivered nor lost.
    Packet {
        number: u32,
        from: u8,
        to: u8,
        kind: PacketKind,
    },
    /// The line has no effect.
    Void,
    /// A round ended by its budget of deliveries.
    Budget,
}
