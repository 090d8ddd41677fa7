use crate::HeaderLine;
use trace_book::Call;
use trace_book::locus_ids::SiteId;

/// What a stop within a disk call leaves of the ranges that are not synced.
#[derive(Clone, Copy, PartialEq, Eq)]
pub enum Leave {
    Old,
    New,
    /// Every byte of them is this.
    Byte { byte: u8 },
}

/// A line that says what happens.
#[derive(Drop)]
pub enum Line {
    Call {
        site: SiteId,
        process: u8,
        call: Call,
    },
    /// Packets are numbered from 1, in the order of sending.
    Deliver {
        packet: u32,
    },
    Lose {
        packet: u32,
    },
    Tick {
        site: SiteId,
    },
    /// The circuit between the two sites is cut.
    Down {
        one: SiteId,
        other: SiteId,
    },
    /// The circuit between the two sites is mended.
    Up {
        one: SiteId,
        other: SiteId,
    },
    Part {
        site: SiteId,
    },
    Merge {
        site: SiteId,
    },
    GiveUp {
        site: SiteId,
    },
    Stop {
        site: SiteId,
    },
    /// So many disk calls pass, and the next one stops the site.
    ArmStop {
        site: SiteId,
        calls: u32,
        leave: Leave,
    },
    /// So many disk calls pass, and the next one fails.
    ArmFail {
        site: SiteId,
        calls: u32,
    },
    Boot {
        site: SiteId,
    },
    /// One round of ticks, and so many deliveries at most.
    Settle {
        most: u32,
    },
    Pending,
}

/// A line of a schedule.
#[derive(Drop)]
pub enum ScheduleLine {
    /// An empty line or a comment.
    Passed,
    Header { header: HeaderLine },
    Event { event: Line },
}
