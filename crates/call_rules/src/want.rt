use trace_book::locus_ids::{FileId, Kind, Serial, Sites};
use trace_book::{Op, OpenMode, Reply, What};

/// What a call asks next, or the reply that it is given.
#[derive(Drop)]
pub enum Want {
    Look {
        file: FileId,
        what: What,
    },
    Open {
        file: FileId,
        mode: OpenMode,
    },
    /// A directory is opened to be mended.
    OpenToMend {
        file: FileId,
    },
    /// A new file of the group. `sites` are those that get a pack's copy; all packs of the group where it is left out.
    Make {
        group: u8,
        kind: Kind,
        sites: Option<Sites>,
    },
    Do {
        inst: Serial,
        op: Op,
    },
    Close {
        inst: Serial,
    },
    Give {
        reply: Reply,
    },
    /// The requests of this call are not answered so.
    Never,
}
