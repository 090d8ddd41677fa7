// Where an accepted call begins, by the descriptors of its process.
ghost use Rattle.std.specs.Prelude.{◌≡◌};
ghost use Rattle.call_rules.specs.Descriptors.{beginning, lowest_free};
ghost use Rattle.waiting_calls.specs.Numbered.{numbered};

use call_scripts::{
    begins_change, begins_close, begins_open, begins_read, begins_walk, is_past_greatest,
};
use keyed_tables::{SortedTable, descriptor_key};
use locus_ids::sizes::DESCRIPTORS;
use locus_ids::{CallId, EpochId, Refusal};
use role_steps::DescriptorRow;
use trace_book::{Beginning, Call, Descriptor};

/// What an open descriptor of the process stands for.
pub fn descriptor(rows: &SortedTable<DescriptorRow>, process: u8, fd: u16) -> Option<Descriptor>
    ensures { result ≡ numbered rows.now process fd }
{
    match rows.find(descriptor_key(process, fd)) {
        Some(row) => Some(row.descriptor),
        None => None,
    }
}

/// The lowest free of the 16 descriptors of the process.
#[tactic(auto, using(crate::proofs::Free::free_here, crate::proofs::Free::free_later))]
pub fn lowest_free(rows: &SortedTable<DescriptorRow>, process: u8) -> Option<u16>
    ensures { result ≡ lowest_free (numbered rows.now process) }
{
    for fd in 0..DESCRIPTORS {
        if descriptor(rows, process, fd).is_none() {
            return Some(fd);
        }
    }
    None
}

/// Where an accepted call of this name begins, by the descriptors of its process and the epoch that the site is in.
pub fn begins_call(
    rows: &SortedTable<DescriptorRow>,
    now: Option<EpochId>,
    process: u8,
    call: CallId,
    words: &Call,
) -> Beginning
    ensures { result ≡ beginning (numbered rows.now process) now call words.now }
{
    match words {
        Call::Open { path: _, mode: _ } => begins_open(now, call, lowest_free(rows, process)),
        Call::Read { fd, at: _, len: _ } => begins_read(now, descriptor(rows, process, *fd)),
        Call::Write { fd, at, bytes } => {
            if is_past_greatest(*at, bytes.as_slice()) {
                return Beginning::Denied {
                    why: Refusal::TooLong,
                };
            }
            begins_change(now, descriptor(rows, process, *fd))
        }
        Call::Cut { fd, len: _ } => begins_change(now, descriptor(rows, process, *fd)),
        Call::Commit { fd } => begins_change(now, descriptor(rows, process, *fd)),
        Call::Abort { fd } => begins_change(now, descriptor(rows, process, *fd)),
        Call::Close { fd } => begins_close(now, descriptor(rows, process, *fd)),
        _ => begins_walk(now, call),
    }
}
