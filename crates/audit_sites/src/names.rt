ghost use Rattle.std.specs.Prelude.{◌≡◌, ◌==◌, ◌&&◌, Some, cond, not, filter};
ghost use Rattle.std.specs.List.{find};
ghost use Rattle.std.specs.Option.{option_map};
ghost use Rattle.promises.specs.Past.{Named};
ghost use Rattle.promises.specs.After.{change, held_by, is_freed};

use std::marker::Model;
use trace_book::{Call, Descriptor};

/// What a number of a process stands for.
#[derive(Clone, Copy)]
pub(crate) struct NamedDescriptor {
    pub(crate) process: u8,
    pub(crate) fd: u16,
    pub(crate) names: Descriptor,
}

impl Model for NamedDescriptor {
    ghost use Rattle.promises.specs.Past.{Named};

    ghost Value = { Named };

    ghost view = { λ d. record { process = d.process; fd = d.fd; names = d.names } };

    ghost inverse = { λ d. record { process = d.process; fd = d.fd; names = d.names } };
}

fn is_of(row: &NamedDescriptor, process: u8, fd: u16) -> bool
    ensures { result ≡ ((row.now.process == process) && (row.now.fd == fd)) }
{
    row.process == process && row.fd == fd
}

fn names_of(row: &NamedDescriptor) -> Descriptor
    ensures { result ≡ row.now.names }
{
    row.names
}

/// What the number of the process stands for among these.
pub(crate) fn named_in(rows: &[NamedDescriptor], process: u8, fd: u16) -> Option<Descriptor>
    ensures { result ≡ option_map (λ (d : Named). d.names) (find (λ (d : Named). (d.process == process) && (d.fd == fd)) rows.now) }
{
    for row in rows {
        if is_of(row, process, fd) {
            return Some(names_of(row));
        }
    }
    None
}

/// The number of the process is held by the instance that this opening stands for, and keeps its version.
pub(crate) fn hold_again(rows: &mut [NamedDescriptor], process: u8, fd: u16, opening: Descriptor)
    ensures { rows.new ≡ change (λ (d : Named). (d.process == process) && (d.fd == fd)) (held_by (Some opening)) rows.old }
{
    for row in rows.iter_mut() {
        hold_row(row, process, fd, opening);
    }
}

fn hold_row(row: &mut NamedDescriptor, process: u8, fd: u16, opening: Descriptor)
    ensures { row.new ≡ cond ((row.old.process == process) && (row.old.fd == fd)) (held_by (Some opening) row.old) row.old }
{
    if is_of(row, process, fd) {
        row.names = Descriptor {
            mode: opening.mode,
            epoch: opening.epoch,
            inst: opening.inst,
            steady: row.names.steady,
        };
    }
}

fn drop_number(rows: &mut Vec<NamedDescriptor>, process: u8, fd: u16)
    ensures { rows.new.items ≡ filter (λ (d : Named). not ((d.process == process) && (d.fd == fd))) rows.old.items }
{
    rows.retain(|row| !is_of(row, process, fd));
}

/// The number that the call frees stands for nothing, where it is a close.
pub(crate) fn free(rows: &mut Vec<NamedDescriptor>, process: u8, words: &Call)
    ensures { rows.new.items ≡ filter (λ (d : Named). not (is_freed words.now process d)) rows.old.items }
{
    match words {
        Call::Close { fd } => drop_number(rows, process, *fd),
        _ => {}
    }
}
