// Where an accepted call begins, by what the number that it names stands for.
ghost use Rattle.std.specs.Prelude.{◌≡◌, ◌+◌, length, nat_lt};
ghost use Rattle.locus_ids.specs.Sizes.{file_bytes_max};
ghost use Rattle.locus_ids.specs.declared.refusal.Refusal.TheVariants.{Stale};
ghost use Rattle.commit_graph.specs.Grants.{is_read};
ghost use Rattle.trace_book.specs.declared.descriptor.Beginning.TheVariants as begins;
ghost use Rattle.call_rules.specs.Descriptors.{begins_again, begins_change, begins_close, begins_open, begins_read, begins_walk, held_or, is_in};

use locus_ids::sizes::FILE_BYTES;
use locus_ids::{CallId, EpochId, Mode, Refusal};
use read_reopen::{Steady, SteadyStep};
use trace_book::{Beginning, Descriptor, OneVersion};

/// A write of these bytes would end past the greatest size.
pub fn is_past_greatest(at: u32, bytes: &[u8]) -> bool
    ensures { result ≡ nat_lt file_bytes_max (at + length bytes.now) }
{
    (FILE_BYTES as u32) < at || FILE_BYTES - (at as usize) < bytes.len()
}

/// A read by a descriptor: it is held where it is of the epoch that the site is in; one that isn't is stale, but of a steady one the version
/// is opened again.
pub fn begins_read(now: Option<EpochId>, descriptor: Option<Descriptor>) -> Beginning
    ensures { result ≡ begins_read now descriptor }
{
    let Some(descriptor) = descriptor else {
        return Beginning::Denied {
            why: Refusal::BadDescriptor,
        };
    };
    let Some(version) = descriptor.steady else {
        return uses_or_stale(now, descriptor);
    };
    match kept(now, descriptor, version).next() {
        SteadyStep::Read => uses(descriptor),
        SteadyStep::Open => begins_again(now, descriptor.epoch, version),
    }
}

/// What a steady descriptor keeps: the instance that it names holds it until its site leaves the epoch of that.
fn kept(now: Option<EpochId>, descriptor: Descriptor, version: OneVersion) -> Steady
    ensures { result.held ≡ is_in now descriptor.epoch }
{
    let mut steady = Steady {
        file: version.file,
        stamp: version.stamp,
        last: descriptor.epoch,
        held: true,
        serial: descriptor.inst.serial,
    };
    if !is_in(now, descriptor.epoch) {
        steady.leave();
    }
    steady
}

/// The version that a steady descriptor keeps is opened again: the site must be in an epoch.
fn begins_again(now: Option<EpochId>, last: EpochId, version: OneVersion) -> Beginning
    ensures { result ≡ begins_again now last version }
{
    match now {
        Some(_) => Beginning::Reopens { version, last },
        None => Beginning::Denied {
            why: Refusal::NoPartition,
        },
    }
}

/// A close: of a steady descriptor that isn't held it asks nothing.
pub fn begins_close(now: Option<EpochId>, descriptor: Option<Descriptor>) -> Beginning
    ensures { result ≡ begins_close now descriptor }
{
    let Some(descriptor) = descriptor else {
        return Beginning::Denied {
            why: Refusal::BadDescriptor,
        };
    };
    let Some(version) = descriptor.steady else {
        return uses_or_stale(now, descriptor);
    };
    match kept(now, descriptor, version).next() {
        SteadyStep::Read => uses(descriptor),
        SteadyStep::Open => Beginning::Frees,
    }
}

/// A call by a descriptor that isn't steady.
fn uses_or_stale(now: Option<EpochId>, descriptor: Descriptor) -> Beginning
    ensures { result ≡ held_or now descriptor (begins.Denied (Stale descriptor.epoch)) }
{
    if is_in(now, descriptor.epoch) {
        return uses(descriptor);
    }
    stale(descriptor)
}

/// What changes the file: no steady descriptor does, and another one must be of the epoch that the site is in and not only read.
pub fn begins_change(now: Option<EpochId>, descriptor: Option<Descriptor>) -> Beginning
    ensures { result ≡ begins_change now descriptor }
{
    let Some(descriptor) = descriptor else {
        return Beginning::Denied {
            why: Refusal::BadDescriptor,
        };
    };
    if descriptor.steady.is_some() {
        return Beginning::Denied {
            why: Refusal::ReadOnly,
        };
    }
    if !is_in(now, descriptor.epoch) {
        return stale(descriptor);
    }
    if is_read(descriptor.mode) {
        return Beginning::Denied {
            why: Refusal::ReadOnly,
        };
    }
    uses(descriptor)
}

fn uses(descriptor: Descriptor) -> Beginning
    ensures { result ≡ begins.Uses descriptor.epoch descriptor.inst }
{
    Beginning::Uses {
        epoch: descriptor.epoch,
        inst: descriptor.inst,
    }
}

fn stale(descriptor: Descriptor) -> Beginning
    ensures { result ≡ begins.Denied (Stale descriptor.epoch) }
{
    Beginning::Denied {
        why: Refusal::Stale {
            epoch: descriptor.epoch,
        },
    }
}

fn is_in(now: Option<EpochId>, epoch: EpochId) -> bool
    ensures { result ≡ is_in now epoch }
{
    match now {
        Some(now) => now == epoch,
        None => false,
    }
}

fn is_read(mode: Mode) -> bool
    ensures { result ≡ is_read mode }
{
    matches!(mode, Mode::Read)
}

/// A call that walks a path: the site must be in an epoch.
pub fn begins_walk(now: Option<EpochId>, call: CallId) -> Beginning
    ensures { result ≡ begins_walk now call }
{
    match now {
        Some(_) => Beginning::Walks { call },
        None => Beginning::Denied {
            why: Refusal::NoPartition,
        },
    }
}

/// An open wants a free descriptor, before that.
pub fn begins_open(now: Option<EpochId>, call: CallId, free: Option<u16>) -> Beginning
    ensures { result ≡ begins_open now call free }
{
    match free {
        Some(_) => begins_walk(now, call),
        None => Beginning::Denied {
            why: Refusal::NoDescriptor,
        },
    }
}
