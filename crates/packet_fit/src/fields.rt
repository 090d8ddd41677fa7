//! The fields that packets are made of.

ghost use Rattle.std.specs.Prelude.{◌≡◌, ◌↔◌, ◌<◌, ◌≤◌, IsTrue, None, Some, replicate};
ghost use Rattle.locus_ids.specs.Sizes.{sites_max};
ghost use Rattle.wire_fields.specs.Parts.{sites, numbers, processes, inodes, sizes, epochs, instances, files, files_or_new, some_set, stamps, ascending_stamps, vectors, vectors_of, no_vector, names, components, is_stamp, is_after};
ghost use Rattle.wire_messages.specs.Answers.{versions};

use locus_ids::sizes::{FILE_BYTES, INODES, SITES};
use locus_ids::{Bytes, EpochId, FileId, Serial, Sites, Stamp, Stamps};
use version_vector::Vector;
use wire_parts::{agrees, is_component, is_name};

pub fn is_site(site: u8) -> bool
    ensures { IsTrue result ↔ sites.Fits site }
{
    1 <= site && site <= SITES as u8
}

pub fn is_number(number: u32) -> bool
    ensures { IsTrue result ↔ numbers.Fits number }
{
    1 <= number
}

pub fn is_process(process: u8) -> bool
    ensures { IsTrue result ↔ processes.Fits process }
{
    process <= 8
}

pub fn is_inode(ino: u16) -> bool
    ensures { IsTrue result ↔ inodes.Fits ino }
{
    1 <= ino && ino <= INODES
}

pub fn is_size(size: u32) -> bool
    ensures { IsTrue result ↔ sizes.Fits size }
{
    size <= FILE_BYTES as u32
}

pub fn is_epoch(epoch: EpochId) -> bool
    ensures { IsTrue result ↔ epochs.Fits epoch }
{
    is_number(epoch.number) && is_site(epoch.site) && is_number(epoch.boot)
}

pub fn is_instance(inst: Serial) -> bool
    ensures { IsTrue result ↔ instances.Fits inst }
{
    is_site(inst.us) && is_number(inst.serial)
}

pub fn is_file(file: FileId) -> bool
    ensures { IsTrue result ↔ files.Fits file }
{
    is_inode(file.ino)
}

/// A file, or, with inode 0, one that is still to be made.
pub fn is_file_or_new(file: FileId) -> bool
    ensures { IsTrue result ↔ files_or_new.Fits file }
{
    file.ino <= INODES
}

pub fn is_some_set(set: Sites) -> bool
    ensures { IsTrue result ↔ some_set.Fits set }
{
    1 <= set.0
}

/// A stamp is 0.0, or both its site and its number are above 0.
pub fn is_stamp(stamp: Stamp) -> bool
    ensures { IsTrue result ↔ stamps.Fits stamp }
{
    stamp.site <= SITES as u8 && (stamp.site == 0) == (stamp.n == 0)
}

fn are_counters(counters: &[u32]) -> bool
    ensures { IsTrue result ↔ vectors.Fits counters.now }
{
    counters.len() == SITES
}

/// Each vector is one of the format.
pub fn is_vector(vector: &Vector<SITES>) -> bool
    ensures { IsTrue result ↔ vectors.Fits vector.now }
{
    are_counters(&vector.parts())
}

/// A vector agrees with the stamp.
fn is_vector_of(stamp: Stamp, vector: &Vector<SITES>) -> bool
    requires { stamp.site ≤ sites_max }
    ensures { IsTrue result ↔ (vectors_of stamp).Fits vector.now }
{
    agrees(stamp, vector) && is_vector(vector)
}

/// A vector is one of the format, and agrees with the stamp.
pub fn is_version(stamp: Stamp, vector: &Vector<SITES>) -> bool
    ensures { IsTrue result ↔ versions.Fits (stamp, vector.now) }
{
    is_stamp(stamp) && stamp.site <= SITES as u8 && is_vector_of(stamp, vector)
}

/// A vector is zero.
pub fn is_no_vector(vector: &Vector<SITES>) -> bool
    ensures { IsTrue result ↔ no_vector.Fits vector.now }
{
    *vector == Vector::zero()
}

pub fn is_name_field(name: &Bytes) -> bool
    ensures { IsTrue result ↔ names.Fits name.now }
{
    name.len() <= 60 && is_name(name.as_slice())
}

pub fn is_component_field(component: &Bytes) -> bool
    ensures { IsTrue result ↔ components.Fits component.now }
{
    1 <= component.len() && component.len() <= 65 && is_component(component.as_slice())
}
