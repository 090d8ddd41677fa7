// Files as a synchronization site knows them, for the tests of its tables.
use css_versions::KnownFile;
use locus_ids::{Kind, Sites, Stamp};
use role_shown::{site, stamp, vector};
use std::alloc::Global;
use std::test::Fail;
use version_vector::Vector;
use wire_messages::{MadeVersion, ReportedCopy};

pub fn copy(stamp: Stamp, vector: Vector<16>) -> ReportedCopy {
    ReportedCopy {
        ino: 2,
        kind: Kind::File,
        set: Sites(0b111),
        size: 3,
        stamp,
        vector,
    }
}

pub fn made(stamp: Stamp, vector: Vector<16>) -> MadeVersion {
    MadeVersion {
        stamp,
        vector,
        size: 5,
    }
}

/// A file that sites 1, 2 and 3 store, of which sites 1 and 2 have the version 1.1.
pub fn known(alloc: Global) -> Result<KnownFile, Fail> {
    let mut file = KnownFile::new(alloc, 2, Kind::File, Sites(0b111));
    file.report(site(1)?, &copy(stamp(1, 1), vector(1, 0, 0)))?;
    file.report(site(2)?, &copy(stamp(1, 1), vector(1, 0, 0)))?;
    Ok(file)
}
