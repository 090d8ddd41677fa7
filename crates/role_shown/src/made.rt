// What the tests are made of.
use locus_ids::{
    Bytes, Config, EpochId, FileId, Links, Members, Mount, Mounts, Serial, SiteId, Sites, Stamp,
};
use site_frame::SiteFrame;
use std::alloc::Global;
use std::test::Fail;
use version_vector::Vector;

pub const ROOT: FileId = FileId { group: 0, ino: 1 };

pub const FILE: FileId = FileId { group: 0, ino: 2 };

pub fn site(n: u8) -> Result<SiteId, Fail> {
    Ok(SiteId::new(n).ok_or("no site")?)
}

pub fn epoch(number: u32, site: u8, boot: u32) -> EpochId {
    EpochId { number, site, boot }
}

pub fn stamp(site: u8, n: u32) -> Stamp {
    Stamp { site, n }
}

pub fn inst(us: u8, serial: u32) -> Serial {
    Serial { us, serial }
}

/// The boots of sites 1, 2 and 3.
pub fn boots(one: u32, two: u32, three: u32) -> [u32; 16] {
    [one, two, three, 0, 0, 0, 0, 0, 0, 0, 0, 0, 0, 0, 0, 0]
}

pub fn links(one: u32, two: u32, three: u32) -> Links {
    Links {
        boot: boots(one, two, three),
    }
}

/// The vector of a version after so many commits of sites 1, 2 and 3.
pub fn vector(one: u32, two: u32, three: u32) -> Vector<16> {
    Vector::from_parts(boots(one, two, three))
}

/// Group 0 has packs at sites 1, 2 and 3, and group 1 has one at site 2 and stands on the name `usr`.
pub fn config(alloc: Global) -> Result<Config, Fail> {
    Ok(Config {
        sites: 3,
        packs: [Sites(0b111), Sites(0b10), Sites(0), Sites(0)],
        mounts: mounts(alloc)?,
    })
}

/// Group 1 stands on the name `usr`.
pub fn mounts(alloc: Global) -> Result<Mounts, Fail> {
    let mut mounts = Mounts::new(alloc);
    let name = Bytes::from_slice(alloc, b"usr")?;
    mounts.push(Mount { group: 1, name })?;
    Ok(mounts)
}

/// Where a site stands in epoch 1.1.1 of the sites 1, 2 and 3, each in its first boot.
pub fn frame(alloc: Global, me: u8) -> Result<SiteFrame, Fail> {
    Ok(SiteFrame {
        config: config(alloc)?,
        me: site(me)?,
        boot: 1,
        epoch: epoch(1, 1, 1),
        members: Members {
            boot: boots(1, 1, 1),
        },
    })
}

pub fn bytes(alloc: Global, text: &str) -> Result<Bytes, Fail> {
    Ok(Bytes::from_slice(alloc, text.as_bytes())?)
}
