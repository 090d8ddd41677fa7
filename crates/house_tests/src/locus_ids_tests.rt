ghost use Rattle.std.specs.Prelude.{◌≡◌, IfOk};

use crate::checks::holds;
use locus_ids::sizes::{PACK_BYTES, PAGE_BYTES};
use locus_ids::{
    Bytes, Config, EpochId, FileId, Ino, Links, Members, Mount, Mounts, Names, NoMemory, Refusal,
    SiteId, Sites, Stamp, Stamps,
};
use std::process::Abort;

fn site<R: Abort>(rt: &R, n: u8) -> SiteId {
    SiteId::new(n).expect(rt, "no site")
}

/// A copy of stamps is equal to them, by its contract alone.
fn same_stamps(stamps: &Stamps) -> Result<Stamps, NoMemory>
    ensures { IfOk result (λ made. made ≡ stamps.now) }
{
    stamps.copy()
}

/// A copy of names is equal to them, by its contract alone.
fn same_names(names: &Names) -> Result<Names, NoMemory>
    ensures { IfOk result (λ made. made ≡ names.now) }
{
    names.copy()
}

#[test]
fn sites_are_a_set(rt: HostRuntime) {
    for n in [0, 17, 255] {
        assert!(rt; SiteId::new(n) == None, "at {n}");
    }
    for n in [0, 1_025, 65_535] {
        assert!(rt; Ino::new(n) == None, "at {n}");
    }
    holds(&rt, Ino::new(1) == Some(Ino::root()));
    holds(&rt, Ino::new(1_024).map(Ino::get) == Some(1_024));
    let set = Sites(0)
        .with(site(&rt, 16))
        .with(site(&rt, 3))
        .with(site(&rt, 3));
    holds(&rt, set == Sites(0x8004));
    holds(&rt, set.count() == 2);
    holds(&rt, set.least() == Some(site(&rt, 3)));
    holds(&rt, set.without(site(&rt, 3)) == Sites(0x8000));
    holds(&rt, set.without(site(&rt, 4)) == set);
    holds(&rt, set.meet(Sites(7)) == Sites(4));
    holds(&rt, set.has(site(&rt, 16)) && !set.has(site(&rt, 1)));
    holds(&rt, Sites(0).least() == None);
    holds(&rt, Sites(0xffff).count() == 16);
}

#[test]
fn lists_are_copied(rt: HostRuntime) {
    let alloc = rt.alloc();
    let mut bytes = Bytes::from_slice(alloc, b"ab").expect(&rt, "no memory");
    let copy = bytes.copy().expect(&rt, "no memory");
    bytes.append(b"cd").expect(&rt, "no memory");
    bytes.push(b'e').expect(&rt, "no memory");
    holds(&rt, bytes.as_slice() == b"abcde".as_slice());
    bytes.truncate(3);
    holds(&rt, bytes.get(2) == Some(&b'c'));
    holds(&rt, bytes.get(3) == None);
    holds(&rt, copy.as_slice() == b"ab".as_slice());
    let mut stamps = Stamps::new(alloc);
    stamps
        .push(Stamp { site: 1, n: 2 })
        .expect(&rt, "no memory");
    stamps
        .insert(0, Stamp { site: 3, n: 1 })
        .expect(&rt, "no memory");
    let others = same_stamps(&stamps).expect(&rt, "no memory");
    stamps.clear();
    holds(&rt, stamps.is_empty());
    holds(&rt, others.get(0) == Some(&Stamp { site: 3, n: 1 }));
    holds(&rt, others.len() == 2);
    let mut names = Names::new(alloc);
    names.push(copy).expect(&rt, "no memory");
    holds(&rt, same_names(&names).expect(&rt, "no memory").len() == 1);
}

#[test]
fn clusters_and_refusals_are_copied(rt: HostRuntime) {
    let alloc = rt.alloc();
    let mut mounts = Mounts::new(alloc);
    let name = Bytes::from_slice(alloc, b"usr").expect(&rt, "no memory");
    mounts
        .push(Mount { group: 1, name })
        .expect(&rt, "no memory");
    let config = Config {
        sites: 3,
        packs: [Sites(7), Sites(6), Sites(0), Sites(0)],
        mounts,
    };
    let copy = config.copy().expect(&rt, "no memory");
    holds(&rt, copy.packs[1] == Sites(6));
    holds(&rt, copy.mounts.len() == 1);
    let refused = Refusal::NoSpace { needed: 1, free: 0 };
    let copy = refused.copy().expect(&rt, "no memory");
    holds(
        &rt,
        matches!(&copy, Refusal::NoSpace { needed: 1, free: 0 }),
    );
}

#[test]
fn names_of_things_are_ordered_by_their_fields(rt: HostRuntime) {
    holds(&rt, Stamp { site: 1, n: 9 } < Stamp { site: 2, n: 1 });
    holds(&rt, Stamp { site: 1, n: 1 } < Stamp { site: 1, n: 2 });
    holds(
        &rt,
        FileId { group: 0, ino: 9 } < FileId { group: 1, ino: 1 },
    );
    let first = EpochId {
        number: 1,
        site: 2,
        boot: 1,
    };
    holds(
        &rt,
        EpochId {
            number: 1,
            site: 1,
            boot: 5,
        } < first,
    );
    holds(
        &rt,
        first
            < EpochId {
                number: 2,
                site: 1,
                boot: 1,
            },
    );
    let mut boot = [0; 16];
    boot[2] = 4;
    holds(&rt, Members { boot }.boot_of(site(&rt, 3)) == 4);
    holds(&rt, Links { boot }.boot_of(site(&rt, 4)) == 0);
    holds(
        &rt,
        PACK_BYTES as usize == 1_024 + 2_048 * 2 * 512 + 64 * 1_024 + 3_072 * PAGE_BYTES,
    );
}
