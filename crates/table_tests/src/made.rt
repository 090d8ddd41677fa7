// What the tests are made of. Where a call fails, the test ends: so a function has no exit behind each of its calls.
use css_core::Css;
use keyed_tables::SortedTable;
use locus_ids::{Bytes, Config, EpochId, Kind, Members, Mounts, SiteId, Sites, Stamp};
use site_frame::SiteFrame;
use site_tables::take;
use std::alloc::Global;
use std::process::Abort;
use trace_text::render;
use version_vector::Vector;
use wire_messages::{Body, Outbox, ReportedCopies, ReportedCopy};

const EPOCH: EpochId = EpochId {
    number: 1,
    site: 1,
    boot: 1,
};

pub fn site<R: Abort>(rt: &R, n: u8) -> SiteId {
    SiteId::new(n).expect(rt, "no site")
}

/// A number for each of the sites 1, 2 and 3.
fn numbers(one: u32, two: u32, three: u32) -> [u32; 16] {
    [one, two, three, 0, 0, 0, 0, 0, 0, 0, 0, 0, 0, 0, 0, 0]
}

/// A copy of the first version of a site, after so many commits of sites 1 and 2.
pub fn copy(ino: u16, kind: Kind, by: u8, one: u32, two: u32) -> ReportedCopy {
    ReportedCopy {
        ino,
        kind,
        set: Sites(0b111),
        size: 3,
        stamp: Stamp { site: by, n: 1 },
        vector: Vector::from_parts(numbers(one, two, 0)),
    }
}

/// Where a site stands in epoch 1.1.1, of which the sites that have boots are members. Group 0 has packs at sites 1, 2 and 3,
/// group 1 at sites 1 and 2, group 2 at site 2, and group 3 has none.
pub fn frame<R: Abort>(rt: &R, alloc: Global, me: u8, boots: [u32; 3]) -> SiteFrame {
    let [one, two, three] = boots;
    SiteFrame {
        config: Config {
            sites: 3,
            packs: [Sites(0b111), Sites(0b11), Sites(0b10), Sites(0)],
            mounts: Mounts::new(alloc),
        },
        me: site(rt, me),
        boot: 1,
        epoch: EPOCH,
        members: Members {
            boot: numbers(one, two, three),
        },
    }
}

/// What an outbox has: the receiver of each packet, and then each record as a trace has it.
pub fn shown<R: Abort>(rt: &R, alloc: Global, out: &Outbox) -> String {
    let mut text = String::new(alloc);
    for packet in out.packets().as_slice() {
        let to = packet.to.get();
        write!(text, "{to};").expect(rt, "no memory");
    }
    for record in out.records().as_slice() {
        let mut line = Bytes::new(alloc);
        render(record, 0, &mut line).expect(rt, "no memory");
        let line = str::from_utf8(line.as_slice()).expect(rt, "no text");
        text.push_str(line).expect(rt, "no memory");
    }
    text
}

/// What the tables send and tell as a site reports these copies of a group.
pub fn reports<R: Abort>(
    rt: &R,
    tables: &mut SortedTable<Css>,
    frame: &SiteFrame,
    (from, group): (u8, u8),
    reported: &[ReportedCopy],
) -> String {
    let alloc = tables.allocator();
    let mut copies = ReportedCopies::new(alloc);
    for copy in reported {
        copies.push(*copy).expect(rt, "no memory");
    }
    let mut out = Outbox::new(alloc);
    let body = Body::Report { group, copies };
    take(tables, frame, site(rt, from), body, &mut out).expect(rt, "not taken");
    shown(rt, alloc, &out)
}
