// store_instances: one instance, as site 2 has asked for it at site 1.
use crate::checks::{given, holds, is_text};
use locus_ids::{Kind, Mode, Serial, Sites, Stamps};
use operation_effects::WorkingContent;
use role_shown::{FILE, frame, inst, shown, site, stamp, vector};
use site_frame::SiteFrame;
use std::alloc::Global;
use std::test::Fail;
use store_instances::{StoreInstance, StoreRequest};
use wire_messages::Outbox;

/// Instance 2.1 of the file, as it begins.
fn begun(alloc: Global, mode: Mode) -> Result<StoreInstance, Fail> {
    let us = site(2)?;
    let content = WorkingContent::from_slice(alloc, b"old")?;
    let asked = StoreRequest {
        inst: Serial {
            us: us.get(),
            serial: 1,
        },
        file: FILE,
        mode,
        set: Sites(0b111),
        kind: Kind::File,
        base: stamp(3, 1),
        vector: vector(0, 0, 1),
        parents: Stamps::new(alloc),
    };
    Ok(StoreInstance::begun(alloc, us, asked, FILE, Some(stamp(3, 1)), content))
}

#[test]
fn an_instance_begins_open(rt: HostRuntime) {
    let alloc = rt.alloc();
    let instance = given(&rt, begun(alloc, Mode::Read));
    holds(&rt, instance.inst() == inst(2, 1));
    holds(&rt, instance.file() == FILE);
    holds(&rt, instance.mode() == Mode::Read);
    holds(&rt, instance.changed() == 0);
    holds(&rt, instance.is_open());
}

/// What an instance sends when it is opened, opened again, and at a tick.
fn sent(instance: &StoreInstance, frame: &SiteFrame, alloc: Global) -> Result<String, Fail> {
    let mut out = Outbox::new(alloc);
    send(instance, frame, &mut out)?;
    shown(alloc, &out)
}

fn send(instance: &StoreInstance, frame: &SiteFrame, out: &mut Outbox) -> Result<(), Fail> {
    instance.send_opened(frame, out)?;
    instance.open_again(frame, out)?;
    instance.repeat(frame, out)?;
    Ok(())
}

#[test]
fn an_open_instance_is_answered_again(rt: HostRuntime) {
    let alloc = rt.alloc();
    let mut instance = given(&rt, begun(alloc, Mode::Write));
    let frame = given(&rt, frame(alloc, 1));
    is_text(
        &rt,
        sent(&instance, &frame, alloc),
        "1 opened 2.1 2 of 3; 1 opened 2.1 2 of 3",
    );
    // An answer to a close that has not begun changes nothing.
    let mut out = Outbox::new(alloc);
    instance
        .on_closed_ok(&frame, &mut out)
        .expect(&rt, "no memory");
    is_text(&rt, shown(alloc, &out), "");
    holds(&rt, instance.is_open());
}
