// css_opens and css_decision: the opens of a synchronization site, and what it decides of them.
use crate::checks::{given, holds, is_text};
use crate::known::{known, made};
use css_decision::{
    Decision, OpenRequest, asked_entry, denied_entry, grant_on, kept_refusal, make_decision,
    mode_of,
};
use css_opens::{Closing, OpenEntry, Opens, Settling};
use locus_ids::{FileId, Kind, Mode, Refusal, Sites, Stamp};
use role_shown::{FILE, ROOT, frame, inst, push_reply, shown, site, stamp, vector};
use role_steps::VersionRow;
use site_frame::SiteFrame;
use std::alloc::Global;
use std::test::Fail;
use trace_book::Reply;
use version_vector::Vector;
use wire_messages::{Opening, Outbox};

/// What an open of site `us` is asked for.
fn request(serial: u32, how: Opening) -> OpenRequest {
    OpenRequest {
        serial,
        call: serial,
        process: 1,
        request: 1,
        file: FILE,
        how,
    }
}

/// Why an open is refused, or where it is granted and from which version.
fn decided(alloc: Global, decision: Decision) -> Result<String, Fail> {
    let mut text = String::new(alloc);
    let done = push_decision(alloc, &mut text, &decision);
    drop(decision);
    done?;
    Ok(text)
}

fn push_decision(alloc: Global, text: &mut String, decision: &Decision) -> Result<(), Fail> {
    match decision {
        Decision::Denied { why } => {
            let why = why.copy()?;
            push_reply(alloc, text, Reply::No { why })
        }
        Decision::Granted { grant } => {
            let (ss, parents) = (grant.ss.get(), grant.parents.len());
            write!(text, "at {ss} with {parents}")?;
            push_from(text, grant.stamp)
        }
    }
}

fn push_from(text: &mut String, from: Option<Stamp>) -> Result<(), Fail> {
    if let Some(Stamp { site, n }) = from {
        write!(text, " from {site}.{n}")?;
    }
    Ok(())
}

#[test]
fn an_open_begins_from_a_kept_version(rt: HostRuntime) {
    let alloc = rt.alloc();
    let frame = given(&rt, frame(alloc, 1));
    let mut file = given(&rt, known(alloc));
    let three = given(&rt, site(3));
    let plain = grant_on(alloc, &frame, three, &file, Opening::Read).expect(&rt, "no memory");
    is_text(&rt, decided(alloc, plain), "at 1 with 1 from 1.1");
    file.publish(three, &made(stamp(3, 1), vector(0, 0, 1)))
        .expect(&rt, "no memory");
    for (how, wanted) in [
        (Opening::Resolve { site: 3 }, "at 3 with 2 from 3.1"),
        (Opening::Resolve { site: 2 }, "at 2 with 2 from 1.1"),
        (Opening::Resolve { site: 4 }, "nostorage"),
        (Opening::Mend, "at 1 with 2 from 1.1"),
    ] {
        let decision = grant_on(alloc, &frame, three, &file, how).expect(&rt, "no memory");
        is_text(&rt, decided(alloc, decision), wanted);
    }
}

#[test]
fn a_make_is_at_a_member_with_a_pack(rt: HostRuntime) {
    let alloc = rt.alloc();
    let frame = given(&rt, frame(alloc, 1));
    for (group, us, set, wanted) in [
        (0, 3, 0b111, "at 3 with 0"),
        (0, 3, 0b011, "at 1 with 0"),
        (1, 3, 0b010, "at 2 with 0"),
        (1, 3, 0b001, "nostorage"),
        (2, 3, 0b001, "nostorage"),
    ] {
        let us = given(&rt, site(us));
        let made = make_decision(alloc, &frame, group, us, Sites(set), Kind::File).expect(
            &rt,
            "no memory",
        );
        is_text(&rt, decided(alloc, made), wanted);
    }
}

/// Why the modes are refused where these versions are kept, as text.
fn refusals(alloc: Global, kept: &[VersionRow]) -> Result<String, Fail> {
    let mut text = String::new(alloc);
    for mode in [
        Mode::Read,
        Mode::Write,
        Mode::Resolve,
        Mode::Mend,
        Mode::Make,
    ] {
        push_refusal(alloc, &mut text, kept_refusal(mode, kept))?;
    }
    Ok(text)
}

fn push_refusal(alloc: Global, text: &mut String, refused: Option<Refusal>) -> Result<(), Fail> {
    match refused {
        Some(why) => push_reply(alloc, text, Reply::No { why })?,
        None => text.push_str("-")?,
    }
    Ok(text.push_str(",")?)
}

fn version(stamp: Stamp, vector: Vector<16>) -> VersionRow {
    VersionRow {
        stamp,
        vector,
        size: 0,
    }
}

#[test]
fn kept_versions_refuse_some_modes(rt: HostRuntime) {
    let alloc = rt.alloc();
    let kept = [
        version(stamp(1, 1), vector(1, 0, 0)),
        version(stamp(2, 1), vector(0, 1, 0)),
    ];
    is_text(
        &rt,
        refusals(alloc, &[]),
        "nostorage,nostorage,nostorage,nostorage,-,",
    );
    is_text(&rt, refusals(alloc, &kept[..1]), "-,-,noconflict,-,-,");
    is_text(
        &rt,
        refusals(alloc, &kept),
        "conflict 1.1 2.1,conflict 1.1 2.1,-,-,-,",
    );
    holds(&rt, mode_of(Opening::Resolve { site: 1 }) == Mode::Resolve);
    holds(&rt, mode_of(Opening::Mend) == Mode::Mend);
}

/// An open of site 3 of this serial, whose storage site is asked.
fn asked(alloc: Global, frame: &SiteFrame, serial: u32, how: Opening) -> Result<OpenEntry, Fail> {
    let (us, file) = (site(3)?, known(alloc)?);
    let decision = grant_on(alloc, frame, us, &file, how);
    drop(file);
    match decision? {
        Decision::Granted { grant } => Ok(asked_entry(us, &request(serial, how), grant)),
        Decision::Denied { .. } => Err(Fail::from("denied")),
    }
}

fn pushed(opens: &mut Opens, entry: OpenEntry) -> Result<(), Fail> {
    if opens.find(entry.inst()).is_some() {
        drop(entry);
        return Err(Fail::from("known"));
    }
    opens.push(entry)?;
    Ok(())
}

/// The site whose open excludes one by this mode.
fn excluding(opens: &Opens, mode: Mode, file: FileId) -> Option<u8> {
    let why = opens.exclusion(mode, file);
    let by = match &why {
        Some(Refusal::Busy { site, .. }) => Some(*site),
        Some(_) => Some(0),
        None => None,
    };
    drop(why);
    by
}

#[test]
fn an_open_excludes_while_it_is_open(rt: HostRuntime) {
    let alloc = rt.alloc();
    let frame = given(&rt, frame(alloc, 1));
    let mut opens = Opens::new(alloc);
    let denied = denied_entry(
        alloc,
        given(&rt, site(3)),
        &request(7, Opening::Write),
        Refusal::NoStorage,
    );
    given(&rt, pushed(&mut opens, denied));
    holds(&rt, !opens.is_open(FILE));
    given(
        &rt,
        pushed(
            &mut opens,
            given(&rt, asked(alloc, &frame, 1, Opening::Read)),
        ),
    );
    holds(&rt, opens.is_open(FILE));
    holds(&rt, !opens.is_open(ROOT));
    holds(&rt, opens.is_asked(inst(3, 1)));
    holds(&rt, !opens.is_asked(inst(3, 7)));
    holds(&rt, excluding(&opens, Mode::Read, FILE) == None);
    holds(&rt, excluding(&opens, Mode::Write, ROOT) == None);
    holds(&rt, excluding(&opens, Mode::Write, FILE) == Some(3));
}

/// An open that is asked is settled.
fn settled(opens: &mut Opens, serial: u32, settling: Settling) -> Result<(), Fail> {
    let inst = inst(3, serial);
    if opens.is_asked(inst) {
        opens.settle(inst, settling)?;
        return Ok(());
    }
    Err(Fail::from("not asked"))
}

/// A granted open ends.
fn ended(opens: &mut Opens, serial: u32) -> Result<(), Fail> {
    let inst = inst(3, serial);
    match opens.closing(inst) {
        Closing::Released { .. } => {
            opens.settle(inst, Settling::End)?;
            Ok(())
        }
        _ => Err(Fail::from("not granted")),
    }
}

#[test]
fn an_open_is_settled_in_its_row(rt: HostRuntime) {
    let alloc = rt.alloc();
    let frame = given(&rt, frame(alloc, 1));
    let mut opens = Opens::new(alloc);
    given(
        &rt,
        pushed(
            &mut opens,
            given(&rt, asked(alloc, &frame, 1, Opening::Write)),
        ),
    );
    holds(&rt, matches!(opens.closing(inst(3, 1)), Closing::Unknown));
    given(
        &rt,
        settled(&mut opens, 1, Settling::Grant { ino: 2, size: 3 }),
    );
    holds(
        &rt,
        matches!(opens.closing(inst(3, 1)), Closing::Released { .. }),
    );
    given(&rt, ended(&mut opens, 1));
    holds(
        &rt,
        matches!(opens.closing(inst(3, 1)), Closing::Again { .. }),
    );
    holds(&rt, !opens.is_open(FILE));
    holds(&rt, matches!(opens.closing(inst(3, 2)), Closing::Unknown));
}

/// What an open sends and tells as it is asked, granted and repeated.
#[test]
fn an_open_tells_how_far_it_is(rt: HostRuntime) {
    let alloc = rt.alloc();
    let frame = given(&rt, frame(alloc, 1));
    let entry = given(&rt, asked(alloc, &frame, 1, Opening::Write));
    let mut out = Outbox::new(alloc);
    entry.repeat(&frame, &mut out).expect(&rt, "no memory");
    let why = Refusal::NoInode;
    entry
        .refuses_user(&frame, &why, &mut out)
        .expect(&rt, "no memory");
    entry
        .notes_refusal(&frame, &why, &mut out)
        .expect(&rt, "no memory");
    drop(why);
    entry
        .tells_answer(&frame, &mut out)
        .expect(&rt, "no memory");
    is_text(
        &rt,
        shown(alloc, &out),
        "1 openss 3.1 w 0.2 1.1; 3 opendone 1 noinode; refuse e1.1.1 c3.1.1 1 i3.1 w 0.2 noinode",
    );
    holds(&rt, matches!(entry.closing(), Closing::Unknown));
    holds(&rt, entry.open_now(4).is_some());
}
