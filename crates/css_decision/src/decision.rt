ghost use Rattle.std.specs.Prelude.{◌≡◌, IfOk};
ghost use Rattle.role_steps.specs.Opens.{make_decision, plain_decision, resolve_from, grant_on, denied_row, asked_row};
ghost use Rattle.wire_messages.specs.declared.body.Opening.TheVariants.{Mend};
ghost use Rattle.role_steps.specs.Versions.{holding_of};
ghost use Rattle.css_decision.specs.Decided.{decision_of};

use crate::OpenRequest;
use crate::grants::mode_of;
use css_notices::css_versions::{KnownFile, choose, has_stamp, joined_vectors, stamps_of};
use css_notices::members_of;
use css_opens::{OpenEntry, Progress};
use locus_ids::sizes::SITES;
use locus_ids::{Kind, NoMemory, Refusal, SiteId, Sites, Stamp, Stamps};
use site_frame::SiteFrame;
use std::alloc::Global;
use version_vector::Vector;
use wire_messages::Opening;

/// Where an open is granted: the stamp to begin from, the vector and the parents of its first version, and the set and kind of
/// the file.
#[derive(Drop)]
pub struct Grant {
    pub ss: SiteId,
    pub stamp: Option<Stamp>,
    pub vector: Vector<SITES>,
    pub parents: Stamps,
    pub set: Sites,
    pub kind: Kind,
}

/// What is decided of an open.
#[derive(Drop)]
pub enum Decision {
    Denied { why: Refusal },
    Granted { grant: Grant },
}

/// A make: its storage site is chosen among the members of its set, which has packs alone.
pub fn make_decision(
    alloc: Global,
    frame: &SiteFrame,
    group: u8,
    us: SiteId,
    set: Sites,
    kind: Kind,
) -> Result<Decision, NoMemory>
    ensures { IfOk result (λ made. decision_of made ≡ make_decision frame.now group us set kind) }
{
    let packs = frame.pack_sites(group);
    if set.meet(packs).0 != set.0 {
        return Ok(Decision::Denied {
            why: Refusal::NoStorage,
        });
    }
    let members = members_of(alloc, frame, set)?;
    match choose(us, frame.me, members.as_slice()) {
        Some(ss) => Ok(Decision::Granted {
            grant: Grant {
                ss,
                stamp: None,
                vector: Vector::zero(),
                parents: Stamps::new(alloc),
                set,
                kind,
            },
        }),
        None => Ok(Decision::Denied {
            why: Refusal::NoStorage,
        }),
    }
}

/// Reading and ordinary writing: they begin from the only kept version, at a site that holds it.
fn plain_decision(
    alloc: Global,
    frame: &SiteFrame,
    us: SiteId,
    file: &KnownFile,
) -> Result<Decision, NoMemory>
    ensures { IfOk result (λ made. decision_of made ≡ plain_decision frame.now us file.now file.now.kept) }
{
    let Some(version) = file.kept().first() else {
        return Ok(Decision::Denied {
            why: Refusal::NoStorage,
        });
    };
    let holders = file.holders(version.stamp)?;
    match choose(us, frame.me, holders.as_slice()) {
        Some(ss) => {
            let mut parents = Stamps::new(alloc);
            parents.push(version.stamp)?;
            Ok(Decision::Granted {
                grant: Grant {
                    ss,
                    stamp: Some(version.stamp),
                    vector: version.vector,
                    parents,
                    set: file.set(),
                    kind: file.kind(),
                },
            })
        }
        None => Ok(Decision::Denied {
            why: Refusal::NoStorage,
        }),
    }
}

/// A resolution: it begins from the version of the named site, which holds a kept one.
fn resolve_decision(alloc: Global, file: &KnownFile, site: u8) -> Result<Decision, NoMemory>
    ensures { IfOk result (λ made. decision_of made ≡ resolve_from file.now file.now.kept (holding_of file.now site)) }
{
    let Some(holding) = file.holding(site) else {
        return Ok(Decision::Denied {
            why: Refusal::NoStorage,
        });
    };
    if !has_stamp(file.kept(), holding.stamp) {
        return Ok(Decision::Denied {
            why: Refusal::NoStorage,
        });
    }
    Ok(Decision::Granted {
        grant: Grant {
            ss: holding.site,
            stamp: Some(holding.stamp),
            vector: joined_vectors(file.kept()),
            parents: stamps_of(alloc, file.kept())?,
            set: file.set(),
            kind: file.kind(),
        },
    })
}

/// A mend: it begins from what the synchronization site itself holds, if anything.
fn mend_decision(alloc: Global, frame: &SiteFrame, file: &KnownFile) -> Result<Decision, NoMemory>
    ensures { IfOk result (λ made. decision_of made ≡ grant_on frame.now 0 file.now file.now.kept Mend) }
{
    let stamp = match file.holding(frame.me.get()) {
        Some(holding) => Some(holding.stamp),
        None => None,
    };
    Ok(Decision::Granted {
        grant: Grant {
            ss: frame.me,
            stamp,
            vector: joined_vectors(file.kept()),
            parents: stamps_of(alloc, file.kept())?,
            set: file.set(),
            kind: file.kind(),
        },
    })
}

/// What is decided of an open that nothing refuses.
pub fn grant_on(
    alloc: Global,
    frame: &SiteFrame,
    us: SiteId,
    file: &KnownFile,
    how: Opening,
) -> Result<Decision, NoMemory>
    ensures { IfOk result (λ made. decision_of made ≡ grant_on frame.now us file.now file.now.kept how) }
{
    match how {
        Opening::Read => plain_decision(alloc, frame, us, file),
        Opening::Write => plain_decision(alloc, frame, us, file),
        Opening::Resolve { site } => resolve_decision(alloc, file, site),
        Opening::Mend => mend_decision(alloc, frame, file),
        Opening::Make { set: _, kind: _ } => Ok(Decision::Denied {
            why: Refusal::NoStorage,
        }),
    }
}

/// The entry of an open that is refused at once.
pub fn denied_entry(alloc: Global, us: SiteId, asked: &OpenRequest, why: Refusal) -> OpenEntry
    ensures { result ≡ denied_row us asked.now why }
{
    OpenEntry {
        us,
        serial: asked.serial,
        call: asked.call,
        process: asked.process,
        request: asked.request,
        mode: mode_of(asked.how),
        file: asked.file,
        progress: Progress::Denied { why },
        ss: us,
        stamp: None,
        vector: Vector::zero(),
        parents: Stamps::new(alloc),
        set: Sites(0),
        kind: Kind::File,
        size: 0,
    }
}

/// The entry of an open whose storage site is asked.
pub fn asked_entry(us: SiteId, asked: &OpenRequest, grant: Grant) -> OpenEntry
    ensures { result ≡ asked_row us asked.now grant.ss grant.stamp grant.vector grant.parents grant.set grant.kind }
{
    OpenEntry {
        us,
        serial: asked.serial,
        call: asked.call,
        process: asked.process,
        request: asked.request,
        mode: mode_of(asked.how),
        file: asked.file,
        progress: Progress::Asked,
        ss: grant.ss,
        stamp: grant.stamp,
        vector: grant.vector,
        parents: grant.parents,
        set: grant.set,
        kind: grant.kind,
        size: 0,
    }
}
