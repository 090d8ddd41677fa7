// The files of a group as a synchronization site knows them, for the script of their tests. The site is site 1.
use crate::checks::given;
use crate::known::{copy, made};
use crate::script::{Room, tell};
use crate::words::{byte, say_if, say_number, say_stamp, short, stamp_of, vector_of};
use css_notices::{members_of, notify_all, notify_lagging};
use css_versions::{Files, KnownFile, choose, has_stamp, is_among, joined_vectors, stamps_of};
use locus_ids::{Kind, SiteId, Sites};
use role_shown::{frame, site};
use role_steps::VersionRow;
use site_frame::SiteFrame;
use std::alloc::Global;
use std::process::Abort;
use version_vector::Vector;
use wire_messages::{Outbox, ReportedCopy};

/// What is known of the files.
pub struct Knowing {
    files: Files,
    frame: SiteFrame,
    alloc: Global,
}

// Taken apart in one place: where one is dropped, the prover sees one call.
impl Drop for Knowing {
    fn drop(self) {
        let Knowing {
            files: _,
            frame: _,
            alloc: _,
        } = self;
    }
}

impl Room for Knowing {
    fn new<R: Abort + Eprint>(rt: &R, alloc: Global) -> Knowing {
        Knowing {
            files: Files::new(alloc),
            frame: given(rt, frame(alloc, 1)),
            alloc,
        }
    }

    fn does<R: Abort + Eprint>(&mut self, rt: &R, words: &[&str], text: &mut String) {
        let mut out = Outbox::new(self.alloc);
        match words {
            ["file", ino, seen @ ..] => {
                let file = self.files.find(short(rt, ino)).expect(rt, "no file");
                shows(rt, self.alloc, file, seen, text)
            }
            ["shows", seen @ ..] => self.shows(rt, seen, text),
            _ => self.hears(rt, words, &mut out),
        }
        tell(rt, self.alloc, &out, text);
    }
}

impl Knowing {
    /// What the site hears, and whom it notifies.
    fn hears<R: Abort + Eprint>(&mut self, rt: &R, words: &[&str], out: &mut Outbox) {
        let (files, alloc) = (&mut self.files, self.alloc);
        let done = match words {
            ["report", from, ino, stamp, vector] => {
                let copy = ReportedCopy {
                    ino: short(rt, ino),
                    ..copy(stamp_of(rt, stamp), vector_of(rt, vector))
                };
                files.report(site_of(rt, from), &copy)
            }
            ["publish", ss, ino, set, stamp, vector] => {
                let (ss, ino, set) = (site_of(rt, ss), short(rt, ino), Sites(short(rt, set)));
                let made = made(stamp_of(rt, stamp), vector_of(rt, vector));
                files.publish(ss, ino, Kind::Dir, set, &made)
            }
            ["note", site, ino, stamp] => {
                files.note(site_of(rt, site), short(rt, ino), stamp_of(rt, stamp))
            }
            ["lagging", ino] => {
                let file = files.find(short(rt, ino)).expect(rt, "no file");
                notify_lagging(alloc, &self.frame, 0, file, out)
            }
            ["notify", "all"] => notify_all(alloc, &self.frame, 0, files.as_slice(), out),
            _ => rt.panic("nothing to hear"),
        };
        done.expect(rt, "no memory");
    }

    /// What can be seen without a file. Sites 2 and 3 hold what is asked for.
    fn shows<R: Abort + Eprint>(&self, rt: &R, words: &[&str], text: &mut String) {
        let holders = [site_of(rt, "2"), site_of(rt, "3")];
        match words {
            ["count"] => say_number(rt, text, Some(self.files.as_slice().len())),
            ["known", ino] => say_if(rt, text, self.files.find(short(rt, ino)).is_some()),
            ["joined"] => say_vector(rt, text, joined_vectors(&[])),
            ["chosen", us, css] => {
                let found = choose(site_of(rt, us), site_of(rt, css), &holders);
                say_number(rt, text, found.map(|one| usize::from(one.get())))
            }
            ["chosen", us, css, "of", "none"] => {
                let found = choose(site_of(rt, us), site_of(rt, css), &[]);
                say_if(rt, text, found.is_some())
            }
            ["among", site] => say_if(rt, text, is_among(site_of(rt, site), &holders)),
            ["members", set] => {
                let found = members_of(self.alloc, &self.frame, Sites(short(rt, set)));
                say_sites(rt, text, found.expect(rt, "no memory").as_slice())
            }
            _ => rt.panic("nothing to see"),
        }
    }
}

/// What can be seen of a file.
fn shows<R: Abort>(rt: &R, alloc: Global, file: &KnownFile, words: &[&str], text: &mut String) {
    match words {
        ["versions"] => say_versions(rt, text, file.versions()),
        ["kept"] => say_versions(rt, text, file.kept()),
        ["kept", stamp] => say_if(rt, text, has_stamp(file.kept(), stamp_of(rt, stamp))),
        ["joined"] => say_vector(rt, text, joined_vectors(file.kept())),
        ["stamps"] => {
            let stamps = stamps_of(alloc, file.kept()).expect(rt, "no memory");
            say_number(rt, text, Some(stamps.len()))
        }
        ["holding", site] => match file.holding(byte(rt, site)) {
            Some(holding) => say_stamp(rt, text, holding.stamp),
            None => say_number(rt, text, None),
        },
        ["holders", stamp] => {
            let holders = file.holders(stamp_of(rt, stamp)).expect(rt, "no memory");
            say_sites(rt, text, holders.as_slice())
        }
        ["size", stamp] => {
            let version = file.version(stamp_of(rt, stamp));
            say_number(rt, text, version.map(|found| found.size as usize))
        }
        ["is", "a", "file"] => say_if(rt, text, file.kind() == Kind::File),
        ["number"] => say_number(rt, text, Some(usize::from(file.ino()))),
        ["set"] => say_number(rt, text, Some(usize::from(file.set().0))),
        _ => rt.panic("nothing to see"),
    }
}

fn site_of<R: Abort + Eprint>(rt: &R, word: &str) -> SiteId {
    given(rt, site(byte(rt, word)))
}

fn say_sites<R: Abort>(rt: &R, text: &mut String, sites: &[SiteId]) {
    for one in sites {
        say_number(rt, text, Some(usize::from(one.get())));
    }
}

fn say_versions<R: Abort>(rt: &R, text: &mut String, versions: &[VersionRow]) {
    for version in versions {
        say_stamp(rt, text, version.stamp);
    }
}

/// The commits of the sites 1, 2 and 3.
fn say_vector<R: Abort>(rt: &R, text: &mut String, vector: Vector<16>) {
    let parts = vector.parts();
    for part in &parts[..3] {
        say_number(rt, text, Some(*part as usize));
    }
}
