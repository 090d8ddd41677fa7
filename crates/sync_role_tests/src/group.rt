// The synchronization site of group 0, for the script of its tests: site 1. Sites 1, 2 and 3 store the group.
use crate::checks::given;
use crate::script::{Room, tell};
use crate::words::{byte, instance, long, say_if, say_number, short, stamp_of, vector_of};
use css_core::{Css, LookRequest, OpenRequest};
use locus_ids::{FileId, Kind, Refusal, Sites};
use role_shown::{FILE, frame, site};
use site_frame::SiteFrame;
use std::alloc::Global;
use std::process::Abort;
use trace_book::What;
use wire_messages::{MadeVersion, OpenedAs, Opening, Outbox, ReportedCopy};

/// The synchronization site at work.
pub struct Group {
    css: Css,
    frame: SiteFrame,
    alloc: Global,
}

// Taken apart in one place: where one is dropped, the prover sees one call.
impl Drop for Group {
    fn drop(self) {
        let Group {
            css: _,
            frame: _,
            alloc: _,
        } = self;
    }
}

impl Room for Group {
    fn new<R: Abort + Eprint>(rt: &R, alloc: Global) -> Group {
        Group {
            css: Css::new(alloc, 0),
            frame: given(rt, frame(alloc, 1)),
            alloc,
        }
    }

    fn does<R: Abort + Eprint>(&mut self, rt: &R, words: &[&str], text: &mut String) {
        let mut out = Outbox::new(self.alloc);
        match words {
            ["shows", seen @ ..] => self.shows(rt, seen, text),
            ["ticks"] => self
                .css
                .repeats(&self.frame, &mut out)
                .expect(rt, "no memory"),
            ["notes", stamp] => {
                let (me, stamp) = (self.frame.me, stamp_of(rt, stamp));
                self.css.notes_own(me, FILE, stamp).expect(rt, "no memory");
            }
            _ => self.hears(rt, words, &mut out),
        }
        tell(rt, self.alloc, &out, text);
    }
}

impl Group {
    /// What comes to the site.
    fn hears<R: Abort + Eprint>(&mut self, rt: &R, words: &[&str], out: &mut Outbox) {
        let (css, frame) = (&mut self.css, &self.frame);
        let done = match words {
            ["report", from, "nothing"] => {
                css.on_report(frame, given(rt, site(byte(rt, from))), &[], out)
            }
            ["report", from, stamp, vector] => {
                let copies = [copy(rt, stamp, vector)];
                css.on_report(frame, given(rt, site(byte(rt, from))), &copies, out)
            }
            ["open", us, serial, ino, how @ ..] => {
                let asked = open_of(rt, serial, ino, how);
                css.on_open(frame, given(rt, site(byte(rt, us))), &asked, out)
            }
            ["opened", inst, said @ ..] => {
                css.on_opened(frame, instance(rt, inst), opened_of(rt, said), out)
            }
            ["closed", ss, inst, said @ ..] => {
                let (ss, made) = (given(rt, site(byte(rt, ss))), made_of(rt, said));
                css.on_closed(frame, ss, instance(rt, inst), made, out)
            }
            ["look", call, take, ino, what @ ..] => {
                let asked = look_of(rt, call, take, ino, what);
                css.on_look(frame, given(rt, site(3)), &asked, out)
            }
            ["have", from, stamp] => {
                css.on_have(given(rt, site(byte(rt, from))), FILE, stamp_of(rt, stamp))
            }
            _ => rt.panic("nothing to hear"),
        };
        done.expect(rt, "no memory");
    }

    /// What can be seen of the site.
    fn shows<R: Abort>(&self, rt: &R, words: &[&str], text: &mut String) {
        let css = &self.css;
        match words {
            ["started"] => say_if(rt, text, css.started()),
            ["group"] => say_number(rt, text, Some(usize::from(css.group()))),
            ["files"] => say_number(rt, text, Some(css.files().len())),
            ["file", ino] => say_if(rt, text, css.file(short(rt, ino)).is_some()),
            ["kept", ino] => {
                let kept = css.kept(short(rt, ino)).expect(rt, "no memory");
                say_number(rt, text, Some(kept.len()))
            }
            ["has", inst] => say_if(rt, text, css.has_open(instance(rt, inst))),
            ["opened", inst] => say_if(rt, text, css.is_opened(instance(rt, inst))),
            ["open", ino] => say_if(rt, text, css.is_open(file_of(short(rt, ino)))),
            _ => rt.panic("nothing to see"),
        }
    }
}

fn file_of(ino: u16) -> FileId {
    FileId { group: 0, ino }
}

/// A copy of file 2, of three bytes.
fn copy<R: Abort>(rt: &R, stamp: &str, vector: &str) -> ReportedCopy {
    ReportedCopy {
        ino: 2,
        kind: Kind::File,
        set: Sites(0b111),
        size: 3,
        stamp: stamp_of(rt, stamp),
        vector: vector_of(rt, vector),
    }
}

/// The version that a close has made, of five bytes, if it has made one.
fn made_of<R: Abort>(rt: &R, words: &[&str]) -> Option<MadeVersion> {
    match words {
        [stamp, vector] => Some(MadeVersion {
            stamp: stamp_of(rt, stamp),
            vector: vector_of(rt, vector),
            size: 5,
        }),
        _ => None,
    }
}

/// An open by process 1, whose call has the number of the open.
fn open_of<R: Abort>(rt: &R, serial: &str, ino: &str, how: &[&str]) -> OpenRequest {
    let serial = long(rt, serial);
    OpenRequest {
        serial,
        call: serial,
        process: 1,
        request: 1,
        file: file_of(short(rt, ino)),
        how: opening_of(rt, how),
    }
}

fn opening_of<R: Abort>(rt: &R, words: &[&str]) -> Opening {
    match words {
        ["r"] => Opening::Read,
        ["w"] => Opening::Write,
        ["m"] => Opening::Mend,
        ["x", site] => Opening::Resolve {
            site: byte(rt, site),
        },
        ["n", set] => Opening::Make {
            set: Sites(short(rt, set)),
            kind: Kind::File,
        },
        _ => rt.panic("no way to open"),
    }
}

fn opened_of<R: Abort>(rt: &R, words: &[&str]) -> OpenedAs {
    match words {
        ["noinode"] => OpenedAs::No {
            why: Refusal::NoInode,
        },
        [ino, size] => OpenedAs::Open {
            ino: short(rt, ino),
            size: long(rt, size),
        },
        _ => rt.panic("no answer"),
    }
}

/// A look by process 2 of site 3.
fn look_of<R: Abort>(rt: &R, call: &str, take: &str, ino: &str, what: &[&str]) -> LookRequest {
    LookRequest {
        call: long(rt, call),
        process: 2,
        request: 1,
        take: long(rt, take),
        file: file_of(short(rt, ino)),
        what: match what {
            ["stat"] => What::Stat,
            ["list"] => What::List,
            ["whole", stamp] => What::Whole {
                stamp: stamp_of(rt, stamp),
            },
            _ => rt.panic("nothing to look for"),
        },
    }
}
