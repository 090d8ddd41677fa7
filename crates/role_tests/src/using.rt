// The using site at site 1, and at it process 1, for the script of its tests. Its storage site is site 2.
use crate::checks::given;
use crate::script::{Room, say, tell};
use crate::words::{
    byte, bytes_of, call_of, epoch_of, kind_of, long, outcome_of, say_file, say_if, say_number,
    short, stamp_of, why_of,
};
use locus_ids::{EpochId, Members, Mode, Stamps};
use role_shown::{FILE, ROOT, frame, site, stamp};
use role_steps::page_cache::PageName;
use site_frame::SiteFrame;
use std::alloc::Global;
use std::process::Abort;
use using_site::UsingSite;
use version_vector::Vector;
use wire_messages::{CloseAnswer, Granted, LookAnswer, Outbox};

/// The using site at work.
pub struct Using {
    users: UsingSite,
    frame: SiteFrame,
    now: Option<EpochId>,
    alloc: Global,
}

// Taken apart in one place: where one is dropped, the prover sees one call.
impl Drop for Using {
    fn drop(self) {
        let Using {
            users: _,
            frame: _,
            now: _,
            alloc: _,
        } = self;
    }
}

impl Room for Using {
    fn new<R: Abort + Eprint>(rt: &R, alloc: Global) -> Using {
        let frame = given(rt, frame(alloc, 1));
        Using {
            users: UsingSite::new(alloc),
            now: Some(frame.epoch),
            frame,
            alloc,
        }
    }

    fn does<R: Abort + Eprint>(&mut self, rt: &R, words: &[&str], text: &mut String) {
        let mut out = Outbox::new(self.alloc);
        match words {
            ["shows", seen @ ..] => self.shows(rt, seen, text),
            ["hears", said @ ..] => self.hears(rt, said, &mut out),
            _ => self.acts(rt, words, &mut out),
        }
        tell(rt, self.alloc, &out, text);
    }
}

impl Using {
    /// What comes to the site.
    fn hears<R: Abort + Eprint>(&mut self, rt: &R, words: &[&str], out: &mut Outbox) {
        let (users, frame, alloc) = (&mut self.users, &self.frame, self.alloc);
        let done = match words {
            ["looked", call, request, take, said @ ..] => {
                let (call, take) = (long(rt, call), long(rt, take));
                let answer = look_of(rt, alloc, said);
                users.on_look_done(frame, call, short(rt, request), take, answer, out)
            }
            ["opened", serial, said @ ..] => {
                let (kept, answer) = (kept_of(rt, alloc, said), granted_of(rt, said));
                users.on_open_done(frame, kept, long(rt, serial), answer, out)
            }
            ["did", serial, number, said @ ..] => {
                let outcome = outcome_of(rt, alloc, said);
                users.on_op_done(frame, long(rt, serial), long(rt, number), outcome, out)
            }
            ["held", serial, number] => {
                users.on_as_held(frame, long(rt, serial), long(rt, number), out)
            }
            ["closed", serial, said @ ..] => {
                users.on_close_done(frame, long(rt, serial), closed_of(rt, said), out)
            }
            _ => rt.panic("nothing to hear"),
        };
        done.expect(rt, "no memory");
    }

    /// What the site does by itself, and what else becomes of it.
    fn acts<R: Abort>(&mut self, rt: &R, words: &[&str], out: &mut Outbox) {
        let (users, frame) = (&mut self.users, &mut self.frame);
        let done = match words {
            ["calls", said @ ..] => {
                users.call(frame, self.now, 1, call_of(rt, self.alloc, said), out)
            }
            ["mends"] => users.start_mend(frame, ROOT, out),
            ["leaves"] => users.leave(frame.me, 1, frame.epoch, out),
            ["ticks"] => users.repeats(frame, out),
            ["joins", epoch] => {
                frame.epoch = epoch_of(rt, epoch);
                self.now = Some(frame.epoch);
                Ok(())
            }
            ["outside"] => {
                frame.members = Members { boot: [0; 16] };
                self.now = None;
                Ok(())
            }
            _ => rt.panic("nothing to do"),
        };
        done.expect(rt, "no memory");
    }

    /// What can be seen of the site.
    fn shows<R: Abort + Eprint>(&self, rt: &R, words: &[&str], text: &mut String) {
        let users = &self.users;
        match words {
            ["busy", process] => say_if(rt, text, users.is_busy(byte(rt, process))),
            ["free"] => say_number(rt, text, users.lowest_free(1).map(usize::from)),
            ["reads", process] => match users.descriptor(byte(rt, process), 0) {
                Some(found) => say_if(rt, text, found.mode == Mode::Read),
                None => say(rt, text, "none"),
            },
            ["mend"] => say_if(rt, text, users.has_mend(ROOT)),
            ["mend", "in", group] => say_if(rt, text, users.has_mend_in(byte(rt, group))),
            ["mend", "by", serial] => say_file(rt, text, users.mend_opening(long(rt, serial))),
            ["brought"] => say_number(rt, text, Some(users.brought(0).len())),
            ["hopeless"] => say_if(rt, text, users.is_hopeless(ROOT)),
            ["page"] => self.shows_page(rt, text),
            _ => rt.panic("nothing to see"),
        }
    }

    /// The first ten bytes of the file's first page that is in memory, and whether all behind them are zero.
    fn shows_page<R: Abort>(&self, rt: &R, text: &mut String) {
        let name = PageName {
            file: FILE,
            stamp: stamp(2, 1),
            page: 0,
        };
        let kept = self.users.cache().peek(&name).expect(rt, "no page");
        say(rt, text, str::from_utf8(&kept[..10]).expect(rt, "no text"));
        say_if(rt, text, kept[10..] == [0; 1014]);
    }
}

fn look_of<R: Abort>(rt: &R, alloc: Global, words: &[&str]) -> LookAnswer {
    match words {
        ["file"] => LookAnswer::Found {
            ino: 2,
            kind: kind_of("f"),
        },
        ["empty"] => LookAnswer::Content {
            bytes: bytes_of(rt, alloc, ""),
        },
        _ => LookAnswer::Moved,
    }
}

/// An open of version 2.1 of file 2, of so many bytes.
fn granted_of<R: Abort + Eprint>(rt: &R, words: &[&str]) -> Granted {
    match words {
        ["no", why @ ..] => Granted::No {
            why: why_of(rt, why),
        },
        [size, ..] => Granted::Open {
            ss: given(rt, site(2)),
            ino: 2,
            size: long(rt, size),
            stamp: stamp(2, 1),
            vector: Vector::zero(),
        },
        _ => rt.panic("no answer"),
    }
}

/// The versions that are kept, where the words name two behind the size.
fn kept_of<R: Abort>(rt: &R, alloc: Global, words: &[&str]) -> Stamps {
    let mut kept = Stamps::new(alloc);
    if let [_, first, second] = words {
        kept.push(stamp_of(rt, first)).expect(rt, "no memory");
        kept.push(stamp_of(rt, second)).expect(rt, "no memory");
    }
    kept
}

fn closed_of<R: Abort>(rt: &R, words: &[&str]) -> CloseAnswer {
    match words {
        [stamp] => CloseAnswer::Made {
            stamp: stamp_of(rt, stamp),
        },
        _ => CloseAnswer::Nothing,
    }
}
