// The pulls of site 2, for the script of their tests. Versions are of site 1 and have 1,536 bytes.
use crate::checks::{given, holds};
use crate::script::{Room, say, tell};
use crate::words::{byte, long, say_file, say_number, short};
use locus_ids::{Bytes, FileId, Kind, Sites, Stamp};
use propagation::{Adopting, CopyHead, Puller};
use role_shown::{FILE, frame, site, stamp, vector};
use role_steps::Pull;
use site_frame::SiteFrame;
use std::alloc::Global;
use std::process::Abort;
use wire_messages::{Outbox, PageNumbers};

/// The puller at work, at a site that has one of the file's versions or none.
pub struct Pulling {
    puller: Puller,
    frame: SiteFrame,
    own: Option<CopyHead>,
    alloc: Global,
}

// Taken apart in one place: where one is dropped, the prover sees one call.
impl Drop for Pulling {
    fn drop(self) {
        let Pulling {
            puller: _,
            frame: _,
            own: _,
            alloc: _,
        } = self;
    }
}

impl Room for Pulling {
    fn new<R: Abort + Eprint>(rt: &R, alloc: Global) -> Pulling {
        Pulling {
            puller: Puller::new(alloc),
            frame: given(rt, frame(alloc, 2)),
            own: None,
            alloc,
        }
    }

    fn does<R: Abort + Eprint>(&mut self, rt: &R, words: &[&str], text: &mut String) {
        let mut out = Outbox::new(self.alloc);
        match words {
            ["shows", "count"] => {
                holds(rt, self.puller.len() == self.puller.as_slice().len());
                say_number(rt, text, Some(self.puller.len()))
            }
            ["takes"] => say_pull(rt, text, self.puller.take(FILE)),
            ["chooses"] => say_pull(rt, text, self.puller.choose(&Ready)),
            ["hears", said @ ..] => self.hears(rt, said, &mut out),
            _ => self.acts(rt, words, &mut out),
        }
        tell(rt, self.alloc, &out, text);
    }
}

impl Pulling {
    /// What comes to the site.
    fn hears<R: Abort + Eprint>(&mut self, rt: &R, words: &[&str], out: &mut Outbox) {
        let (puller, frame) = (&mut self.puller, &self.frame);
        let done = match words {
            ["notify", ino, n, one, three] => {
                let pull = committed(rt, self.alloc, [ino, n, one, three]);
                puller.on_notify(frame, pull.holder, self.own, pull, out)
            }
            ["page", page, n, size] => {
                let came = [7; 1_025];
                let bytes = came.get(..usize::from(short(rt, size)));
                let bytes = bytes.expect(rt, "a long page");
                puller.on_page(
                    frame,
                    FILE,
                    stamp(1, long(rt, n)),
                    byte(rt, page),
                    bytes,
                    out,
                )
            }
            ["delta", n, said @ ..] => {
                let pages = pages_of(rt, self.alloc, said);
                let version = stamp(1, long(rt, n));
                puller.on_delta(frame, self.own, FILE, version, pages.as_slice(), out)
            }
            _ => rt.panic("nothing to hear"),
        };
        done.expect(rt, "no memory");
    }

    /// What the site does by itself, and what else becomes of it.
    fn acts<R: Abort>(&mut self, rt: &R, words: &[&str], out: &mut Outbox) {
        match words {
            ["ticks"] => self
                .puller
                .repeats(&self.frame, out)
                .expect(rt, "no memory"),
            ["has", n] => self.own = Some(copy_of(long(rt, n))),
            ["drops"] => self.puller.drop_pull(FILE),
            ["leaves"] => self.puller.leave(),
            _ => rt.panic("nothing to do"),
        }
    }
}

/// A version of a file, by its number and by so many commits of sites 1 and 3.
fn committed<R: Abort + Eprint>(rt: &R, alloc: Global, [ino, n, one, three]: [&str; 4]) -> Pull {
    Pull {
        file: FileId {
            group: 0,
            ino: short(rt, ino),
        },
        kind: Kind::File,
        set: Sites(0b111),
        size: 1_536,
        stamp: stamp(1, long(rt, n)),
        vector: vector(long(rt, one), 0, long(rt, three)),
        holder: given(rt, site(1)),
        base: None,
        wanted: None,
        content: Bytes::new(alloc),
    }
}

/// The site's own version 1.n of the file, of one page.
fn copy_of(n: u32) -> CopyHead {
    CopyHead {
        stamp: stamp(1, n),
        vector: vector(n, 0, 0),
        size: 1_024,
    }
}

fn pages_of<R: Abort>(rt: &R, alloc: Global, words: &[&str]) -> PageNumbers {
    let mut pages = PageNumbers::new(alloc);
    for word in words {
        pages.push(short(rt, word)).expect(rt, "no memory");
    }
    pages
}

/// The file of a pull, how many bytes have come, and over which version.
fn say_pull<R: Abort + Eprint>(rt: &R, text: &mut String, pull: Option<Pull>) {
    match &pull {
        Some(found) => {
            say_file(rt, text, Some(found.file));
            say(rt, text, " ");
            say_number(rt, text, Some(found.content.len()));
            if let Some(Stamp { site, n }) = found.base {
                write!(text, "over {site}.{n}").expect(rt, "no memory");
            }
        }
        None => say(rt, text, "none"),
    }
}

/// A site where each pull is ready, and that of inode 2 is stale.
struct Ready;

impl Adopting for Ready {
    ghost use Rattle.std.specs.Prelude.{true, nat_lt};

    ghost ready = { λ site pull. true };

    ghost above = { λ site pull. nat_lt 2 pull.file.ino };

    fn is_ready(&self, _: &Pull) -> bool {
        true
    }

    fn is_above_own(&self, pull: &Pull) -> bool {
        pull.file.ino > 2
    }
}
