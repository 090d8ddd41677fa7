// A call with the answers that it has had, for the script of its tests. Group 1 stands on `usr`. What comes of an answer is what the
// call asks next.
use crate::checks::given;
use crate::script::{Room, say};
use crate::words::{
    bytes_of, call_of, kind_of, long, outcome_of, say_file, say_if, say_number, short, stamp_of,
    why_of,
};
use call_rules::{Answer, Want};
use call_scripts::Script;
use locus_ids::{CallId, FileId, Mounts, Names, Refusal};
use role_shown::{FILE, epoch, inst, mounts, push_op, push_reply, stamp};
use std::alloc::Global;
use std::process::Abort;
use trace_book::{Beginning, Call, OneVersion};

/// A call at work.
pub struct Calling {
    script: Script,
    mounts: Mounts,
    alloc: Global,
}

// Taken apart in one place: where one is dropped, the prover sees one call.
impl Drop for Calling {
    fn drop(self) {
        let Calling {
            script: _,
            mounts: _,
            alloc: _,
        } = self;
    }
}

impl Room for Calling {
    fn new<R: Abort + Eprint>(rt: &R, alloc: Global) -> Calling {
        let script = Script::start(alloc, Call::Close { fd: 0 }, Beginning::Frees);
        Calling {
            script: script.expect(rt, "no memory"),
            mounts: given(rt, mounts(alloc)),
            alloc,
        }
    }

    fn does<R: Abort + Eprint>(&mut self, rt: &R, words: &[&str], text: &mut String) {
        match words {
            ["begins", how, said @ ..] => {
                let call = call_of(rt, self.alloc, said);
                let script = Script::start(self.alloc, call, beginning_of(rt, how));
                self.script = script.expect(rt, "no memory");
                self.asks(rt, text)
            }
            ["takes", "back"] => self.script.take_back(),
            ["asks"] => self.asks(rt, text),
            ["answers"] => say_number(rt, text, Some(self.script.answers().len())),
            ["creates"] => say_if(rt, text, matches!(self.script.words(), Call::Create { .. })),
            said => {
                let answer = answer_of(rt, self.alloc, said);
                self.script.answer(answer).expect(rt, "no memory");
                self.asks(rt, text)
            }
        }
    }
}

impl Calling {
    /// What the call asks next.
    fn asks<R: Abort + Eprint>(&self, rt: &R, text: &mut String) {
        let want = self.script.next(self.mounts.as_slice(), Some(4));
        say_want(rt, self.alloc, text, &want.expect(rt, "no memory"));
    }
}

/// How a call begins. It is the second of its site.
fn beginning_of<R: Abort>(rt: &R, how: &str) -> Beginning {
    match how {
        "walks" => Beginning::Walks {
            call: CallId {
                site: 1,
                boot: 1,
                n: 2,
            },
        },
        "uses" => Beginning::Uses {
            epoch: epoch(1, 1, 1),
            inst: inst(1, 1),
        },
        "reopens" => Beginning::Reopens {
            version: version(2),
            last: epoch(1, 1, 1),
        },
        "denied" => Beginning::Denied {
            why: Refusal::BadDescriptor,
        },
        _ => rt.panic("no beginning"),
    }
}

/// Version 1.n of the file.
fn version(n: u32) -> OneVersion {
    OneVersion {
        file: FILE,
        stamp: stamp(1, n),
    }
}

/// What the call is answered. What is opened is an instance of site 1.
pub fn answer_of<R: Abort>(rt: &R, alloc: Global, words: &[&str]) -> Answer {
    match words {
        ["entered", ino, kind] => Answer::Entered {
            ino: short(rt, ino),
            kind: kind_of(kind),
        },
        ["showed", first, second] => Answer::Showed {
            names: names_of(rt, alloc, first, second),
        },
        ["described", kind, size, stamp] => Answer::Described {
            kind: kind_of(kind),
            size: long(rt, size),
            stamp: stamp_of(rt, stamp),
        },
        ["opened", serial, ino] => Answer::Opened {
            inst: inst(1, long(rt, serial)),
            ino: short(rt, ino),
        },
        ["reading", serial, n] => Answer::Reading {
            inst: inst(1, long(rt, serial)),
            version: version(long(rt, n)),
        },
        ["did", said @ ..] => Answer::Did {
            result: outcome_of(rt, alloc, said),
        },
        ["ended"] => Answer::Ended { stamp: None },
        ["ended", stamp] => Answer::Ended {
            stamp: Some(stamp_of(rt, stamp)),
        },
        why => Answer::Refused {
            why: why_of(rt, why),
        },
    }
}

fn names_of<R: Abort>(rt: &R, alloc: Global, first: &str, second: &str) -> Names {
    let mut names = Names::new(alloc);
    names
        .push(bytes_of(rt, alloc, first))
        .expect(rt, "no memory");
    names
        .push(bytes_of(rt, alloc, second))
        .expect(rt, "no memory");
    names
}

fn say_want<R: Abort + Eprint>(rt: &R, alloc: Global, text: &mut String, want: &Want) {
    match want {
        Want::Look { file, .. } => say_of(rt, text, "look ", *file),
        Want::Open { file, .. } => say_of(rt, text, "open ", *file),
        Want::OpenToMend { file } => say_of(rt, text, "mend ", *file),
        Want::Make { group, sites, .. } => {
            write!(text, "make in {group}").expect(rt, "no memory");
            say(rt, text, if sites.is_some() { " for some" } else { "" })
        }
        Want::Do { inst, op } => given(rt, push_op(alloc, text, *inst, op)),
        Want::Close { inst } => write!(text, "close {}", inst.serial).expect(rt, "no memory"),
        Want::Give { reply } => {
            let reply = reply.copy().expect(rt, "no memory");
            given(rt, push_reply(alloc, text, reply))
        }
        Want::Never => say(rt, text, "never"),
    }
}

fn say_of<R: Abort + Eprint>(rt: &R, text: &mut String, word: &str, file: FileId) {
    say(rt, text, word);
    say_file(rt, text, Some(file));
}
