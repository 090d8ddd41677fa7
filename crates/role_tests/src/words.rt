// What the words of a script stand for. Calls are said as in a trace.
use crate::checks::given;
use crate::script::say;
use locus_ids::{Bytes, EpochId, FileId, Kind, Refusal, Stamp};
use role_shown::push_file;
use std::alloc::Global;
use std::process::Abort;
use trace_book::{Call, OpenMode, Outcome};

/// A yes or a no.
pub fn say_if<R: Abort>(rt: &R, text: &mut String, is_so: bool) {
    say(rt, text, if is_so { "yes" } else { "no" });
}

/// A number, or that there is none.
pub fn say_number<R: Abort>(rt: &R, text: &mut String, number: Option<usize>) {
    match number {
        Some(number) => write!(text, "{number} ").expect(rt, "no memory"),
        None => say(rt, text, "none"),
    }
}

pub fn say_file<R: Abort + Eprint>(rt: &R, text: &mut String, file: Option<FileId>) {
    match file {
        Some(file) => given(rt, push_file(text, file)),
        None => say(rt, text, "none"),
    }
}

pub fn byte<R: Abort>(rt: &R, word: &str) -> u8 {
    word.parse().ok().expect(rt, "no byte")
}

pub fn short<R: Abort>(rt: &R, word: &str) -> u16 {
    word.parse().ok().expect(rt, "no short number")
}

pub fn long<R: Abort>(rt: &R, word: &str) -> u32 {
    word.parse().ok().expect(rt, "no number")
}

/// The name of a version: a site and a number.
pub fn stamp_of<R: Abort>(rt: &R, word: &str) -> Stamp {
    let (site, n) = word.split_once(".").expect(rt, "no stamp");
    Stamp {
        site: byte(rt, site),
        n: long(rt, n),
    }
}

/// The name of an epoch: a number, a site and its boot.
pub fn epoch_of<R: Abort>(rt: &R, word: &str) -> EpochId {
    let (number, rest) = word.split_once(".").expect(rt, "no epoch");
    let Stamp { site, n: boot } = stamp_of(rt, rest);
    EpochId {
        number: long(rt, number),
        site,
        boot,
    }
}

pub fn kind_of(word: &str) -> Kind {
    if word == "d" { Kind::Dir } else { Kind::File }
}

pub fn bytes_of<R: Abort>(rt: &R, alloc: Global, said: &str) -> Bytes {
    Bytes::from_slice(alloc, said.as_bytes()).expect(rt, "no memory")
}

pub fn why_of<R: Abort>(rt: &R, words: &[&str]) -> Refusal {
    match words {
        ["busy", site, process] => Refusal::Busy {
            site: byte(rt, site),
            process: byte(rt, process),
        },
        ["nospace"] => Refusal::NoSpace { needed: 1, free: 0 },
        ["exists", ino] => Refusal::Exists {
            ino: short(rt, ino),
        },
        ["nostorage"] => Refusal::NoStorage,
        ["toolong"] => Refusal::TooLong,
        _ => rt.panic("no refusal"),
    }
}

/// What an operation gave.
pub fn outcome_of<R: Abort>(rt: &R, alloc: Global, words: &[&str]) -> Outcome {
    match words {
        ["ok"] => Outcome::Done,
        ["data", said] => Outcome::Data {
            bytes: bytes_of(rt, alloc, said),
        },
        ["found", ino, kind] => Outcome::Found {
            ino: short(rt, ino),
            kind: kind_of(kind),
        },
        why => Outcome::No {
            why: why_of(rt, why),
        },
    }
}

/// The call that the words say, of descriptor 0 where they name none. Bytes are said as text.
pub fn call_of<R: Abort>(rt: &R, alloc: Global, words: &[&str]) -> Call {
    match words {
        ["read", fd, at, len] => Call::Read {
            fd: short(rt, fd),
            at: long(rt, at),
            len: short(rt, len),
        },
        ["write", said] => Call::Write {
            fd: 0,
            at: 0,
            bytes: bytes_of(rt, alloc, said),
        },
        ["cut", len] => Call::Cut {
            fd: 0,
            len: long(rt, len),
        },
        ["commit"] => Call::Commit { fd: 0 },
        ["abort"] => Call::Abort { fd: 0 },
        ["close"] => Call::Close { fd: 0 },
        ["create"] => path_call(rt, "create", Bytes::new(alloc)),
        [how, path] => path_call(rt, how, bytes_of(rt, alloc, path)),
        [how, path, said] => said_call(rt, alloc, how, path, said),
        _ => rt.panic("no call"),
    }
}

fn path_call<R: Abort>(rt: &R, how: &str, path: Bytes) -> Call {
    match how {
        "create" => Call::Create { path, sites: None },
        "unlink" => Call::Unlink { path },
        "list" => Call::List { path },
        "stat" => Call::Stat { path },
        _ => rt.panic("no call of a path"),
    }
}

fn said_call<R: Abort>(rt: &R, alloc: Global, how: &str, path: &str, said: &str) -> Call {
    let path = bytes_of(rt, alloc, path);
    match how {
        "open" => Call::Open {
            path,
            mode: mode_of(said),
        },
        "mail" => Call::Mail {
            path,
            bytes: bytes_of(rt, alloc, said),
        },
        "rename" => Call::Rename {
            path,
            name: bytes_of(rt, alloc, said),
        },
        _ => rt.panic("no call of a path and more"),
    }
}

fn mode_of(word: &str) -> OpenMode {
    match word {
        "r" => OpenMode::Read,
        "w" => OpenMode::Write,
        _ => OpenMode::Steady,
    }
}
