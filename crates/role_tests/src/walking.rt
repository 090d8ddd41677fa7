// Paths and the walks along them, for the script of their tests. Group 1 stands on `usr`.
use crate::calling::answer_of;
use crate::checks::given;
use crate::script::{Room, say};
use crate::words::{say_file, say_if, say_number};
use call_rules::Answer;
use locus_ids::{Bytes, Kind, Mounts};
use path_walk::{
    Walked, components, is_first_root, is_mounted, is_name, is_path, last_of, mounted, mounted_in,
    plain_name, root_of, walk, without_last,
};
use role_shown::{FILE, ROOT, mounts, push_reply};
use std::alloc::Global;
use std::process::Abort;
use trace_book::Reply;

/// A walk with the answers that it has had.
pub struct Walking {
    answers: Vec<Answer>,
    mounts: Mounts,
    alloc: Global,
}

// Taken apart in one place: where one is dropped, the prover sees one call.
impl Drop for Walking {
    fn drop(self) {
        let Walking {
            answers: _,
            mounts: _,
            alloc: _,
        } = self;
    }
}

impl Room for Walking {
    fn new<R: Abort + Eprint>(rt: &R, alloc: Global) -> Walking {
        Walking {
            answers: Vec::new(alloc),
            mounts: given(rt, mounts(alloc)),
            alloc,
        }
    }

    fn does<R: Abort + Eprint>(&mut self, rt: &R, words: &[&str], text: &mut String) {
        match words {
            ["hears", said @ ..] => {
                let answer = answer_of(rt, self.alloc, said);
                self.answers.push(answer).expect(rt, "no memory");
            }
            ["root"] => say_file(rt, text, Some(root_of(1))),
            ["first", "root"] => say_if(rt, text, is_first_root(ROOT)),
            ["first", "file"] => say_if(rt, text, is_first_root(FILE)),
            ["name", how] => self.names(rt, how, "", text),
            ["name", how, name] => self.names(rt, how, name, text),
            ["path", how] => self.walks(rt, how, "", text),
            ["path", how, path] => self.walks(rt, how, path, text),
            _ => rt.panic("nothing to do"),
        }
    }
}

impl Walking {
    /// What is said of a path.
    fn walks<R: Abort + Eprint>(&self, rt: &R, how: &str, path: &str, text: &mut String) {
        let names = components(self.alloc, path.as_bytes()).expect(rt, "no memory");
        let parts = names.as_slice();
        match how {
            "has" => say_names(rt, text, parts),
            "is" => say_if(rt, text, is_path(path.as_bytes(), parts)),
            "ends" => say_bytes(rt, text, last_of(parts)),
            "begins" => say_names(rt, text, without_last(parts)),
            _ => {
                let came = walk(self.mounts.as_slice(), parts, self.answers.as_slice());
                say_walk(rt, self.alloc, text, came.expect(rt, "no memory"))
            }
        }
    }

    /// What is said of a name.
    fn names<R: Abort>(&self, rt: &R, how: &str, name: &str, text: &mut String) {
        let (mounts, name) = (self.mounts.as_slice(), name.as_bytes());
        let group = match how {
            "is" => return say_if(rt, text, is_name(name)),
            "plain" => return say_bytes(rt, text, plain_name(name)),
            "stands" => return say_if(rt, text, is_mounted(mounts, name)),
            "mount" => mounted(mounts, name),
            "mount-in-root" => mounted_in(mounts, ROOT, name),
            _ => mounted_in(mounts, root_of(1), name),
        };
        say_number(rt, text, group.map(usize::from));
    }
}

fn say_bytes<R: Abort>(rt: &R, text: &mut String, bytes: &[u8]) {
    say(rt, text, str::from_utf8(bytes).expect(rt, "no text"));
}

/// The names, with a comma behind each.
fn say_names<R: Abort>(rt: &R, text: &mut String, names: &[Bytes]) {
    for name in names {
        say_bytes(rt, text, name.as_slice());
        say(rt, text, ",");
    }
}

/// Where a walk along a path has come.
fn say_walk<R: Abort + Eprint>(rt: &R, alloc: Global, text: &mut String, walked: Walked<'_>) {
    match walked {
        Walked::Asks { dir, name } => {
            say_bytes(rt, text, name);
            say(rt, text, " in ");
            say_file(rt, text, Some(dir))
        }
        Walked::Fails { why } => given(rt, push_reply(alloc, text, Reply::No { why })),
        Walked::There {
            file,
            kind,
            answers,
        } => {
            say_file(rt, text, Some(file));
            say(
                rt,
                text,
                if kind == Kind::Dir {
                    " directory, left "
                } else {
                    " file, left "
                },
            );
            say_number(rt, text, Some(answers.len()))
        }
        Walked::Strays => say(rt, text, "strays"),
    }
}
