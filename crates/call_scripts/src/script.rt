ghost use Rattle.std.specs.Prelude.{◌≡◌, ◌∷◌, ◌++◌, [], List, IfOk, OnOk, take, OnErr};
ghost use Rattle.trace_book.specs.Messages.{message_name};
ghost use Rattle.trace_book.specs.Names.{components};
ghost use Rattle.call_rules.specs.declared.answer.Answer.{Answer};
ghost use Rattle.call_rules.specs.Scripts.{begun_wants, named_wants, path_wants};
ghost use Rattle.call_scripts.specs.Reaches.{mails_to};
ghost use Rattle.call_scripts.specs.Scripted.{path_of};

use crate::paths::{
    Message, list_wants, mail_wants, mails_wants, make_wants, open_wants, remove_wants,
    rename_wants, stat_wants,
};
use crate::words::{is_badly_named, path_of};
use call_rules::{Answer, Want};
use instance_scripts::{mend_wants, reopen_wants, uses_wants};
use locus_ids::{Bytes, CallId, Kind, Mount, Names, NoMemory, Refusal};
use mailbox_join::message_name;
use path_walk::components;
use std::alloc::Global;
use std::marker::Model;
use trace_book::{Beginning, Call, Reply};

/// The script of one call: its words, where it began, and what its requests were answered so far, the earliest answer
/// first. The components of its path are kept beside them.
#[derive(Drop)]
pub struct Script {
    words: Call,
    begins: Beginning,
    names: Names,
    answers: Vec<Answer>,
}

impl Model for Script {
    ghost use Rattle.std.specs.Prelude.{◌≡◌};
    ghost use Rattle.trace_book.specs.Names.{components};
    ghost use Rattle.call_scripts.specs.Scripted.{Scripted, path_of};

    ghost Value = { Scripted };

    ghost view = { λ s. record { words = s.words; begins = s.begins; answers = s.answers.items } };

    ghost invariant = { λ s. s.names ≡ components (path_of s.words) };
}

impl Script {
    /// A call that nothing has been answered yet.
    pub fn start(alloc: Global, words: Call, begins: Beginning) -> Result<Script, NoMemory>
        ensures { IfOk result (λ s. s ≡ record { words = words; begins = begins; answers = [] }) }
    {
        let names = components(alloc, path_of(&words))?;
        Ok(Script {
            words,
            begins,
            names,
            answers: Vec::new(alloc),
        })
    }

    pub fn words(&self) -> &Call
        ensures { result.now ≡ self.now.words }
    {
        &self.words
    }

    /// Where it began.
    pub fn begins(&self) -> &Beginning
        ensures { result.now ≡ self.now.begins }
    {
        &self.begins
    }

    /// What its requests were answered so far.
    pub fn answers(&self) -> &[Answer]
        ensures { result.now ≡ self.now.answers }
    {
        self.answers.as_slice()
    }

    /// One request more is answered. After `NoMemory` the script is as it was.
    pub fn answer(&mut self, answer: Answer) -> Result<(), NoMemory>
        ensures { OnOk result (self.new ≡ record self.old { answers = self.old.answers ++ answer ∷ [] }) }
    {
        self.answers.push(answer)?;
        Ok(())
    }

    /// The first answers, so many or all, stay, and this one comes after them. After `NoMemory` it doesn't.
    pub fn answer_after(&mut self, many: usize, answer: Answer) -> Result<(), NoMemory>
        ensures ok { OnOk result (self.new ≡ record self.old { answers = take many self.old.answers ++ answer ∷ [] }) }
        ensures err { OnErr result (self.new ≡ record self.old { answers = take many self.old.answers }) }
    {
        self.answers.truncate(many);
        self.answers.push(answer)?;
        Ok(())
    }

    /// The last answer is taken back.
    pub fn take_back(&mut self)
        ensures { (earlier : List Answer) (last : Answer) → self.old.answers ≡ earlier ++ last ∷ [] → self.new ≡ record self.old { answers = earlier } }
    {
        self.answers.pop();
    }

    /// What the call asks next, or its reply, wherever packs stand. `free` is the lowest free descriptor of its process.
    pub fn next(&self, mounts: &[Mount], free: Option<u16>) -> Result<Want, NoMemory>
        ensures { IfOk result (λ w. w ≡ named_wants mounts.now free self.now.words self.now.begins self.now.answers) }
    {
        let names = self.names.as_slice();
        if is_badly_named(mounts, &self.words, names) {
            return Ok(Want::Give {
                reply: Reply::No {
                    why: Refusal::BadName,
                },
            });
        }
        let answers = self.answers.as_slice();
        match &self.begins {
            Beginning::Denied { why } => {
                let why = why.copy()?;
                Ok(Want::Give {
                    reply: Reply::No { why },
                })
            }
            Beginning::Uses { epoch: _, inst } => uses_wants(&self.words, *inst, answers),
            Beginning::Reopens { version, last } => {
                reopen_wants(&self.words, *version, *last, answers)
            }
            Beginning::Frees => Ok(Want::Give {
                reply: Reply::Closed { stamp: None },
            }),
            Beginning::Walks { call } => {
                let alloc = *self.answers.allocator();
                let walk = Walk {
                    mounts,
                    names,
                    free,
                    call: *call,
                };
                path_wants(alloc, walk, &self.words, answers)
            }
        }
    }
}

/// What a walk needs: the mounts, the components of the path, the lowest free descriptor, and the name of the call.
#[derive(Clone, Copy)]
struct Walk<'a> {
    mounts: &'a [Mount],
    names: &'a [Bytes],
    free: Option<u16>,
    call: CallId,
}

/// What a call asks that walks a path, or mends.
fn path_wants(alloc: Global, walk: Walk, words: &Call, answers: &[Answer]) -> Result<Want, NoMemory>
    requires { walk.names.now ≡ components (path_of words.now) }
    ensures { IfOk result (λ w. w ≡ path_wants walk.entry.mounts.now walk.entry.free walk.entry.call words.now answers.now) }
{
    let mounts = walk.mounts;
    let names = walk.names;
    match words {
        Call::Create { path, sites } => {
            let path = path.as_slice();
            make_wants(alloc, mounts, path, names, Kind::File, *sites, answers)
        }
        Call::MakeDir { path } => {
            let path = path.as_slice();
            make_wants(alloc, mounts, path, names, Kind::Dir, None, answers)
        }
        Call::Unlink { path } => {
            let path = path.as_slice();
            remove_wants(alloc, mounts, path, names, Kind::File, answers)
        }
        Call::RemoveDir { path } => {
            let path = path.as_slice();
            remove_wants(alloc, mounts, path, names, Kind::Dir, answers)
        }
        Call::Rename { path, name } => {
            let path = path.as_slice();
            rename_wants(alloc, mounts, path, names, name.as_slice(), answers)
        }
        Call::List { path: _ } => list_wants(alloc, mounts, names, answers),
        Call::Stat { path: _ } => stat_wants(alloc, mounts, names, answers),
        Call::Open { path: _, mode } => open_wants(alloc, mounts, names, *mode, walk.free, answers),
        Call::Mail { path: _, bytes } => mails(alloc, walk, bytes.as_slice(), answers),
        Call::Mails { path: _ } => mails_wants(alloc, mounts, names, answers),
        Call::Mend { file } => mend_wants(*file, answers),
        _ => Ok(Want::Never),
    }
}

/// What a mail asks: its message has the call's name.
fn mails(alloc: Global, walk: Walk, bytes: &[u8], answers: &[Answer]) -> Result<Want, NoMemory>
    ensures { IfOk result (λ w. w ≡ mails_to walk.entry.mounts.now walk.entry.names.now (message_name walk.entry.call) bytes.now answers.now) }
{
    let mut name = Bytes::new(alloc);
    message_name(&walk.call, &mut name)?;
    let message = Message {
        name: name.as_slice(),
        bytes,
    };
    mail_wants(alloc, walk.mounts, walk.names, message, answers)
}
