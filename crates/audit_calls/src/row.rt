ghost use Rattle.std.specs.Prelude.{◌≡◌, ◌∷◌, [], IfOk, OnOk, OnErr};
ghost use Rattle.call_rules.specs.Scripts.{named_wants};
ghost use Rattle.audit_calls.specs.Rows.{begun, with_answer, with_earlier, with_last_answer, with_grant, replied};

use call_rules::{Answer, Want};
use call_scripts::Script;
use locus_ids::{CallId, EpochId, Mount, NoMemory};
use std::alloc::Global;
use std::marker::Model;
use trace_book::{Beginning, Call, Descriptor};

/// What is known of a call as it is accepted, besides its words and where it begins.
#[derive(Clone, Copy)]
pub struct Accepted {
    pub id: CallId,
    pub process: u8,
    /// The epoch that its site was in.
    pub epoch: Option<EpochId>,
    /// The number that an open would take.
    pub free: Option<u16>,
    /// Which use of its instance it is.
    pub turn: u32,
}

/// An accepted call, as far as the records tell of it.
pub struct CallRow {
    at: Accepted,
    script: Script,
    granted: Option<Descriptor>,
    alloc: Global,
    waits: bool,
}

// Taken apart in one place: where a call is dropped, the prover sees one call.
impl Drop for CallRow {
    fn drop(self) {
        let CallRow {
            at: _,
            script: _,
            granted: _,
            alloc: _,
            waits: _,
        } = self;
    }
}

impl Model for CallRow {
    ghost use Rattle.promises.specs.Past.{CallSoFar};

    ghost Value = { CallSoFar };

    ghost use Rattle.audit_calls.specs.Shown.{shown};

    ghost view = { shown };
}

impl CallRow {
    /// A call that waits, and that nothing has been answered yet.
    pub fn begin(
        alloc: Global,
        at: Accepted,
        words: Call,
        begins: Beginning,
    ) -> Result<CallRow, NoMemory>
        ensures { IfOk result (λ row. row ≡ begun at words begins) }
    {
        let script = Script::start(alloc, words, begins)?;
        Ok(CallRow {
            at,
            script,
            granted: None,
            alloc,
            waits: true,
        })
    }

    pub fn id(&self) -> CallId
        ensures { result ≡ self.now.id }
    {
        self.at.id
    }

    pub fn process(&self) -> u8
        ensures { result ≡ self.now.process }
    {
        self.at.process
    }

    pub fn words(&self) -> &Call
        ensures { result.now ≡ self.now.words }
    {
        self.script.words()
    }

    /// The epoch that its site was in.
    pub fn epoch(&self) -> Option<EpochId>
        ensures { result ≡ self.now.epoch }
    {
        self.at.epoch
    }

    pub fn begins(&self) -> &Beginning
        ensures { result.now ≡ self.now.begins }
    {
        self.script.begins()
    }

    /// The number that an open would take.
    pub fn free(&self) -> Option<u16>
        ensures { result ≡ self.now.free }
    {
        self.at.free
    }

    /// Which use of its instance it is.
    pub fn turn(&self) -> u32
        ensures { result ≡ self.now.turn }
    {
        self.at.turn
    }

    /// The instance that was granted to it last, as a descriptor would name it.
    pub fn granted(&self) -> Option<Descriptor>
        ensures { result ≡ self.now.granted }
    {
        self.granted
    }

    /// What its requests were answered, the earliest first.
    pub fn answers(&self) -> &[Answer]
        ensures { result.now ≡ self.now.answers }
    {
        self.script.answers()
    }

    pub fn waits(&self) -> bool
        ensures { result ≡ self.now.waits }
    {
        self.waits
    }

    pub(crate) fn allocator(&self) -> Global {
        self.alloc
    }

    /// What it asks next, or its reply.
    pub(crate) fn next(&self, mounts: &[Mount]) -> Result<Want, NoMemory>
        ensures { IfOk result (λ w. w ≡ named_wants mounts.now self.now.free self.now.words self.now.begins self.now.answers) }
    {
        self.script.next(mounts, self.at.free)
    }

    /// One request more was answered.
    pub(crate) fn answer(&mut self, answer: Answer) -> Result<(), NoMemory>
        ensures ok { OnOk result (self.new ≡ with_answer answer self.old) }
        ensures err { OnErr result (self.new ≡ self.old) }
    {
        let all = self.script.answers().len();
        self.script.answer_after(all, answer)?;
        Ok(())
    }

    /// The request of this number was answered, maybe again: the last answer counts.
    pub(crate) fn look(&mut self, request: u16, answer: Answer) -> Result<(), NoMemory>
        ensures ok { OnOk result (self.new ≡ with_last_answer request answer self.old) }
        ensures err { OnErr result (self.new ≡ with_earlier request self.old) }
    {
        let earlier = usize::from(request).saturating_sub(1);
        self.script.answer_after(earlier, answer)?;
        Ok(())
    }

    /// An open was granted.
    pub(crate) fn grant(&mut self, descriptor: Descriptor, answer: Answer) -> Result<(), NoMemory>
        ensures ok { OnOk result (self.new ≡ with_grant descriptor answer self.old) }
        ensures err { OnErr result (self.new ≡ self.old) }
    {
        let all = self.script.answers().len();
        self.script.answer_after(all, answer)?;
        self.granted = Some(descriptor);
        Ok(())
    }

    /// It has its reply, or none will come.
    pub(crate) fn end(&mut self)
        ensures { self.new ≡ replied self.old }
    {
        self.waits = false;
    }
}
