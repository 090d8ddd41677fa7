ghost use Rattle.std.specs.Prelude.{◌≡◌, ℕ, List, Option, IfOk, OnOk};
ghost use Rattle.std.specs.Option.{is_some};
ghost use Rattle.call_rules.specs.declared.answer.Answer.{Answer};
ghost use Rattle.role_steps.specs.declared.users.Asking.{Asking};
ghost use Rattle.role_steps.specs.declared.users.WaitingCall.{WaitingCall};
ghost use Rattle.role_steps.specs.declared.users.Asking.TheVariants as asking;
ghost use Rattle.role_steps.specs.Using.{accepted, own_call, with_answer};

use call_rules::Answer;
use call_scripts::Script;
use locus_ids::{Bytes, CallId, NoMemory, SiteId};
use std::alloc::Global;
use trace_book::{Beginning, Call};

/// A call that has no reply yet, without the request that it waits for.
pub struct Caller {
    /// 0 for a mend, which its site calls itself.
    pub process: u8,
    /// The number of the call at its site.
    pub call: u32,
    pub script: Script,
    /// The number of its last request, 0 before the first.
    pub request: u16,
    /// The whole contents that its looks have brought, for a mend.
    pub brought: Vec<Bytes>,
    /// The bytes of its read, where its site had all of them in memory as it accepted the call.
    pub copied: Option<Bytes>,
}

// Taken apart in one place: where a call is dropped, the prover sees one call of this, and not each text that it may hold.
impl Drop for Caller {
    fn drop(self) {
        let Caller {
            process: _,
            call: _,
            script: _,
            request: _,
            brought: _,
            copied: _,
        } = self;
    }
}

impl Caller {
    ghost use Rattle.waiting_calls.specs.Called.{called, with_content};

    /// A call that has asked nothing yet.
    pub fn start(
        alloc: Global,
        process: u8,
        call: u32,
        words: Call,
        begins: Beginning,
    ) -> Result<Caller, NoMemory>
        ensures { IfOk result (λ c. called c (asking.Close 0 0) ≡ accepted process call words begins) }
    {
        Ok(Caller {
            process,
            call,
            script: Script::start(alloc, words, begins)?,
            request: 0,
            brought: Vec::new(alloc),
            copied: None,
        })
    }

    /// Takes an answer, with the content that a look has brought.
    pub fn hear(&mut self, answer: Answer, content: Option<Bytes>) -> Result<(), NoMemory>
        ensures { (a : Asking) → OnOk result (called self.new a ≡ with_answer (with_content content (called self.old a)) answer) }
    {
        self.script.answer(answer)?;
        match content {
            Some(bytes) => {
                self.brought.push(bytes)?;
                Ok(())
            }
            None => Ok(()),
        }
    }

    /// Is as it was before its last answer, with which it took a content or none.
    pub fn unhear(&mut self, had_content: bool)
        ensures { (w : WaitingCall) (a : Asking) (answer : Answer) (content : Option (List ℕ)) → is_some content ≡ had_content → called self.old a ≡ with_answer (with_content content w) answer → called self.new a ≡ w }
    {
        self.script.take_back();
        if had_content {
            self.brought.pop();
        }
    }
}

/// A call of this site and boot.
pub fn own_call(me: SiteId, boot: u32, n: u32) -> CallId
    ensures { result ≡ own_call me boot n }
{
    CallId {
        site: me.get(),
        boot,
        n,
    }
}
