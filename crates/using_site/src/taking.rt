ghost use Rattle.std.specs.Prelude.{◌≡◌, Some, OnOk};
ghost use Rattle.role_steps.specs.Tables.{row};
ghost use Rattle.role_steps.specs.Requests.{waiting_key};
ghost use Rattle.role_steps.specs.Using.{frees, goes_on, on_call, takes_answer};
ghost use Rattle.role_steps.specs.declared.users.Asking.{Asking};
ghost use Rattle.role_steps.specs.declared.users.WaitingCall.{WaitingCall};
ghost use Rattle.keyed_tables.specs.Rising.{Rising};
ghost use Rattle.using_site.specs.Steps.{Gives};
ghost use Rattle.waiting_calls.specs.Called.{called, with_content};

use crate::users::UsingSite;
use call_rules::Answer;
use keyed_tables::{descriptor_key, waiting_key};
use locus_ids::{Bytes, EpochId, NoMemory};
use site_frame::SiteFrame;
use trace_book::{Call, Record};
use waiting_calls::{Caller, Step, Waiting, own_call};
use wire_messages::Outbox;

impl UsingSite {
    /// A call is accepted: it asks its first request, or is replied to at once. A site in no epoch has the frame of no
    /// members. Where the calls of this boot are numbered to the end, the answer is `NoMemory`.
    pub fn call(
        &mut self,
        frame: &SiteFrame,
        now: Option<EpochId>,
        process: u8,
        words: Call,
        out: &mut Outbox,
    ) -> Result<(), NoMemory>
        ensures { OnOk result (Gives (on_call frame.now now process words self.old) self.new out.old out.new) }
    {
        let Some(call) = self.calls.checked_add(1) else {
            return Err(NoMemory);
        };
        let name = own_call(frame.me, frame.boot, call);
        let begins = self.beginning(now, process, name, &words);
        let copied = self.copy_part(&words, &begins)?;
        out.note(Record::Accept {
            site: frame.me.get(),
            process,
            call: name,
            words: words.copy()?,
        })?;
        self.calls = call;
        self.free(process, &words);
        let mut caller = Caller::start(self.alloc, process, call, words, begins)?;
        caller.copied = copied;
        self.begin(frame, caller, out)
    }

    /// A close frees the number of its descriptor as it is accepted.
    fn free(&mut self, process: u8, words: &Call)
        ensures { self.new ≡ frees process words.now self.old }
    {
        if let Call::Close { fd } = words {
            self.descriptors.remove(descriptor_key(process, *fd));
        }
    }

    /// The first step of a call.
    fn begin(&mut self, frame: &SiteFrame, caller: Caller, out: &mut Outbox) -> Result<(), NoMemory>
        ensures { (a : Asking) → OnOk result (Gives (goes_on frame.now (called caller a) self.old) self.new out.old out.new) }
    {
        let want = self.next_want(frame, &caller)?;
        match self.step(frame, &caller, want)? {
            Step::Asks { asking } => self.ask(frame, caller, asking, out),
            Step::Replies { reply } => {
                let key = waiting_key(caller.process, caller.script.words());
                self.waiting.remove(key);
                self.reply(frame, &caller, reply, out)
            }
            Step::Stays => Ok(()),
        }
    }

    /// The waiting call of this key takes an answer, with the content that a look has brought, and goes on.
    pub(crate) fn take(
        &mut self,
        frame: &SiteFrame,
        key: u64,
        answer: Answer,
        content: Option<Bytes>,
        out: &mut Outbox,
    ) -> Result<(), NoMemory>
        ensures { (w : WaitingCall) → Rising waiting_key self.old.waiting → row waiting_key key self.old.waiting ≡ Some w → OnOk result (Gives (takes_answer frame.now (with_content content w) answer self.old) self.new out.old out.new) }
    {
        let Some(waiting) = self.waiting.remove(key) else {
            return Ok(());
        };
        let Waiting { mut caller, asking } = waiting;
        let has_content = content.is_some();
        caller.hear(answer, content)?;
        let want = self.next_want(frame, &caller)?;
        match self.step(frame, &caller, want)? {
            Step::Asks { asking } => self.ask(frame, caller, asking, out),
            Step::Replies { reply } => self.reply(frame, &caller, reply, out),
            Step::Stays => {
                caller.unhear(has_content);
                self.waiting.put(Waiting { caller, asking })
            }
        }
    }
}
