ghost use Rattle.std.specs.Prelude.{◌≡◌, ◌++◌, [], ◌∷◌, OnOk};
ghost use Rattle.role_steps.specs.declared.users.Asking.{Asking};
ghost use Rattle.role_steps.specs.Requests.{asks, next_request};
ghost use Rattle.role_steps.specs.Using.{after_reply, reply_record};
ghost use Rattle.site_frame.specs.Printed.{printed};
ghost use Rattle.waiting_calls.specs.Called.{called};

use crate::users::UsingSite;
use locus_ids::NoMemory;
use role_steps::Asking;
use site_frame::SiteFrame;
use trace_book::{Record, Reply};
use waiting_calls::{Caller, Waiting, change_by_reply, own_call, send_request};
use wire_messages::Outbox;

impl UsingSite {
    /// The call asks its next request, and waits for the answer.
    pub(crate) fn ask(
        &mut self,
        frame: &SiteFrame,
        caller: Caller,
        asking: Asking,
        out: &mut Outbox,
    ) -> Result<(), NoMemory>
        ensures view { (a : Asking) → OnOk result (self.new ≡ (asks frame.now (next_request (called caller a) asking) self.old).view) }
        ensures packets { (a : Asking) → OnOk result (out.new.packets ≡ out.old.packets ++ (asks frame.now (next_request (called caller a) asking) self.old).sent) }
        ensures records { OnOk result (out.new.records ≡ out.old.records) }
    {
        let mut caller = caller;
        let Some(request) = caller.request.checked_add(1) else {
            return Err(NoMemory);
        };
        caller.request = request;
        send_request(frame, &caller, &asking, out)?;
        self.waiting.put(Waiting { caller, asking })
    }

    /// A call that no longer waits is given its reply: an open that succeeds takes the descriptor, and a directory whose
    /// mend is refused for want of room isn't mended again in this epoch.
    pub(crate) fn reply(
        &mut self,
        frame: &SiteFrame,
        caller: &Caller,
        reply: Reply,
        out: &mut Outbox,
    ) -> Result<(), NoMemory>
        ensures view { (a : Asking) → OnOk result (self.new ≡ after_reply frame.now (called caller.now a) reply self.old) }
        ensures packets { OnOk result (out.new.packets ≡ out.old.packets) }
        ensures records { (a : Asking) → OnOk result (out.new.records ≡ out.old.records ++ printed (reply_record frame.now.me frame.now.boot (called caller.now a) reply ∷ [])) }
    {
        self.after_reply(frame, caller, &reply)?;
        out.note(Record::Answer {
            site: frame.me.get(),
            process: caller.process,
            call: own_call(frame.me, frame.boot, caller.call),
            reply,
        })
    }

    fn after_reply(
        &mut self,
        frame: &SiteFrame,
        caller: &Caller,
        reply: &Reply,
    ) -> Result<(), NoMemory>
        ensures { (a : Asking) → OnOk result (self.new ≡ after_reply frame.now (called caller.now a) reply.now self.old) }
    {
        change_by_reply(
            frame,
            caller,
            reply,
            &mut self.descriptors,
            &mut self.hopeless,
        )
    }
}
