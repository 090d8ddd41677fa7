ghost use Rattle.std.specs.Prelude.{◌≡◌, ◌≤◌, ◌∷◌, [], ◌&&◌, true, filter, length, Some, OnOk};
ghost use Rattle.std.specs.List.{find, list_any};
ghost use Rattle.std.specs.Option.{option_copied};
ghost use Rattle.lawful_trace.specs.CallRows.{is_mend_in};
ghost use Rattle.promises.specs.Past.{CallSoFar};
ghost use Rattle.promises.specs.After.{change, is_id};
ghost use Rattle.promises.specs.Rows.{waits_at};
ghost use Rattle.audit_calls.specs.Rows.{replied, with_answer, with_grant, with_last_answer};
ghost use Rattle.audit_calls.specs.Uses.{closes, is_use, uses_as};
ghost use Rattle.audit_calls.specs.Waiting.{is_call_at, waits_below};

use crate::CallRow;
use crate::settling::{answer_at, end_all_at, end_at, grant_at, look_at, push_to};
use crate::uses::{Use, is_use, newest, sought_key};
use crate::waiting::{WaitingRow, any_below, any_mend, any_of};
use call_rules::Answer;
use key_places::{Places, call_key};
use locus_ids::{CallId, EpochId, NoMemory, Serial};
use std::alloc::Global;
use std::marker::Model;
use trace_book::Descriptor;

/// All accepted calls, which contracts see the newest first. A call is found by its name, or by its use of an instance, in a
/// time that hangs on no length; those that wait stand beside them.
pub struct Calls {
    rows: Vec<CallRow>,
    ids: Places,
    uses: Places,
    waiting: Vec<WaitingRow>,
}

// Taken apart in one place: where a table is dropped, the prover sees one call.
impl Drop for Calls {
    fn drop(self) {
        let Calls {
            rows: _,
            ids: _,
            uses: _,
            waiting: _,
        } = self;
    }
}

impl Model for Calls {
    ghost use Rattle.std.specs.Prelude.{List, reverse};
    ghost use Rattle.promises.specs.Past.{CallSoFar};

    ghost Value = { List CallSoFar };

    ghost use Rattle.audit_calls.specs.Indexed.{Indexed};

    ghost view = { λ t. reverse t.rows.items };

    ghost invariant = { λ t. Indexed t.rows.items t.ids t.uses t.waiting.items };
}

impl Calls {
    /// No calls. What the table takes later comes from this allocator.
    pub fn new(alloc: Global) -> Calls
        ensures { result ≡ [] }
    {
        Calls {
            rows: Vec::new(alloc),
            ids: Places::new(alloc),
            uses: Places::new(alloc),
            waiting: Vec::new(alloc),
        }
    }

    /// The call of a name, the newest.
    pub fn find(&self, id: CallId) -> Option<&CallRow>
        ensures { option_copied result ≡ find (is_id id) self.now }
    {
        match self.ids.place(&call_key(id)) {
            Some(place) => Some(&self.rows[place]),
            None => None,
        }
    }

    /// The call that is this use of an instance by its descriptors, the newest.
    pub fn user(&self, epoch: EpochId, inst: Serial, turn: u32) -> Option<&CallRow>
        ensures { option_copied result ≡ find (uses_as epoch inst turn) self.now }
    {
        self.used(Use {
            epoch,
            inst,
            turn: Some(turn),
        })
    }

    /// The call that closes a descriptor of the instance, the newest.
    pub fn closer(&self, epoch: EpochId, inst: Serial) -> Option<&CallRow>
        ensures { option_copied result ≡ find (closes epoch inst) self.now }
    {
        self.used(Use {
            epoch,
            inst,
            turn: None,
        })
    }

    fn used(&self, sought: Use) -> Option<&CallRow>
        ensures { option_copied result ≡ find (is_use sought) self.now }
    {
        let Some(place) = self.uses.place(&sought_key(sought)) else {
            return None;
        };
        let row = &self.rows[place];
        if is_use(sought, row) {
            Some(row)
        } else {
            newest(self.rows.as_slice(), sought)
        }
    }

    /// A call of the process waits at the site.
    pub fn waits_at(&self, site: u8, process: u8) -> bool
        ensures { result ≡ list_any (waits_at site process) self.now }
    {
        any_of(self.waiting.as_slice(), site, process)
    }

    /// A call of a lower process that was accepted in the epoch waits at the site.
    pub fn waits_below(&self, site: u8, process: u8, epoch: EpochId) -> bool
        ensures { result ≡ list_any (waits_below site process epoch) self.now }
    {
        any_below(self.waiting.as_slice(), site, process, epoch)
    }

    /// A mend of the group waits at the site.
    pub fn mend_waits_at(&self, site: u8, group: u8) -> bool
        ensures { result ≡ list_any (λ k. waits_at site 0 k && is_mend_in group k.words) self.now }
    {
        any_mend(self.waiting.as_slice(), site, group)
    }

    /// A call that was accepted.
    pub fn begin(&mut self, row: CallRow) -> Result<(), NoMemory>
        requires { row.waits ≡ true }
        ensures { OnOk result (self.new ≡ row ∷ self.old) }
    {
        let Calls {
            rows,
            ids,
            uses,
            waiting,
        } = self;
        push_to(rows, ids, uses, waiting, row)
    }

    /// One request more of the call was answered.
    pub fn answer(&mut self, id: CallId, answer: Answer) -> Result<(), NoMemory>
        requires { length (filter (is_id id) self.old) ≤ 1 }
        ensures { OnOk result (self.new ≡ change (is_id id) (with_answer answer) self.old) }
    {
        let Some(place) = self.ids.place(&call_key(id)) else {
            drop(answer);
            return Ok(());
        };
        answer_at(&mut self.rows, place, answer)
    }

    /// The request of this number was answered, maybe again: the last answer counts.
    pub fn look(&mut self, id: CallId, request: u16, answer: Answer) -> Result<(), NoMemory>
        requires { length (filter (is_id id) self.old) ≤ 1 }
        ensures { OnOk result (self.new ≡ change (is_id id) (with_last_answer request answer) self.old) }
    {
        let Some(place) = self.ids.place(&call_key(id)) else {
            drop(answer);
            return Ok(());
        };
        look_at(&mut self.rows, place, request, answer)
    }

    /// An open of the call was granted.
    pub fn grant(
        &mut self,
        id: CallId,
        descriptor: Descriptor,
        answer: Answer,
    ) -> Result<(), NoMemory>
        requires { length (filter (is_id id) self.old) ≤ 1 }
        ensures { OnOk result (self.new ≡ change (is_id id) (with_grant descriptor answer) self.old) }
    {
        let Some(place) = self.ids.place(&call_key(id)) else {
            drop(answer);
            return Ok(());
        };
        grant_at(&mut self.rows, place, descriptor, answer)
    }

    /// The call has its reply.
    pub fn reply(&mut self, id: CallId)
        requires { length (filter (is_id id) self.old) ≤ 1 }
        ensures { self.new ≡ change (is_id id) replied self.old }
    {
        let Some(place) = self.ids.place(&call_key(id)) else {
            return;
        };
        end_at(&mut self.rows, &mut self.waiting, place);
    }

    /// None of the site's calls waits any more.
    pub fn stop(&mut self, site: u8)
        ensures { self.new ≡ change (is_call_at site) replied self.old }
    {
        end_all_at(&mut self.rows, &mut self.waiting, site);
    }
}
