ghost use Rattle.std.specs.Prelude.{◌≡◌, ◌+◌, ◌≤◌, ℕ, length, filter, OnOk, IfOk, Some};
ghost use Rattle.std.specs.List.{find};
ghost use Rattle.locus_ids.specs.declared.config.Config.{Config};
ghost use Rattle.locus_ids.specs.declared.ids.EpochId.{EpochId};
ghost use Rattle.locus_ids.specs.declared.ids.Serial.{Serial};
ghost use Rattle.trace_book.specs.declared.record.Record.TheVariants as rec;
ghost use Rattle.promises.specs.Past.{CallSoFar, site_at};
ghost use Rattle.promises.specs.After.{after, is_id, look_answer};

use crate::{LastSeen, Told};
use audit_calls::{Accepted, CallRow};
use call_rules::Answer;
use locus_ids::{CallId, EpochId, FileId, Mode, NoMemory, Refusal};
use trace_book::{Call, Served, What};

impl Told {
    /// The site accepts a call, the next of its boot.
    pub fn accepted(
        &mut self,
        site: u8,
        process: u8,
        id: CallId,
        words: Call,
    ) -> Result<(), NoMemory>
        requires next { id.n ≡ (site_at self.old site).accepted + 1 }
        ensures { (c : Config) → OnOk result (self.new ≡ after c (rec.Accept site process id words) self.old) }
    {
        let row = self.sites.site_at(site);
        let begins = row.beginning(process, id, &words);
        let epoch = row.epoch();
        let at = Accepted {
            id,
            process,
            epoch,
            free: row.lowest_free(process),
            turn: self.epochs.turn(&begins, &words)?,
        };
        self.epochs.accept(epoch, &begins, &words)?;
        self.sites.accept(site, process, id.n, &words);
        let call = CallRow::begin(self.alloc, at, words, begins)?;
        self.calls.begin(call)?;
        self.seen = LastSeen::Accepting { call: id };
        Ok(())
    }

    /// A look of the call is answered.
    pub fn looked(
        &mut self,
        id: CallId,
        request: u16,
        file: FileId,
        what: &What,
        served: &Served,
    ) -> Result<(), NoMemory>
        requires once { length (filter (is_id id) self.old.calls) ≤ 1 }
        ensures { (c : Config) (e : EpochId) → OnOk result (self.new ≡ after c (rec.Look e id request file what.now served.now) self.old) }
    {
        let answer = self.look_answer(file, what, served)?;
        self.calls.look(id, request, answer)?;
        self.seen = LastSeen::Another;
        Ok(())
    }

    /// What a look is answered, by the version that it is served.
    fn look_answer(
        &mut self,
        file: FileId,
        what: &What,
        served: &Served,
    ) -> Result<Answer, NoMemory>
        ensures answer { IfOk result (λ answer. answer ≡ look_answer self.old file what.now served.now) }
        ensures same { self.new ≡ self.old }
    {
        match served {
            Served::At { stamp } => {
                let kind = self.files.said_of(file).kind;
                let content = self.versions.content(file, *stamp);
                self.dir.found_in(kind, *stamp, what, content)
            }
            Served::No { why } => {
                let why = why.copy()?;
                Ok(Answer::Refused { why })
            }
        }
    }

    /// An open of the call is refused.
    pub fn refused(
        &mut self,
        epoch: EpochId,
        id: CallId,
        mode: Mode,
        file: FileId,
        why: Refusal,
    ) -> Result<(), NoMemory>
        requires once { length (filter (is_id id) self.old.calls) ≤ 1 }
        ensures { (c : Config) (request : ℕ) (i : Serial) → OnOk result (self.new ≡ after c (rec.Refuse epoch id request i mode file why) self.old) }
    {
        self.epochs.refuse(epoch, id, mode, file)?;
        self.calls.answer(id, Answer::Refused { why })?;
        self.seen = LastSeen::Another;
        Ok(())
    }
}
