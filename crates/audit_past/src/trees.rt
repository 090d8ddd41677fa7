ghost use Rattle.std.specs.Prelude.{◌≡◌, ◌≤◌, ℕ, None, Some, cond, false, length, filter, OnOk, IfOk};
ghost use Rattle.std.specs.List.{find};
ghost use Rattle.audit_epochs.specs.Places.{has_open};
ghost use Rattle.locus_ids.specs.declared.config.Config.{Config};
ghost use Rattle.trace_book.specs.declared.record.Record.TheVariants as rec;
ghost use Rattle.lawful_trace.specs.Progress.{granted_answer};
ghost use Rattle.call_rules.specs.Opening.{is_steady};
ghost use Rattle.tree_model.specs.Calls.{version_at};
ghost use Rattle.tree_model.specs.Histories.{stamped_content};
ghost use Rattle.promises.specs.Past.{CallSoFar, epoch_at, kept_in};
ghost use Rattle.promises.specs.After.{after, is_id, process_of};

use crate::{LastSeen, Told};
use audit_acts::audit_tree::reading_answer;
use audit_acts::kept_in;
use call_rules::Answer;
use locus_ids::{CallId, EpochId, FileId, Mode, NoMemory, Serial, Stamp, Stamps};
use operation_effects::WorkingContent;
use trace_book::{Call, Descriptor, OneVersion, OpenMode};
use tree_model::Granted;

/// An open as it is granted.
#[derive(Clone, Copy)]
pub struct Opening {
    pub inst: Serial,
    pub mode: Mode,
    pub file: FileId,
    pub stamp: Option<Stamp>,
    /// The storage site.
    pub ss: u8,
}

impl Told {
    /// An open of the call is granted, as an instance that isn't open.
    pub fn granted(&mut self, epoch: EpochId, id: CallId, opening: &Opening) -> Result<(), NoMemory>
        requires once { length (filter (is_id id) self.old.calls) ≤ 1 }
        requires new { has_open epoch opening.now.inst self.old.epochs ≡ false }
        ensures { (c : Config) (request : ℕ) → OnOk result (self.new ≡ after c (rec.Grant epoch id request opening.now.inst opening.now.mode opening.now.file opening.now.stamp opening.now.ss) self.old) }
    {
        let answer = self.granted_answer(epoch, opening)?;
        let grant = Granted {
            inst: opening.inst,
            call: id,
            process: self.process_of(id),
            mode: opening.mode,
            file: opening.file,
            ss: opening.ss,
        };
        let content = self.stamped_content(opening.file, opening.stamp)?;
        self.epochs.grant(epoch, grant, opening.stamp, content)?;
        let descriptor = Descriptor {
            mode: opening.mode,
            epoch,
            inst: opening.inst,
            steady: self.kept_version(id, opening),
        };
        self.calls.grant(id, descriptor, answer)?;
        self.seen = LastSeen::Another;
        Ok(())
    }

    /// The version that a descriptor of the call of this name keeps, where it is steady.
    fn kept_version(&self, id: CallId, opening: &Opening) -> Option<OneVersion>
        requires once { length (filter (is_id id) self.now.calls) ≤ 1 }
        ensures { (k : CallSoFar) → find (is_id id) self.now.calls ≡ Some k → result ≡ cond (is_steady k.words) (version_at opening.now.file opening.now.stamp) None }
    {
        let call = self.calls.find(id)?;
        if is_steady(call.words()) {
            let stamp = opening.stamp?;
            return Some(OneVersion {
                file: opening.file,
                stamp,
            });
        }
        None
    }

    /// The process of the call of this name.
    #[tactic(auto, using(crate::proofs::Once::process_named, crate::proofs::Once::process_unnamed))]
    fn process_of(&self, id: CallId) -> u8
        requires once { length (filter (is_id id) self.now.calls) ≤ 1 }
        ensures { result ≡ process_of self.now id }
    {
        match self.calls.find(id) {
            Some(call) => call.process(),
            None => 0,
        }
    }

    /// The content of a version, in memory of its own.
    fn stamped_content(
        &self,
        file: FileId,
        stamp: Option<Stamp>,
    ) -> Result<WorkingContent, NoMemory>
        ensures { IfOk result (λ content. content ≡ stamped_content self.now.history file stamp) }
    {
        match stamp {
            Some(stamp) => {
                WorkingContent::from_slice(self.alloc, self.versions.content(file, stamp))
            }
            None => WorkingContent::from_slice(self.alloc, &[]),
        }
    }

    /// What a granted open answers its call.
    fn granted_answer(&self, epoch: EpochId, opening: &Opening) -> Result<Answer, NoMemory>
        ensures { IfOk result (λ answer. answer ≡ granted_answer opening.now.mode opening.now.inst opening.now.file opening.now.stamp (kept_in self.now (epoch_at self.now epoch) opening.now.file)) }
    {
        match opening.mode {
            Mode::Mend => {
                let kept = self.kept_in(epoch, opening.file)?;
                Ok(Answer::Merging {
                    inst: opening.inst,
                    kept,
                })
            }
            Mode::Read => Ok(reading_answer(opening.inst, opening.file, opening.stamp)),
            _ => Ok(Answer::Opened {
                inst: opening.inst,
                ino: opening.file.ino,
            }),
        }
    }

    /// The versions of the file that are kept in the epoch.
    #[tactic(auto, using(crate::proofs::Keeps::kept_found, crate::proofs::Keeps::kept_lost))]
    fn kept_in(&self, epoch: EpochId, file: FileId) -> Result<Stamps, NoMemory>
        ensures { IfOk result (λ kept. kept ≡ kept_in self.now (epoch_at self.now epoch) file) }
    {
        match self.epochs.find(epoch) {
            Some(row) => {
                let kept = kept_in(self.alloc, &self.versions, row.known(), file)?;
                Ok(kept)
            }
            None => Ok(Stamps::new(self.alloc)),
        }
    }
}

/// The words ask for a steady descriptor.
fn is_steady(words: &Call) -> bool
    ensures { result ≡ is_steady words.now }
{
    match words {
        Call::Open { path: _, mode } => matches!(mode, OpenMode::Steady),
        _ => false,
    }
}
