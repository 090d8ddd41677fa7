ghost use Rattle.std.specs.Prelude.{◌≡◌, Some, OnOk};
ghost use Rattle.commit_graph.specs.Versions.{same_file};
ghost use Rattle.role_steps.specs.Tables.{first_that};
ghost use Rattle.role_steps.specs.Adoption.{has_mend, mends_file};
ghost use Rattle.role_steps.specs.Mends.{brought_by, has_mend_in, is_mend_in, mends_in};
ghost use Rattle.role_steps.specs.Using.{asks_open_of, mended_file, on_call};
ghost use Rattle.trace_book.specs.declared.call.Call.TheVariants as call;
ghost use Rattle.using_site.specs.Steps.{Gives, mended_by};

use crate::users::UsingSite;
use locus_ids::{Bytes, FileId, NoMemory};
use site_frame::SiteFrame;
use trace_book::Call;
use waiting_calls::asks_open_of;
use wire_messages::Outbox;

impl UsingSite {
    /// A mend of the file waits here.
    pub fn has_mend(&self, file: FileId) -> bool
        ensures { result ≡ has_mend self.now file }
    {
        self.waiting
            .as_slice()
            .iter()
            .any(|waiting| mends_file(file, waiting.caller.script.words()))
    }

    /// A mend of the group waits here.
    pub fn has_mend_in(&self, group: u8) -> bool
        ensures { result ≡ has_mend_in self.now group }
    {
        self.waiting
            .as_slice()
            .iter()
            .any(|waiting| mends_in(group, waiting.caller.script.words()))
    }

    /// The contents that the mend of the group has brought, in the order in which they came.
    pub fn brought(&self, group: u8) -> &[Bytes]
        ensures { result.now ≡ brought_by (first_that (is_mend_in group) self.now.waiting) }
    {
        let rows = self.waiting.as_slice();
        for waiting in rows {
            if mends_in(group, waiting.caller.script.words()) {
                return waiting.caller.brought.as_slice();
            }
        }
        &[]
    }

    /// The directory that the call mends which asks the open of this serial number.
    pub fn mend_opening(&self, serial: u32) -> Option<FileId>
        ensures { result ≡ mended_by (first_that (asks_open_of serial) self.now.waiting) }
    {
        let rows = self.waiting.as_slice();
        for waiting in rows {
            if asks_open_of(serial, waiting) {
                return mended_file(waiting.caller.script.words());
            }
        }
        None
    }

    /// The site mends a directory by a call of its own.
    pub fn start_mend(
        &mut self,
        frame: &SiteFrame,
        file: FileId,
        out: &mut Outbox,
    ) -> Result<(), NoMemory>
        ensures { OnOk result (Gives (on_call frame.now (Some frame.now.epoch) 0 (call.Mend file) self.old) self.new out.old out.new) }
    {
        self.call(frame, Some(frame.epoch), 0, Call::Mend { file }, out)
    }
}

fn mends_file(file: FileId, words: &Call) -> bool
    ensures { result ≡ mends_file file words.now }
{
    match words {
        Call::Mend { file: mended } => *mended == file,
        _ => false,
    }
}

fn mends_in(group: u8, words: &Call) -> bool
    ensures { result ≡ mends_in group words.now }
{
    match words {
        Call::Mend { file } => file.group == group,
        _ => false,
    }
}

/// The directory that a call mends.
pub(crate) fn mended_file(words: &Call) -> Option<FileId>
    ensures { result ≡ mended_file words.now }
{
    match words {
        Call::Mend { file } => Some(*file),
        _ => None,
    }
}
