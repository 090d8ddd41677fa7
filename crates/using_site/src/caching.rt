// Reads of versions whose pages are in memory.
ghost use Rattle.std.specs.Prelude.{◌≡◌, ℕ, List, Some, IfOk, OnOk};
ghost use Rattle.trace_book.specs.declared.operation.Outcome.TheVariants as outcome;
ghost use Rattle.role_steps.specs.Tables.{row};
ghost use Rattle.role_steps.specs.Requests.{user_instance, waiting_key};
ghost use Rattle.role_steps.specs.Using.{copied_part, keeps_brought, keeps_part, part_of_instance, part_read, used_part};
ghost use Rattle.role_steps.specs.declared.users.WaitingCall.{WaitingCall};

use crate::users::UsingSite;
use locus_ids::{Bytes, NoMemory};
use role_steps::Asking;
use role_steps::page_cache::Part;
use trace_book::{Beginning, Call, Op, Outcome};

impl UsingSite {
    /// The part of a version that an accepted call reads, by a descriptor that is held.
    fn part_read(&self, words: &Call, begins: &Beginning) -> Option<Part>
        ensures { result ≡ part_read self.now words.now begins.now }
    {
        match (words, begins) {
            (Call::Read { fd: _, at, len }, Beginning::Uses { epoch: _, inst }) => {
                self.part_of_instance(inst.serial, *at, *len)
            }
            _ => None,
        }
    }

    /// What a read asks of an instance that was opened to read.
    fn part_of_instance(&self, serial: u32, at: u32, len: u16) -> Option<Part>
        ensures { result ≡ part_of_instance at len (user_instance self.now serial) }
    {
        let version = self.instance(serial)?.reads?;
        Some(Part {
            file: version.file,
            stamp: version.stamp,
            size: version.size,
            at,
            len,
        })
    }

    /// The bytes that an accepted call reads, where all of them are in memory. Their pages come to the front.
    pub(crate) fn copy_part(
        &mut self,
        words: &Call,
        begins: &Beginning,
    ) -> Result<Option<Bytes>, NoMemory>
        ensures bytes { IfOk result (λ copied. copied ≡ copied_part (part_read self.old words.now begins.now) self.old.cache) }
        ensures view { OnOk result (self.new ≡ record self.old { cache = used_part (part_read self.old words.now begins.now) self.old.cache }) }
    {
        match self.part_read(words, begins) {
            Some(part) => self.cache.held(self.alloc, &part),
            None => Ok(None),
        }
    }

    /// The pages are kept that the answer to the request of this key brings whole, where it reads an instance that was opened to read.
    pub(crate) fn keep_brought(&mut self, key: u64, outcome: &Outcome) -> Result<(), NoMemory>
        ensures { (w : WaitingCall) → row waiting_key key self.old.waiting ≡ Some w → OnOk result (self.new ≡ keeps_brought w.asking outcome.now self.old) }
    {
        let Outcome::Data { bytes } = outcome else {
            return Ok(());
        };
        match self.part_asked(key) {
            Some(part) => self.cache.keep(&part, bytes.as_slice()),
            None => Ok(()),
        }
    }

    /// What the request of this key reads of an instance that was opened to read.
    fn part_asked(&self, key: u64) -> Option<Part>
        ensures { (w : WaitingCall) (bytes : List ℕ) → row waiting_key key self.now.waiting ≡ Some w → keeps_part bytes result self.now ≡ keeps_brought w.asking (outcome.Data bytes) self.now }
    {
        match &self.waiting.find(key)?.asking {
            Asking::Op {
                serial,
                op: Op::Read { at, len },
                ..
            } => self.part_of_instance(*serial, *at, *len),
            _ => None,
        }
    }

    /// The bytes that were copied for the call of this key.
    pub(crate) fn copied_by(&self, key: u64) -> Result<Option<Bytes>, NoMemory>
        ensures { (w : WaitingCall) → row waiting_key key self.now.waiting ≡ Some w → IfOk result (λ copied. copied ≡ w.copied) }
    {
        match self.waiting.find(key) {
            Some(waiting) => match &waiting.caller.copied {
                Some(bytes) => Ok(Some(bytes.copy()?)),
                None => Ok(None),
            },
            None => Ok(None),
        }
    }
}
