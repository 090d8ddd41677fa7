ghost use Rattle.std.specs.Prelude.{◌≡◌, ◌+◌, ◌<◌, ◌≤◌, ◌||◌, false, length, IfOk, OnOk};
ghost use Rattle.std.specs.Option.{is_none};
ghost use Rattle.locus_ids.specs.Sizes.{content_bytes_max};
ghost use Rattle.file_content.specs.Pages.{pages_within, with_pages};
ghost use Rattle.role_steps.specs.of_file_effects.Works.{aborted, begins_owing, begun, committed, counted};

use crate::WorkingContent;
use file_content::{pages_within, with_pages};
use locus_ids::{ItemList, Mode, NoMemory, Stamp};
use std::alloc::Global;
use std::marker::Model;

/// What has become of an open instance since it was granted. Contracts see it as a `Work`.
#[derive(Drop)]
pub struct OpenWork {
    /// Operations done.
    pub ops: u32,
    /// The working content.
    pub content: WorkingContent,
    /// A commit is owed.
    pub owes: bool,
    /// The version that it stands on.
    pub last: Option<Stamp>,
    /// The last version that it committed.
    pub committed: Option<Stamp>,
    /// The last version was committed since the last operation.
    pub fresh: bool,
    /// The pages of the working content, from 0, that were changed since the last commit or abort, each once.
    pub changed: ItemList<usize>,
}

impl Model for OpenWork {
    ghost use Rattle.role_steps.specs.of_file_effects.declared.work.Work.{Work};

    ghost Value = { Work };

    ghost view = { λ w. record { ops = w.ops; content = w.content; owes = w.owes; last = w.last; committed = w.committed; fresh = w.fresh; changed = w.changed } };
}

impl OpenWork {
    /// An instance as it is granted, on this version with this content.
    pub fn begun(
        alloc: Global,
        mode: Mode,
        stamp: Option<Stamp>,
        content: WorkingContent,
    ) -> OpenWork
        ensures { result ≡ begun mode stamp content }
    {
        OpenWork {
            ops: 0,
            content,
            owes: begins_owing(mode),
            last: stamp,
            committed: None,
            fresh: false,
            changed: ItemList::new(alloc),
        }
    }

    /// One operation more is done, and nothing else is other.
    pub fn count(&mut self)
        requires { self.old.ops < 4294967295 }
        ensures { self.new ≡ counted self.old }
    {
        self.ops += 1;
        self.fresh = false;
    }

    /// The content is committed as this version.
    pub fn commit(&mut self, stamp: Stamp)
        ensures { self.new ≡ committed stamp self.old }
    {
        self.owes = false;
        self.last = Some(stamp);
        self.committed = Some(stamp);
        self.fresh = true;
        self.changed.clear();
    }

    /// The instance goes back to this content of its last version.
    pub fn abort(&mut self, mode: Mode, content: &[u8]) -> Result<(), NoMemory>
        requires few { self.old.ops < 4294967295 }
        requires short { length content.now ≤ content_bytes_max }
        ensures { OnOk result (self.new ≡ aborted mode content.now self.old) }
    {
        self.content.replace(content)?;
        self.ops += 1;
        self.fresh = false;
        self.owes = begins_owing(mode) && self.committed.is_none();
        self.changed.clear();
        Ok(())
    }

    /// One operation more is done, which left the content as it is now, changed these pages of it, and counts as a change
    /// or doesn't.
    pub(crate) fn carry(&mut self, pages: &[usize], counts: bool) -> Result<(), NoMemory>
        requires { self.old.ops < 4294967295 }
        ensures { OnOk result (self.new ≡ record self.old { ops = self.old.ops + 1; fresh = false; owes = (self.old.owes || counts); changed = with_pages pages.now (pages_within (length self.old.content) self.old.changed) }) }
    {
        let alloc = self.changed.allocator();
        let within = pages_within(alloc, self.content.len(), self.changed.as_slice())?;
        self.changed = with_pages(alloc, pages, within.as_slice())?;
        self.ops += 1;
        self.fresh = false;
        self.owes = self.owes || counts;
        Ok(())
    }
}

/// The first commit of an instance of this mode is owed from its grant on.
fn begins_owing(mode: Mode) -> bool
    ensures { result ≡ begins_owing mode }
{
    matches!(mode, Mode::Make | Mode::Resolve)
}
