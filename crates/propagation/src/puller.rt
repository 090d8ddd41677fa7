ghost use Rattle.std.specs.Prelude.{◌≡◌, ◌++◌, ◌≤◌, length, [], Option, IfSome, OnOk};
ghost use Rattle.site_frame.specs.Printed.{printed};
ghost use Rattle.role_steps.specs.Tables.{without_row};
ghost use Rattle.role_steps.specs.Views.{file_key};
ghost use Rattle.role_steps.specs.Pulling.{pull_key, goes_on, on_notify, on_page, on_delta, pull_repeats, pull_of};
ghost use Rattle.role_steps.specs.declared.copies.FileCopy.{FileCopy};
ghost use Rattle.keyed_tables.specs.Rising.{Rising};
ghost use Rattle.propagation.specs.Sized.{IsSized, IsNew, AreSized, head_of, begins_over, notified, replaces_over, delta_over, awaits, wants};

use crate::CopyHead;
use crate::own_copy::{is_below, is_over, pages_in, same_stamp};
use crate::pulling::{is_awaited, is_delta, listed, pull_over, send_next};
use keyed_tables::{SortedTable, file_key, find};
use locus_ids::sizes::FILE_BYTES;
use locus_ids::{FileId, NoMemory, SiteId, Stamp};
use role_steps::Pull;
use site_frame::SiteFrame;
use std::alloc::Global;
use std::marker::Model;
use wire_messages::{Body, Outbox};

/// The versions that a site pulls, one of a file at most.
#[derive(Drop)]
pub struct Puller {
    pub(crate) pulls: SortedTable<Pull>,
}

impl Model for Puller {
    ghost use Rattle.std.specs.Prelude.{List};
    ghost use Rattle.role_steps.specs.declared.pulls.Pull.{Pull};
    ghost use Rattle.propagation.specs.Sized.{AreSized};

    ghost Value = { List Pull };

    ghost view = { λ p. p.pulls };

    ghost invariant = { λ p. AreSized p.pulls };
}

impl Puller {
    /// Nothing is pulled.
    pub fn new(alloc: Global) -> Puller
        ensures { result ≡ [] }
    {
        Puller {
            pulls: SortedTable::new(alloc),
        }
    }

    /// The site leaves its epoch: nothing is pulled any more.
    pub fn leave(&mut self)
        ensures { self.new ≡ [] }
    {
        self.pulls.clear();
    }

    /// The number of pulls.
    pub fn len(&self) -> usize
        ensures { result ≡ length self.now }
    {
        self.pulls.len()
    }

    /// All pulls, by group and inode, ascending.
    pub fn as_slice(&self) -> &[Pull]
        ensures pulls { result.now ≡ self.now }
        ensures rising { Rising pull_key self.now }
    {
        self.pulls.as_slice()
    }

    /// Takes the pull of a file out, to adopt its version.
    pub fn take(&mut self, file: FileId) -> Option<Pull>
        ensures taken { result ≡ pull_of self.old file }
        ensures sized { IfSome result (λ pull. IsSized pull) }
        ensures left { self.new ≡ without_row pull_key (file_key file) self.old }
    {
        self.pulls.remove(file_key(file))
    }

    /// Drops the pull of a file.
    pub fn drop_pull(&mut self, file: FileId)
        ensures { self.new ≡ without_row pull_key (file_key file) self.old }
    {
        self.take(file);
    }

    /// A site has notified this one of a version, none of whose pages is there yet. What the site has of the file, `own`, is
    /// answered where it is that version; a version above it is pulled. A version of more bytes than a file may have is ignored.
    pub fn on_notify(
        &mut self,
        frame: &SiteFrame,
        from: SiteId,
        own: Option<CopyHead>,
        pull: Pull,
        out: &mut Outbox,
    ) -> Result<(), NoMemory>
        ensures view { (copy : Option FileCopy) → head_of copy ≡ own → IsNew pull → OnOk result (self.new ≡ (on_notify frame.now from copy pull self.old).view) }
        ensures packets { (copy : Option FileCopy) → head_of copy ≡ own → IsNew pull → OnOk result (out.new.packets ≡ out.old.packets ++ (on_notify frame.now from copy pull self.old).sent) }
        ensures records { OnOk result (out.new.records ≡ out.old.records) }
    {
        if pull.size as usize > FILE_BYTES || !pull.content.is_empty() {
            return Ok(());
        }
        self.notified(frame, from, &own, pull, out)
    }

    fn notified(
        &mut self,
        frame: &SiteFrame,
        from: SiteId,
        own: &Option<CopyHead>,
        pull: Pull,
        out: &mut Outbox,
    ) -> Result<(), NoMemory>
        requires { IsNew pull }
        ensures view { OnOk result (self.new ≡ (notified frame.now from own.now pull self.old).view) }
        ensures packets { OnOk result (out.new.packets ≡ out.old.packets ++ (notified frame.now from own.now pull self.old).sent) }
        ensures records { OnOk result (out.new.records ≡ out.old.records) }
    {
        let Some(copy) = own else {
            return self.begin_pull(frame, own, pull, out);
        };
        if same_stamp(copy.stamp, pull.stamp) {
            let body = Body::Have {
                file: pull.file,
                stamp: pull.stamp,
            };
            return out.send(frame.packet(from, body));
        }
        if is_below(&copy.vector, &pull.vector) {
            return self.begin_pull(frame, own, pull, out);
        }
        Ok(())
    }

    /// Begins a pull, unless one of the same version or of one that isn't below it goes on over the same copy.
    fn begin_pull(
        &mut self,
        frame: &SiteFrame,
        own: &Option<CopyHead>,
        pull: Pull,
        out: &mut Outbox,
    ) -> Result<(), NoMemory>
        requires { IsNew pull }
        ensures view { OnOk result (self.new ≡ (begins_over frame.now own.now pull self.old).view) }
        ensures packets { OnOk result (out.new.packets ≡ out.old.packets ++ (begins_over frame.now own.now pull self.old).sent) }
        ensures records { OnOk result (out.new.records ≡ out.old.records) }
    {
        if !self.replaces_pull(own, &pull) {
            return Ok(());
        }
        let begun = pull_over(own, pull)?;
        self.go_on(frame, begun, out)
    }

    /// The version is above the one of its file that is pulled, or that is over a copy that the site has no more.
    fn replaces_pull(&self, own: &Option<CopyHead>, pull: &Pull) -> bool
        ensures { result ≡ replaces_over own.now pull.now (pull_of self.now pull.now.file) }
    {
        match self.pulls.find(file_key(pull.file)) {
            Some(old) => is_below(&old.vector, &pull.vector) || !is_over(own, old.base),
            None => true,
        }
    }

    #[tactic(auto, using(crate::proofs::Sizes::sized_put))]
    fn go_on(&mut self, frame: &SiteFrame, pull: Pull, out: &mut Outbox) -> Result<(), NoMemory>
        requires { IsSized pull }
        ensures view { OnOk result (self.new ≡ (goes_on frame.now pull self.old).view) }
        ensures packets { OnOk result (out.new.packets ≡ out.old.packets ++ (goes_on frame.now pull self.old).sent) }
        ensures records { OnOk result (out.new.records ≡ out.old.records) }
    {
        send_next(frame, &pull, out)?;
        self.pulls.put(pull)?;
        Ok(())
    }

    /// The holder of a version that is pulled has said which pages to pull. Where the site has a copy, `own`, those that it doesn't
    /// have must be among them; any other answer is ignored.
    pub fn on_delta(
        &mut self,
        frame: &SiteFrame,
        own: Option<CopyHead>,
        file: FileId,
        stamp: Stamp,
        pages: &[u16],
        out: &mut Outbox,
    ) -> Result<(), NoMemory>
        ensures view { (copy : Option FileCopy) → head_of copy ≡ own → OnOk result (self.new ≡ (on_delta frame.now copy file stamp pages.now self.old).view) }
        ensures packets { (copy : Option FileCopy) → head_of copy ≡ own → OnOk result (out.new.packets ≡ out.old.packets ++ (on_delta frame.now copy file stamp pages.now self.old).sent) }
        ensures records { OnOk result (out.new.records ≡ out.old.records) }
    {
        self.take_delta(frame, &own, file, stamp, pages, out)
    }

    fn take_delta(
        &mut self,
        frame: &SiteFrame,
        own: &Option<CopyHead>,
        file: FileId,
        stamp: Stamp,
        pages: &[u16],
        out: &mut Outbox,
    ) -> Result<(), NoMemory>
        ensures view { OnOk result (self.new ≡ (delta_over frame.now own.now file stamp pages.now self.old).view) }
        ensures packets { OnOk result (out.new.packets ≡ out.old.packets ++ (delta_over frame.now own.now file stamp pages.now self.old).sent) }
        ensures records { OnOk result (out.new.records ≡ out.old.records) }
    {
        if !self.wants(own, file, stamp, pages) {
            return Ok(());
        }
        let Some(mut pull) = self.take(file) else {
            return Ok(());
        };
        pull.wanted = Some(listed(pull.content.allocator(), pages)?);
        self.go_on(frame, pull, out)
    }

    /// The pages are the answer that the pull of the file waits for.
    fn wants(&self, own: &Option<CopyHead>, file: FileId, stamp: Stamp, pages: &[u16]) -> bool
        ensures test { result ≡ wants self.now own.now file stamp pages.now }
        ensures rising { Rising pull_key self.now }
    {
        match find(self.pulls.as_slice(), file_key(file)) {
            Some(pull) => is_delta(pages_in(own), pull, stamp, pages),
            None => false,
        }
    }

    /// A page has come. The next missing one of the version that is pulled is taken, and the one after it is asked for; any
    /// other is ignored.
    pub fn on_page(
        &mut self,
        frame: &SiteFrame,
        file: FileId,
        stamp: Stamp,
        page: u8,
        bytes: &[u8],
        out: &mut Outbox,
    ) -> Result<(), NoMemory>
        ensures view { OnOk result (self.new ≡ (on_page frame.now file stamp page bytes.now self.old).view) }
        ensures packets { OnOk result (out.new.packets ≡ out.old.packets ++ (on_page frame.now file stamp page bytes.now self.old).sent) }
        ensures records { OnOk result (out.new.records ≡ out.old.records) }
    {
        if !self.awaits(file, stamp, page, bytes) {
            return Ok(());
        }
        let Some(mut pull) = self.take(file) else {
            return Ok(());
        };
        pull.content.append(bytes)?;
        self.go_on(frame, pull, out)
    }

    /// The page is the next missing one of the version of its file that is pulled.
    fn awaits(&self, file: FileId, stamp: Stamp, page: u8, bytes: &[u8]) -> bool
        ensures test { result ≡ awaits self.now file stamp page bytes.now }
        ensures rising { Rising pull_key self.now }
    {
        match find(self.pulls.as_slice(), file_key(file)) {
            Some(pull) => is_awaited(pull, stamp, page, bytes),
            None => false,
        }
    }

    /// Asks again what each pull asks next, by group and inode.
    pub fn repeats(&self, frame: &SiteFrame, out: &mut Outbox) -> Result<(), NoMemory>
        ensures packets { OnOk result (out.new.packets ≡ out.old.packets ++ pull_repeats frame.now self.now) }
        ensures records { OnOk result (out.new.records ≡ out.old.records) }
    {
        repeat_pulls(frame, self.pulls.as_slice(), out)
    }
}

fn repeat_pulls(frame: &SiteFrame, pulls: &[Pull], out: &mut Outbox) -> Result<(), NoMemory>
    requires { AreSized pulls.now }
    ensures packets { OnOk result (out.new.packets ≡ out.old.packets ++ pull_repeats frame.now pulls.now) }
    ensures records { OnOk result (out.new.records ≡ out.old.records) }
{
    for pull in pulls {
        send_next(frame, pull, out)?;
    }
    Ok(())
}
