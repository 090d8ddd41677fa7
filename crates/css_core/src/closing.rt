ghost use Rattle.std.specs.Prelude.{◌≡◌, ◌++◌, OnOk};
ghost use Rattle.site_frame.specs.Printed.{printed};
ghost use Rattle.role_steps.specs.Versions.{file_row};
ghost use Rattle.role_steps.specs.Reports.{on_closed, stamp_made, on_have, on_have_of, sync_repeats};
ghost use Rattle.role_steps.specs.Notices.{row_notices};
ghost use Rattle.css_core.specs.Closed.{published_as, notices_as, closed_into};

use crate::css::Css;
use css_decision::css_notices::{notify_again, notify_lagging};
use css_opens::{Closing, Settling};
use locus_ids::{FileId, Kind, NoMemory, Serial, SiteId, Sites, Stamp};
use site_frame::SiteFrame;
use trace_book::Record;
use wire_messages::{Body, MadeVersion, Outbox};

impl Css {
    /// The close of an instance at its storage site, with the version that it committed last.
    #[tactic(auto, using(crate::proofs::Closings::closed_as))]
    pub fn on_closed(
        &mut self,
        frame: &SiteFrame,
        ss: SiteId,
        inst: Serial,
        made: Option<MadeVersion>,
        out: &mut Outbox,
    ) -> Result<(), NoMemory>
        ensures view { OnOk result (self.new ≡ (on_closed frame.now ss inst made self.old).view) }
        ensures packets { OnOk result (out.new.packets ≡ out.old.packets ++ (on_closed frame.now ss inst made self.old).sent) }
        ensures records { OnOk result (out.new.records ≡ out.old.records ++ printed (on_closed frame.now ss inst made self.old).told) }
    {
        match self.opens.closing(inst) {
            Closing::Unknown => Ok(()),
            Closing::Again { inst } => out.send(frame.packet(ss, Body::ClosedOk { inst })),
            Closing::Released {
                inst: its_name,
                file,
                kind,
                set,
            } => {
                self.opens.settle(inst, Settling::End)?;
                self.releases(frame, ss, its_name, file, kind, set, &made, out)
            }
        }
    }

    /// What is done of an instance that has ended: what it made becomes known, its release is told, and its storage site is
    /// answered.
    fn releases(
        &mut self,
        frame: &SiteFrame,
        ss: SiteId,
        inst: Serial,
        file: FileId,
        kind: Kind,
        set: Sites,
        made: &Option<MadeVersion>,
        out: &mut Outbox,
    ) -> Result<(), NoMemory>
        ensures view { OnOk result (self.new ≡ published_as ss file kind set made.now self.old) }
        ensures packets { OnOk result (out.new.packets ≡ out.old.packets ++ (closed_into frame.now ss inst file made.now (published_as ss file kind set made.now self.old)).sent) }
        ensures records { OnOk result (out.new.records ≡ out.old.records ++ printed (closed_into frame.now ss inst file made.now (published_as ss file kind set made.now self.old)).told) }
    {
        self.publishes(frame, ss, file, kind, set, made, out)?;
        out.note(Record::Release {
            epoch: frame.epoch,
            inst,
            file,
            stamp: stamp_made(made),
        })?;
        out.send(frame.packet(ss, Body::ClosedOk { inst }))
    }

    /// The version that an instance committed last becomes known, and the lagging members of its file are notified.
    fn publishes(
        &mut self,
        frame: &SiteFrame,
        ss: SiteId,
        file: FileId,
        kind: Kind,
        set: Sites,
        made: &Option<MadeVersion>,
        out: &mut Outbox,
    ) -> Result<(), NoMemory>
        ensures table { OnOk result (self.new ≡ published_as ss file kind set made.now self.old) }
        ensures packets { OnOk result (out.new.packets ≡ out.old.packets ++ notices_as frame.now file made.now self.new) }
        ensures records { OnOk result (out.new.records ≡ out.old.records) }
    {
        match made {
            Some(version) => {
                self.files.publish(ss, file.ino, kind, set, version)?;
                self.notifies(frame, file.ino, out)
            }
            None => Ok(()),
        }
    }

    /// The lagging members of a file are notified.
    fn notifies(&self, frame: &SiteFrame, ino: u16, out: &mut Outbox) -> Result<(), NoMemory>
        ensures packets { OnOk result (out.new.packets ≡ out.old.packets ++ row_notices frame.now self.now.group (file_row self.now ino)) }
        ensures records { OnOk result (out.new.records ≡ out.old.records) }
    {
        match self.files.find(ino) {
            Some(file) => notify_lagging(self.early.allocator(), frame, self.group, file, out),
            None => Ok(()),
        }
    }

    /// A member tells which version of a file it holds.
    pub fn on_have(&mut self, from: SiteId, file: FileId, stamp: Stamp) -> Result<(), NoMemory>
        ensures { OnOk result (self.new ≡ (on_have from file stamp self.old).view) }
    {
        self.files.note(from, file.ino, stamp)
    }

    /// The site itself has adopted a version, and holds it now.
    pub fn notes_own(&mut self, me: SiteId, file: FileId, stamp: Stamp) -> Result<(), NoMemory>
        ensures { OnOk result (self.new ≡ on_have_of me stamp (file_row self.old file.ino) self.old) }
    {
        self.files.note(me, file.ino, stamp)
    }

    /// A tick: once the group has started, a Notify for each lagging member of each file that isn't flagged.
    pub fn repeats(&self, frame: &SiteFrame, out: &mut Outbox) -> Result<(), NoMemory>
        ensures packets { OnOk result (out.new.packets ≡ out.old.packets ++ sync_repeats frame.now self.now) }
        ensures records { OnOk result (out.new.records ≡ out.old.records) }
    {
        if self.started {
            notify_again(self.early.allocator(), frame, self.group, &self.files, out)
        } else {
            Ok(())
        }
    }
}

/// The stamp of the version that an instance made.
fn stamp_made(made: &Option<MadeVersion>) -> Option<Stamp>
    ensures { result ≡ stamp_made made.now }
{
    match made {
        Some(version) => Some(version.stamp),
        None => None,
    }
}
