ghost use Rattle.std.specs.Prelude.{◌≡◌, ℕ, List, OnOk};
ghost use Rattle.locus_ids.specs.declared.ids.EpochId.{EpochId};
ghost use Rattle.locus_ids.specs.declared.ids.Brought.{Brought};
ghost use Rattle.trace_book.specs.declared.packet_kind.PacketKind.{PacketKind};
ghost use Rattle.locus_ids.specs.declared.config.Config.{Config};
ghost use Rattle.trace_book.specs.declared.record.Record.TheVariants as rec;
ghost use Rattle.trace_book.specs.declared.record.StopCause.{StopCause};
ghost use Rattle.promises.specs.After.{after, departed};

use crate::{LastSeen, Told};
use locus_ids::{EpochId, Members, NoMemory};

impl Told {
    /// The site boots.
    pub fn up(&mut self, site: u8, boot: u32)
        ensures { (c : Config) → self.new ≡ after c (rec.Up site boot) self.old }
    {
        self.sites.boot(site, boot);
        self.seen = LastSeen::Another;
    }

    /// The site stops.
    pub fn stopped(&mut self, site: u8) -> Result<(), NoMemory>
        ensures { (c : Config) (cause : StopCause) → OnOk result (self.new ≡ after c (rec.Stopped site cause) self.old) }
    {
        self.depart(site)?;
        self.sites.stop(site);
        self.calls.stop(site);
        self.seen = LastSeen::Another;
        Ok(())
    }

    /// The site leaves its epoch.
    pub fn left(&mut self, site: u8) -> Result<(), NoMemory>
        ensures { (c : Config) (e : EpochId) → OnOk result (self.new ≡ after c (rec.Leave site e) self.old) }
    {
        self.depart(site)?;
        self.seen = LastSeen::Leaving { site, process: 0 };
        Ok(())
    }

    /// The site is in no epoch any more, and its epoch keeps what it has.
    fn depart(&mut self, site: u8) -> Result<(), NoMemory>
        ensures { OnOk result (self.new ≡ departed site self.old) }
    {
        let row = self.sites.site_at(site);
        self.epochs.leave(row.epoch(), site, row.held())?;
        self.sites.depart(site);
        Ok(())
    }

    /// The site joins the epoch, and brings what it has.
    pub fn joined(&mut self, site: u8, epoch: EpochId, members: &Members) -> Result<(), NoMemory>
        ensures { (c : Config) → OnOk result (self.new ≡ after c (rec.Join site epoch members.now) self.old) }
    {
        self.epochs.form(epoch, members)?;
        let row = self.sites.site_at(site);
        self.epochs.join(epoch, site, row.held())?;
        self.sites.join(site, epoch);
        self.seen = LastSeen::Another;
        Ok(())
    }

    /// The group starts in the epoch.
    pub fn started(&mut self, epoch: EpochId, group: u8) -> Result<(), NoMemory>
        ensures { (c : Config) (copies : List Brought) → OnOk result (self.new ≡ after c (rec.Start epoch group copies) self.old) }
    {
        self.epochs.start(epoch, group)?;
        self.seen = LastSeen::Another;
        Ok(())
    }

    /// A record that changes nothing.
    pub fn passed(&mut self)
        ensures void { (c : Config) → self.new ≡ after c rec.Void self.old }
        ensures budget { (c : Config) → self.new ≡ after c rec.Budget self.old }
        ensures packet { (c : Config) (number from to : ℕ) (kind : PacketKind) → self.new ≡ after c (rec.Packet number from to kind) self.old }
    {
        self.seen = LastSeen::Another;
    }
}
