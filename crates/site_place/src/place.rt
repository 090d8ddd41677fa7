ghost use Rattle.std.specs.Prelude.{◌≡◌, true, Some, None, Err, IfErr, IfOk};
ghost use Rattle.the_run.specs.Worlds.{Running, fresh, formatted, boot_of};
ghost use Rattle.the_run.specs.Runs.{is_stopped, is_in_no_epoch, is_busy};
ghost use Rattle.site_place.specs.Fitting.{CanHappenIn, IsOfDisk};
ghost use Rattle.site_place.specs.Starts.{IsOfWhole};
ghost use Rattle.site_place.specs.Places.{PlaceState, Gives, event_of, armed_by, happens_in, stops_in, boots_in, disk_boot, drops};

use crate::acting::act;
use crate::counted_disk::CountedDisk;
use crate::script::{cause_of, with_left};
use crate::telling::{stopped, told_alone, told_of_cut};
use crate::{DiskScript, PlaceFault, SiteEvent, StartFault};
use locus_ids::{Config, Links, NoMemory, SiteId};
use packet_order::Dispatch;
use site_disk::{BootFault, FormatFault, SiteDisk};
use site_node::{NodeFault, SiteNode};
use site_packs::WriteSize;
use std::alloc::Global;
use std::marker::Model;
use trace_book::{Record, StopCause};
use wire_messages::Packet;

/// A site as it stands in the world.
pub struct SitePlace {
    alloc: Global,
    config: Config,
    me: SiteId,
    /// The site, where it runs.
    node: Option<SiteNode>,
    disk: CountedDisk,
    armed: Option<DiskScript>,
}

/// Taken apart in one place: where one is dropped, the prover sees one call.
impl Drop for SitePlace {
    fn drop(self) {
        let SitePlace {
            alloc: _,
            config: _,
            me: _,
            node: _,
            disk: _,
            armed: _,
        } = self;
    }
}

impl Model for SitePlace {
    ghost use Rattle.site_place.specs.Places.{PlaceState};

    ghost Value = { PlaceState };

    ghost use Rattle.site_place.specs.Views.{place_shown};

    ghost view = { place_shown };

    ghost use Rattle.site_place.specs.Standing.{IsPlace};

    ghost invariant = { IsPlace };
}

impl SitePlace {
    ghost use Rattle.site_place.specs.Places.{PlaceState};

    /// A site with a freshly formatted disk, in its first boot.
    pub fn new(alloc: Global, config: &Config, me: SiteId) -> Result<SitePlace, NoMemory>
        ensures { IfOk result (λ made. made ≡ record { config = config.now; site = me; place = Running (fresh 1 (formatted config.now me)); armed = None }) }
    {
        let cluster = config.copy()?;
        let own = config.copy()?;
        let mut disk = CountedDisk::new(alloc, SiteDisk::length(config, me))?;
        let packs = match SiteDisk::format(alloc, &mut disk, config, me) {
            Ok(packs) => packs,
            Err(FormatFault::NoMemory) => return Err(NoMemory),
            // All calls of a disk pass on which nothing is armed.
            Err(FormatFault::Disk) => unreachable!(),
        };
        let node = SiteNode::fresh(alloc, own, me, 1, packs);
        Ok(SitePlace {
            alloc,
            config: cluster,
            me,
            node: Some(node),
            disk,
            armed: None,
        })
    }

    /// The boot number, or 0 where the site doesn't run.
    pub fn boot(&self) -> u32
        ensures { result ≡ boot_of (Some self.now.place) }
    {
        match &self.node {
            Some(node) => node.boot(),
            None => 0,
        }
    }

    /// The site doesn't run.
    pub fn is_stopped(&self) -> bool
        ensures { result ≡ is_stopped (Some self.now.place) }
    {
        self.node.is_none()
    }

    /// The site is in no epoch, or doesn't run.
    pub fn is_in_no_epoch(&self) -> bool
        ensures { result ≡ is_in_no_epoch (Some self.now.place) }
    {
        match &self.node {
            Some(node) => !node.is_in_epoch(),
            None => true,
        }
    }

    /// A call of the process waits, or the site doesn't run.
    pub fn is_busy(&self, process: u8) -> bool
        ensures { result ≡ is_busy process (Some self.now.place) }
    {
        match &self.node {
            Some(node) => node.is_busy(process),
            None => true,
        }
    }

    /// The packet is dropped: it is to another boot of the site or of another epoch, or the site doesn't run.
    pub fn drops(&self, packet: &Packet) -> bool
        ensures { result ≡ drops packet.now self.now.place }
    {
        match &self.node {
            Some(node) => node.is_dropped(packet),
            None => true,
        }
    }

    /// An event of the site, where it runs: all of it, or, where the armed script cuts its disk write off, what a stop leaves. It
    /// gives what the event sends and tells. Where the event finds what it needs, only memory may be wanting.
    #[inline(always)]
    pub fn happen(&mut self, links: &Links, event: SiteEvent) -> Result<Dispatch, PlaceFault>
        ensures gives { IfOk result (λ out. Gives (happens_in links.now (event_of event) self.old) self.old self.new out) }
        ensures fit { IfErr result (λ fault. CanHappenIn links.now (event_of event) self.old → fault ≡ PlaceFault.NoMemory) }
    {
        let mut out = Dispatch::new(self.alloc);
        let Some(node) = &mut self.node else {
            drop(event);
            return Ok(out);
        };
        match act(node, &mut self.disk, links, event, &mut out) {
            Ok(()) => {
                self.armed = with_left(self.armed, self.disk.left());
                Ok(out)
            }
            Err(fault) => {
                leave(&mut self.node);
                let size = match size_of(fault) {
                    Ok(size) => size,
                    Err(refusal) => {
                        drop(out);
                        self.armed = None;
                        self.disk.disarm();
                        return Err(refusal);
                    }
                };
                // All calls of a disk pass on which nothing is armed.
                let Some(script) = self.armed else {
                    unreachable!()
                };
                self.armed = None;
                self.disk.crash(script.how);
                let told = told_of_cut(self.alloc, self.me, size.blocks, script, out)?;
                Ok(told)
            }
        }
    }

    /// The site stops, where it runs. It gives what that tells.
    pub fn stop(&mut self) -> Result<Dispatch, NoMemory>
        ensures { IfOk result (λ out. Gives (stops_in self.old) self.old self.new out) }
    {
        let Some(node) = &self.node else {
            return Ok(Dispatch::new(self.alloc));
        };
        node.gates_are_shut();
        leave(&mut self.node);
        self.armed = None;
        self.disk.disarm();
        let told = told_alone(self.alloc, stopped(self.me, StopCause::Asked))?;
        Ok(told)
    }

    /// The site boots, where it is stopped. It gives what that tells.
    pub fn start(&mut self) -> Result<Dispatch, StartFault>
        ensures gives { IfOk result (λ out. Gives (boots_in self.old) self.old self.new out) }
        ensures spent { result ≡ Err StartFault.Spent → disk_boot self.old.place ≡ 4294967295 }
    {
        if self.node.is_some() {
            return Ok(Dispatch::new(self.alloc));
        }
        let config = self.config.copy()?;
        match SiteDisk::boot(self.alloc, &mut self.disk, &self.config, self.me) {
            Ok((boot, packs)) => {
                self.armed = with_left(self.armed, self.disk.left());
                let node = SiteNode::fresh(self.alloc, config, self.me, boot, packs);
                enter(&mut self.node, node);
                let site = self.me.get();
                let told = told_alone(self.alloc, Record::Up { site, boot })?;
                Ok(told)
            }
            Err(fault) => {
                if let Some(refusal) = why_not(fault) {
                    self.armed = None;
                    self.disk.disarm();
                    return Err(refusal);
                }
                // All calls of a disk pass on which nothing is armed.
                let Some(script) = self.armed else {
                    unreachable!()
                };
                self.armed = None;
                self.disk.crash(script.how);
                let told = told_alone(self.alloc, stopped(self.me, cause_of(script.how)))?;
                Ok(told)
            }
        }
    }

    /// The script is armed, in place of one that is.
    pub fn arm(&mut self, script: DiskScript)
        ensures { self.new ≡ record self.old { armed = Some (armed_by script) } }
    {
        self.disk.arm(script.left, script.how);
        self.armed = Some(script);
    }
}

/// The size of the write that was cut off, or why the event didn't happen otherwise.
fn size_of(fault: NodeFault) -> Result<WriteSize, PlaceFault>
    requires { fault ≡ NodeFault.Disk → ⊥ }
    ensures size { IfOk result (λ size. fault ≡ NodeFault.Cut size) }
    ensures fit { IfErr result (λ refusal. IsOfDisk fault → refusal ≡ PlaceFault.NoMemory) }
    ensures honest { result ≡ Err PlaceFault.NoMemory → fault ≡ NodeFault.NoMemory }
{
    match fault {
        NodeFault::Cut(size) => Ok(size),
        NodeFault::NoMemory => Err(PlaceFault::NoMemory),
        NodeFault::NoNumber | NodeFault::Unfit => Err(PlaceFault::Unfit),
        NodeFault::Disk => unreachable!(),
    }
}

/// Why a whole disk isn't booted, or `None` where a call of it failed.
fn why_not(fault: BootFault) -> Option<StartFault>
    requires { IsOfWhole fault }
    ensures failed { result ≡ None → fault ≡ BootFault.Disk }
    ensures spent { result ≡ Some StartFault.Spent → fault ≡ BootFault.Spent }
    ensures honest { result ≡ Some StartFault.NoMemory → fault ≡ BootFault.NoMemory }
{
    match fault {
        BootFault::Disk => None,
        BootFault::NoMemory => Some(StartFault::NoMemory),
        BootFault::Spent => Some(StartFault::Spent),
        _ => unreachable!(),
    }
}

/// The site doesn't run any more.
fn leave(node: &mut Option<SiteNode>)
    ensures { node.new ≡ None }
{
    *node = None;
}

/// The site runs.
fn enter(node: &mut Option<SiteNode>, booted: SiteNode)
    ensures { node.new ≡ Some booted }
{
    *node = Some(booted);
}
