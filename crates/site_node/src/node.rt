ghost use Rattle.std.specs.Prelude.{◌≡◌, ◌==◌, ℕ, List, []};
ghost use Rattle.std.specs.Option.{is_some};
ghost use Rattle.std.specs.List.{list_any};
ghost use Rattle.role_steps.specs.declared.users.WaitingCall.{WaitingCall};
ghost use Rattle.site_packs.specs.Copies.{copies_on};
ghost use Rattle.site_packs.specs.Cutting.{both_open_on};
ghost use Rattle.site_packs.specs.Packs.{AreShown, groups_of};
ghost use Rattle.the_run.specs.Steps.{is_dropped};
ghost use Rattle.the_run.specs.Worlds.{fresh};
ghost use Rattle.site_node.specs.Views.{view_of};

use keyed_tables::SortedTable;
use locus_ids::sizes::SITES;
use locus_ids::{Config, EpochId, Members, SiteId};
use merge_protocol::EpochState;
use packet_order::is_dropped;
use propagation::Puller;
use site_frame::SiteFrame;
use site_packs::SitePacks;
use site_parts::css_core::Css;
use site_parts::storage_site::Store;
use site_parts::using_site::UsingSite;
use std::alloc::Global;
use wire_messages::Packet;

/// A site that runs, with its packs mounted.
pub struct SiteNode {
    pub(crate) alloc: Global,
    /// The cluster and the site; in an epoch, while an event of it is served, its boot, that epoch and its members.
    pub(crate) frame: SiteFrame,
    pub(crate) epochs: EpochState,
    /// Of the groups whose synchronization site this one is, in its epoch.
    pub(crate) tables: SortedTable<Css>,
    pub(crate) store: Store,
    pub(crate) packs: SitePacks,
    pub(crate) users: UsingSite,
    pub(crate) pulls: Puller,
}

/// Taken apart in one place: where one is dropped, the prover sees one call.
impl Drop for SiteNode {
    fn drop(self) {
        let SiteNode {
            alloc: _,
            frame: _,
            epochs: _,
            tables: _,
            store: _,
            packs: _,
            users: _,
            pulls: _,
        } = self;
    }
}

impl SiteNode {
    /// A site that has just booted with this number: it has its disk's copies, and is in no epoch.
    pub fn fresh(alloc: Global, config: Config, me: SiteId, boot: u32, packs: SitePacks) -> SiteNode
        ensures view { (image : List ℕ) → view_of result image ≡ fresh boot (copies_on (groups_of packs) image) }
        ensures config { result.frame.config ≡ config }
        ensures site { result.frame.me ≡ me }
        ensures packs { result.packs ≡ packs }
    {
        let frame = SiteFrame {
            config,
            me,
            boot,
            epoch: EpochId {
                number: 0,
                site: 0,
                boot: 0,
            },
            members: Members { boot: [0; SITES] },
        };
        SiteNode {
            alloc,
            frame,
            epochs: EpochState::new(alloc, boot),
            tables: SortedTable::new(alloc),
            store: Store::new(alloc),
            packs,
            users: UsingSite::new(alloc),
            pulls: Puller::new(alloc),
        }
    }

    /// The site.
    pub fn site(&self) -> SiteId
        ensures { result ≡ self.now.frame.me }
    {
        self.frame.me
    }

    /// The boot number that it runs with.
    pub fn boot(&self) -> u32
        ensures { result ≡ self.now.epochs.boot }
    {
        self.epochs.boot()
    }

    /// The site is in an epoch.
    pub fn is_in_epoch(&self) -> bool
        ensures { result ≡ is_some self.now.epochs.epoch }
    {
        self.epochs.epoch().is_some()
    }

    /// A call of the process waits, so that it may call no other.
    pub fn is_busy(&self, process: u8) -> bool
        ensures { result ≡ list_any (λ (w : WaitingCall). w.process == process) self.now.users.waiting }
    {
        self.users.is_busy(process)
    }

    /// The packet is to another boot of the site or of another epoch: nothing at all happens where it comes.
    pub fn is_dropped(&self, packet: &Packet) -> bool
        ensures { (image : List ℕ) → result ≡ is_dropped packet.now (view_of self.now image) }
    {
        is_dropped(packet, self.epochs.boot(), &self.epochs.epoch())
    }

    /// Of no file both gates are open where the site's packs stand. This call does nothing: it tells so.
    pub fn gates_are_shut(&self)
        ensures { (image : List ℕ) → AreShown self.now.packs.packs image → both_open_on (groups_of self.now.packs) image ≡ [] }
    {
        self.packs.gates_are_shut();
    }
}
