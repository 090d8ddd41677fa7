// A packet of the site's epoch, by the role that takes it.
ghost use Rattle.std.specs.Prelude.{◌≡◌, ◌≢◌, Err, IfErr, OnOk};
ghost use Rattle.site_packs.specs.Packs.{Stand, groups_of};
ghost use Rattle.the_run.specs.Steps.{takes_inside};
ghost use Rattle.site_node.specs.Views.{Moves, Works, view_of};
ghost use Rattle.site_node.specs.Writing.{EventWrites};
ghost use Rattle.site_node.specs.Fitting.{CanTakeInside};
ghost use Rattle.site_node.specs.Roles.{answered, role_takes};
ghost use Rattle.site_parts.specs.Fitting.{CanTakeAtStore};
ghost use Rattle.site_parts.specs.Roles.{mending_by};
ghost use Rattle.site_parts.specs.declared.fault.NodeFault.TheVariants.{NoNumber, Unfit};
ghost use Rattle.site_parts.specs.declared.roles.Role.TheVariants as role;

use crate::SiteNode;
use disk_model::Disk;
use locus_ids::{NoMemory, SiteId};
use site_parts::site_tables::take;
use site_parts::{NodeFault, Role, role_of, take_at_store};
use wire_messages::{Body, Outbox};

impl SiteNode {
    /// Takes what a member sent in the epoch of the frame.
    pub(crate) fn take_inside<D: Disk>(
        &mut self,
        disk: &mut D,
        from: SiteId,
        body: Body,
        out: &mut Outbox,
    ) -> Result<(), NodeFault>
        requires { Stand self.old.packs (D.moment disk.old) }
        ensures step { OnOk result (Moves (takes_inside self.old.frame from body) self.old (D.moment disk.old) self.new (D.moment disk.new) out.old out.new) }
        ensures disk { EventWrites (takes_inside self.old.frame from body (view_of self.old (D.moment disk.old).seen)).written self.old.packs (D.moment disk.old) (D.moment disk.new) out.old out.new result }
        ensures numbered { IfErr result (λ fault. fault ≢ NoNumber) }
        ensures unfit { result ≡ Err Unfit → CanTakeInside self.old.frame (groups_of self.old.packs) self.old.packs.site from body (view_of self.old (D.moment disk.old).seen) → ⊥ }
    {
        match role_of(&body) {
            Role::Tables => {
                self.take_at_tables(from, body, out)?;
                Ok(())
            }
            Role::Store => self.take_at_store(disk, from, body, out),
            Role::Users => {
                self.take_at_users(from, body, out)?;
                Ok(())
            }
            Role::Pulls => {
                self.take_at_pulls(from, body, out)?;
                Ok(())
            }
            Role::Epochs => {
                self.take_report_ok(&body);
                drop(body);
                Ok(())
            }
            Role::Nobody => {
                drop(body);
                Ok(())
            }
        }
    }

    /// Takes what a member sent, where it is for a synchronization site.
    fn take_at_tables(&mut self, from: SiteId, body: Body, out: &mut Outbox) -> Result<(), NoMemory>
        ensures { OnOk result (Works (role_takes role.Tables self.old.frame from body) self.old self.new out.old out.new) }
    {
        take(&mut self.tables, &self.frame, from, body, out)?;
        Ok(())
    }

    /// Takes what a member sent, where it is for the storage site.
    fn take_at_store<D: Disk>(
        &mut self,
        disk: &mut D,
        from: SiteId,
        body: Body,
        out: &mut Outbox,
    ) -> Result<(), NodeFault>
        requires { Stand self.old.packs (D.moment disk.old) }
        ensures step { OnOk result (Moves (role_takes role.Store self.old.frame from body) self.old (D.moment disk.old) self.new (D.moment disk.new) out.old out.new) }
        ensures disk { EventWrites (role_takes role.Store self.old.frame from body (view_of self.old (D.moment disk.old).seen)).written self.old.packs (D.moment disk.old) (D.moment disk.new) out.old out.new result }
        ensures numbered { IfErr result (λ fault. fault ≢ NoNumber) }
        ensures unfit { result ≡ Err Unfit → CanTakeAtStore self.old.frame (mending_by self.old.tables self.old.users (view_of self.old (D.moment disk.old).seen).store) self.old.tables (groups_of self.old.packs) self.old.packs.site from body (view_of self.old (D.moment disk.old).seen).store → ⊥ }
    {
        take_at_store(
            self.alloc,
            &mut self.store,
            &mut self.packs,
            &self.frame,
            &self.tables,
            &self.users,
            disk,
            from,
            body,
            out,
        )
    }

    /// A report of this site is answered.
    fn take_report_ok(&mut self, body: &Body)
        ensures { self.new ≡ record self.old { epochs = answered body.now self.old.epochs } }
    {
        if let Body::ReportOk { group } = body {
            self.epochs.on_report_ok(*group);
        }
    }
}
