// What comes to the site that pulls versions.
ghost use Rattle.std.specs.Prelude.{◌≡◌, ℕ, List, Err, IfErr, OnOk};
ghost use Rattle.role_steps.specs.Storage.{stamp_of};
ghost use Rattle.propagation.specs.Sized.{head_of};
ghost use Rattle.site_packs.specs.Packs.{AreShown, copy_at};
ghost use Rattle.site_node.specs.Views.{Works};
ghost use Rattle.site_parts.specs.Faults.{IsOwn};
ghost use Rattle.site_node.specs.Fitting.{IsShort};
ghost use Rattle.site_node.specs.Roles.{role_takes};
ghost use Rattle.site_parts.specs.declared.fault.NodeFault.TheVariants.{Unfit};
ghost use Rattle.site_parts.specs.declared.roles.Role.TheVariants as role;

use crate::SiteNode;
use locus_ids::sizes::FILE_BYTES;
use locus_ids::{Bytes, FileId, SiteId, Stamp};
use propagation::CopyHead;
use role_steps::Pull;
use site_parts::NodeFault;
use wire_messages::{Body, Outbox};

impl SiteNode {
    /// Takes what a member sent, where it is for the site that pulls versions. A version of more bytes than a file may have is
    /// unfit.
    pub(crate) fn take_at_pulls(
        &mut self,
        from: SiteId,
        body: Body,
        out: &mut Outbox,
    ) -> Result<(), NodeFault>
        ensures works { OnOk result (Works (role_takes role.Pulls self.old.frame from body) self.old self.new out.old out.new) }
        ensures own { IfErr result IsOwn }
        ensures unfit { result ≡ Err Unfit → IsShort body → ⊥ }
    {
        let taken = self.take_pulled(from, &body, out);
        drop(body);
        taken
    }

    fn take_pulled(&mut self, from: SiteId, body: &Body, out: &mut Outbox) -> Result<(), NodeFault>
        ensures works { OnOk result (Works (role_takes role.Pulls self.old.frame from body.now) self.old self.new out.old out.new) }
        ensures own { IfErr result IsOwn }
        ensures unfit { result ≡ Err Unfit → IsShort body.now → ⊥ }
    {
        match body {
            Body::Notify {
                file,
                kind,
                set,
                size,
                stamp,
                vector,
                holder,
            } => {
                if *size as usize > FILE_BYTES {
                    return Err(NodeFault::Unfit);
                }
                let pull = Pull {
                    file: *file,
                    kind: *kind,
                    set: *set,
                    size: *size,
                    stamp: *stamp,
                    vector: *vector,
                    holder: *holder,
                    base: None,
                    wanted: None,
                    content: Bytes::new(self.alloc),
                };
                let own = self.head_of(*file);
                self.pulls.on_notify(&self.frame, from, own, pull, out)?;
                Ok(())
            }
            Body::Page {
                file,
                stamp,
                page,
                bytes,
            } => {
                self.pulls
                    .on_page(&self.frame, *file, *stamp, *page, bytes.as_slice(), out)?;
                Ok(())
            }
            Body::Delta {
                file,
                wanted,
                pages,
            } => {
                let held = self.head_of(*file);
                let numbers = pages.as_slice();
                self.pulls
                    .on_delta(&self.frame, held, *file, *wanted, numbers, out)?;
                Ok(())
            }
            _ => Ok(()),
        }
    }

    /// The version of the site's own copy of a file.
    pub(crate) fn stamp_held(&self, file: FileId) -> Option<Stamp>
        ensures { (image : List ℕ) → AreShown self.now.packs.packs image → stamp_of (copy_at self.now.packs image file) ≡ result }
    {
        match self.packs.head(file) {
            Some(copy) => Some(copy.stamp),
            None => None,
        }
    }

    /// What the site's own copy of a file is.
    pub(crate) fn head_of(&self, file: FileId) -> Option<CopyHead>
        ensures { (image : List ℕ) → AreShown self.now.packs.packs image → head_of (copy_at self.now.packs image file) ≡ result }
    {
        match self.packs.head(file) {
            Some(copy) => Some(CopyHead {
                stamp: copy.stamp,
                vector: copy.vector,
                size: copy.size,
            }),
            None => None,
        }
    }
}
