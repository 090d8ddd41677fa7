//! What a synchronization site does with what its members tell it, in the one tree: a make that has been begun gets its number, a close
//! publishes what the instance has made, and what a member has adopted is noted.
ghost use Rattle.std.specs.Prelude.{ℕ, ◌≡◌, List, Option};
ghost use Rattle.locus_ids.specs.declared.config.Config.{Config};
ghost use Rattle.locus_ids.specs.declared.ids.FileId.{FileId};
ghost use Rattle.locus_ids.specs.declared.ids.Serial.{Serial};
ghost use Rattle.locus_ids.specs.declared.ids.Stamp.{Stamp};
ghost use Rattle.wire_messages.specs.declared.body.Body.TheVariants as body;
ghost use Rattle.wire_messages.specs.declared.body.MadeVersion.{MadeVersion};
ghost use Rattle.wire_messages.specs.declared.packet.Packet.{Packet};
ghost use Rattle.role_steps.specs.Reports.{on_closed, on_have};
ghost use Rattle.role_steps.specs.Views.{Frame};
ghost use Rattle.role_steps.specs.declared.synchronizing.SyncTable.{SyncTable};
ghost use Rattle.the_run.specs.Worlds.{Line};
ghost use Rattle.tree_laws.specs.Doing.{TableFine};
ghost use Rattle.store_laws.specs.OneTree.Rest.{AllRest};
ghost use Rattle.store_laws.specs.OneTree.Roles.{Came, Ready, TableHere};
ghost use Rattle.rest_laws.specs.TableNarrow.{CallsAreNarrow};

/// Where a member tells which version of a file it has, the synchronization site notes it if it is above what was noted of that member:
/// what the table has of the file is so still, and no holder of a kept version is lost.
pub fn adoptions_are_noted()
    ensures { (c : Config) (n : ℕ) (trace : List Line) (f : Frame) (p : Packet) (file : FileId) (stamp : Stamp) (t : SyncTable) → Ready c trace f → TableHere c trace f t → Came c trace f p (body.Have file stamp) → t.group ≡ file.group →
        AllRest c n trace (on_have p.from file stamp t).told → TableFine c n trace f file.group (on_have p.from file stamp t) }
{}

/// Where a storage site tells that it has closed an instance, its synchronization site publishes what the instance has made: the version
/// is known and kept as the one tree has it, its storage site is noted to hold it, and the members of the file's sites that lag behind
/// are notified. It tells the release once; a close that comes again is answered again.
pub fn closes_are_published()
    ensures { (c : Config) → CallsAreNarrow c → (n : ℕ) (trace : List Line) (f : Frame) (p : Packet) (i : Serial) (made : Option MadeVersion) (t : SyncTable) → Ready c trace f → TableHere c trace f t → Came c trace f p (body.Closed i made) →
        AllRest c n trace (on_closed f p.from i made t).told → TableFine c n trace f t.group (on_closed f p.from i made t) }
{}
