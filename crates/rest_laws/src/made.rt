//! How makes get their numbers, in the one tree: the storage site's answer to an open, at the synchronization site.
ghost use Rattle.std.specs.Prelude.{ℕ, List};
ghost use Rattle.locus_ids.specs.declared.config.Config.{Config};
ghost use Rattle.locus_ids.specs.declared.ids.Serial.{Serial};
ghost use Rattle.wire_messages.specs.declared.body.Body.TheVariants as body;
ghost use Rattle.wire_messages.specs.declared.body.OpenedAs.{OpenedAs};
ghost use Rattle.wire_messages.specs.declared.packet.Packet.{Packet};
ghost use Rattle.role_steps.specs.Opens.{on_opened};
ghost use Rattle.role_steps.specs.Views.{Frame};
ghost use Rattle.role_steps.specs.declared.synchronizing.SyncTable.{SyncTable};
ghost use Rattle.the_run.specs.Worlds.{Line};
ghost use Rattle.tree_laws.specs.Doing.{TableFine};
ghost use Rattle.store_laws.specs.OneTree.Rest.{AllRest};
ghost use Rattle.store_laws.specs.OneTree.Roles.{Came, Ready, TableHere};
ghost use Rattle.rest_laws.specs.MadeResting.{MadeRests};

/// Where a storage site answers that it has begun a make, the make is granted the number that the site has given it: nothing has that
/// file, nothing was granted of it, and its maker is the only one that has it open. Where the site has no number left the make is
/// refused. An open of a file that stood goes on, and an answer that comes again changes nothing.
pub fn makes_get_their_numbers()
    ensures { (c : Config) → MadeRests c → (n : ℕ) (trace : List Line) (f : Frame) (p : Packet) (i : Serial) (a : OpenedAs) (t : SyncTable) → Ready c trace f → TableHere c trace f t → Came c trace f p (body.Opened i a) → AllRest c n trace (on_opened f i a t).told →
        TableFine c n trace f t.group (on_opened f i a t) }
{}
