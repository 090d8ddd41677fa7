//! Laws of the one tree about room: the pages that a storage site has free are those that the tree has free there, and the inode numbers
//! of files are small.
ghost use Rattle.std.specs.Prelude.{ℕ, ◌≡◌, ◌<◌, List};
ghost use Rattle.locus_ids.specs.declared.config.Config.{Config};
ghost use Rattle.locus_ids.specs.declared.ids.FileId.{FileId};
ghost use Rattle.locus_ids.specs.declared.ids.Stamp.{Stamp};
ghost use Rattle.locus_ids.specs.Sizes.{inode_span};
ghost use Rattle.site_laws.specs.of_role_steps.Storage.{free_pages};
ghost use Rattle.site_laws.specs.of_role_steps.Views.{Frame, Store};
ghost use Rattle.tree_laws.specs.of_the_run.Worlds.{Line};
ghost use Rattle.site_laws.specs.Vectors.Written.{past_of};
ghost use Rattle.site_laws.specs.Vectors.HistoryCommits.{NumbersFit};
ghost use Rattle.tree_model.specs.Histories.{history};
ghost use Rattle.tree_model.specs.Tree.{tree_of};
ghost use Rattle.tree_model.specs.Working.{free_pages as tree_free};
ghost use Rattle.tree_laws.specs.Doing.{FrameFact, StoreHeld};
ghost use Rattle.tree_laws.specs.Following.{IsFollowed};
ghost use Rattle.tree_laws.specs.Instances.{Stands};
ghost use Rattle.tree_laws.specs.Printed.{entries};
ghost use Rattle.store_laws.specs.Holdings.RoomRests.{RoomRests};

/// Where each told line comes as it may, and a storage site has what was told of it, the pages that it has free for a group are
/// those that the one tree has free there: the same copies take them, and the same open instances have changed pages.
pub fn room_is_the_trees()
    ensures { (c : Config) (trace : List Line) (f : Frame) (s : Store) → IsFollowed c trace → RoomRests c trace → FrameFact c trace f → StoreHeld c f trace s → (group : ℕ) →
        free_pages s group ≡ tree_free (history c (entries trace)) (tree_of c f.epoch group (entries trace)) f.me }
{}

/// Where the inode numbers of what is committed and adopted have 16 bits, those of all files that stand have.
pub fn numbers_of_files_are_small()
    ensures { (c : Config) (trace : List Line) (f : FileId) (stamp : Stamp) → NumbersFit (past_of trace) → Stands c trace f stamp → f.ino < inode_span }
{}
