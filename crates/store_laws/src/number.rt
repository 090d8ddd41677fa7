//! Laws of the numbers of new files: who finds none left at a storage site, finds none in the tree.
ghost use Rattle.std.specs.Prelude.{ℕ, ◌≡◌, true, List, Some};
ghost use Rattle.locus_ids.specs.declared.config.Config.{Config};
ghost use Rattle.locus_ids.specs.declared.ids.EpochId.{EpochId};
ghost use Rattle.locus_ids.specs.declared.ids.Kind.{Kind};
ghost use Rattle.locus_ids.specs.declared.ids.Serial.{Serial};
ghost use Rattle.locus_ids.specs.declared.sites.Sites.{Sites};
ghost use Rattle.the_run.specs.Worlds.{Line};
ghost use Rattle.tree_model.specs.Opening.{lacks_numbers};
ghost use Rattle.tree_model.specs.Tree.{tree_of};
ghost use Rattle.tree_laws.specs.Following.{IsFollowed};
ghost use Rattle.tree_laws.specs.Instances.{IsFull};
ghost use Rattle.tree_laws.specs.Packets.{MakesNow};
ghost use Rattle.tree_laws.specs.Printed.{entries};
ghost use Rattle.store_laws.specs.Holdings.Below.{LawsBelow};

/// Where all numbers of a site are used while it is asked a make, the tree counts none that is left: the file of each stands at the
/// site, or its call has probed a name for it and its make is still underway.
pub fn full_sites_lack_numbers()
    ensures { (c : Config) (trace : List Line) → IsFollowed c trace → LawsBelow c trace → (e : EpochId) (ss : ℕ) (i : Serial) (group : ℕ) (set : Sites) (k : Kind) → MakesNow c trace e ss i group set k → IsFull c trace e ss group →
        lacks_numbers (tree_of c e group (entries trace)) (Some ss) ≡ true }
{}
