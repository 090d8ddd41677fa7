//! Laws of calls that make a file: each asks one make, after a probe of the name that has passed.
ghost use Rattle.std.specs.Prelude.{ℕ, ◌≡◌, List};
ghost use Rattle.locus_ids.specs.declared.config.Config.{Config};
ghost use Rattle.locus_ids.specs.declared.ids.CallId.{CallId};
ghost use Rattle.locus_ids.specs.declared.ids.EpochId.{EpochId};
ghost use Rattle.locus_ids.specs.declared.ids.Serial.{Serial};
ghost use Rattle.locus_ids.specs.declared.sites.Sites.{Sites};
ghost use Rattle.the_run.specs.Kept.{Among};
ghost use Rattle.the_run.specs.Worlds.{Line};
ghost use Rattle.tree_model.specs.Tree.{tree_of};
ghost use Rattle.tree_laws.specs.Following.{IsFollowed};
ghost use Rattle.tree_laws.specs.Printed.{entries};
ghost use Rattle.store_laws.specs.OneTree.MakeCallMade.{AsksMake, WasMadeFor};

/// Where each told line comes as it may, a call asks one make: what was begun as a make of it in an epoch was begun under the serial
/// number of each make that it asks there, and so under one.
pub fn calls_make_once()
    ensures asked { (c : Config) (trace : List Line) → IsFollowed c trace → (e : EpochId) (d : CallId) (i j : Serial) (group : ℕ) (set : Sites) → WasMadeFor c trace e d i → AsksMake c trace e d j group set → i ≡ j }
    ensures begun { (c : Config) (trace : List Line) → IsFollowed c trace → (e : EpochId) (d : CallId) (i j : Serial) → WasMadeFor c trace e d i → WasMadeFor c trace e d j → i ≡ j }
{}

/// Where each told line comes as it may, a call that asks a make is among those whose makes are underway in the tree of the make's
/// group: its probe of the name has passed on the directory that it has open there, and no make of it was refused or has ended.
pub fn makes_have_probed()
    ensures { (c : Config) (trace : List Line) → IsFollowed c trace → (e : EpochId) (d : CallId) (i : Serial) (group : ℕ) (set : Sites) → AsksMake c trace e d i group set → Among d (tree_of c e group (entries trace)).makes }
{}
