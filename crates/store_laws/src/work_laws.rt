ghost use Rattle.std.specs.Prelude.{List};
ghost use Rattle.locus_ids.specs.declared.config.Config.{Config};
ghost use Rattle.the_run.specs.Worlds.{Line};
ghost use Rattle.tree_laws.specs.Following.{IsFollowed};
ghost use Rattle.store_laws.specs.Holdings.Below.{LawsBelow};
ghost use Rattle.store_laws.specs.Works.Working.{AllWork};

/// Where each told line comes as it may, each version is no longer than a file may be, and each open instance works over the
/// version on which it stands: any page that it hasn't changed is that of the version.
pub fn working_contents_fit()
    ensures { (c : Config) (trace : List Line) → IsFollowed c trace → LawsBelow c trace → AllWork c trace }
{}
