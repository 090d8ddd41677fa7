//! Laws of the versions of a run by what was told: vectors tell which version is newer, and the key of a stamp names one version.
ghost use Rattle.std.specs.Prelude.{◌≡◌, List};
ghost use Rattle.locus_ids.specs.declared.config.Config.{Config};
ghost use Rattle.locus_ids.specs.declared.ids.FileId.{FileId};
ghost use Rattle.role_steps.specs.Versions.{version_key};
ghost use Rattle.role_steps.specs.declared.synchronizing.VersionRow.{VersionRow};
ghost use Rattle.the_run.specs.Worlds.{Line};
ghost use Rattle.tree_laws.specs.Tables.{VersionFact};
ghost use Rattle.store_laws.specs.OneTree.Rest.{Past};
ghost use Rattle.store_laws.specs.OneTree.ToldVectorTelling.{VectorsTellNewer};

/// Of two versions of a file one is a proper ancestor of the other exactly where its vector is below the other's, counter by counter
/// (version vectors: Parker and others, "Detection of mutual inconsistency in distributed systems", 1983). So sites compare
/// versions by vectors alone, and are right.
pub fn vectors_tell_which_is_newer()
    ensures { (c : Config) (trace : List Line) → Past c trace → VectorsTellNewer c trace }
{}

/// Tables of versions have their rows by the keys of stamps: where two rows of versions of a file have one key, they are one.
pub fn stamps_name_versions()
    ensures { (c : Config) (trace : List Line) (f : FileId) → Past c trace → (v w : VersionRow) → VersionFact c trace f v → VersionFact c trace f w → version_key w ≡ version_key v → w ≡ v }
{}
