//! What directories name: in every run each entry of a directory is of a file that stands, of its kind.
ghost use Rattle.std.specs.Prelude.{ℕ, ◌≡◌, ◌≤◌, ◌⊎◌, List, Some};
ghost use Rattle.std.specs.List.{AllByRecursion};
ghost use Rattle.locus_ids.specs.declared.config.Config.{Config};
ghost use Rattle.locus_ids.specs.declared.ids.CallId.{CallId};
ghost use Rattle.locus_ids.specs.declared.ids.EpochId.{EpochId};
ghost use Rattle.locus_ids.specs.declared.ids.FileId.{FileId};
ghost use Rattle.locus_ids.specs.declared.ids.Kind.{Kind};
ghost use Rattle.locus_ids.specs.declared.ids.Kind.TheVariants.{Dir};
ghost use Rattle.locus_ids.specs.declared.ids.Serial.{Serial};
ghost use Rattle.locus_ids.specs.declared.ids.Stamp.{Stamp};
ghost use Rattle.locus_ids.specs.Sizes.{inodes_max};
ghost use Rattle.commit_graph.specs.Versions.{content_of};
ghost use Rattle.trace_book.specs.declared.operation.Op.TheVariants as op;
ghost use Rattle.dir_format.specs.declared.entry.Entry.{Entry};
ghost use Rattle.dir_format.specs.Contents.{entries_of};
ghost use Rattle.call_rules.specs.declared.want.Want.TheVariants as want;
ghost use Rattle.the_run.specs.Worlds.{Line};
ghost use Rattle.tree_model.specs.declared.instance.Instance.{Instance};
ghost use Rattle.tree_model.specs.Files.{first_call, kind_of_file};
ghost use Rattle.tree_model.specs.Histories.{history};
ghost use Rattle.lawful_trace.specs.TreeRows.{IsCallIn};
ghost use Rattle.tree_laws.specs.Calls.{Asks};
ghost use Rattle.tree_laws.specs.Following.{IsFollowed};
ghost use Rattle.tree_laws.specs.Instances.{instance_now};
ghost use Rattle.tree_laws.specs.Printed.{entries};
ghost use Rattle.tree_laws.specs.Orders.Joining.{PacksAreOfSites};
ghost use Rattle.rest_laws.specs.Fits.EntryEntries.{EntriesName, IsLeftMessage, NamesFile};

/// Wherever all that was told came as it may, each entry of each version of a directory, and of what an open instance of a directory works on,
/// was inserted in its group and names a file there that stands, of the entry's kind. (A message that was being made when its storage site left
/// the epoch is no directory, whatever has its number since.) Each entry of any content has the number of an inode.
pub fn directories_name_files()
    ensures versions { (c : Config) (trace : List Line) → PacksAreOfSites c → IsFollowed c trace → (f : FileId) (stamp : Stamp) → kind_of_file c (entries trace) f ≡ Dir → EntriesName c trace f.group (content_of (history c (entries trace)) f stamp) }
    ensures instances { (c : Config) (trace : List Line) → PacksAreOfSites c → IsFollowed c trace → (e : EpochId) (i : Serial) (x : Instance) → instance_now c trace e i ≡ Some x → kind_of_file c (entries trace) x.grant.file ≡ Dir → EntriesName c trace x.grant.file.group x.work.content ⊎ IsLeftMessage trace e x.grant }
    ensures numbers { (content : List ℕ) → AllByRecursion (λ (d : Entry). (1 ≤ d.ino) × (d.ino ≤ inodes_max)) (entries_of content) }
{}

/// A call that asks to insert an entry has made the file that the entry names: it stands, in the group of the directory, of the entry's kind, and
/// this call was the first to commit it.
pub fn who_inserts_has_made()
    ensures { (c : Config) (trace : List Line) → PacksAreOfSites c → IsFollowed c trace → (e : EpochId) (d : CallId) → IsCallIn (entries trace) e d → (i : Serial) (name : List ℕ) (ino : ℕ) (kind : Kind) → Asks c trace d (want.Do i (op.Insert name ino kind)) → (x : Instance) → instance_now c trace e i ≡ Some x →
        NamesFile c trace x.grant.file.group ino kind × (first_call c (entries trace) (record { group = x.grant.file.group; ino = ino }) ≡ Some d) }
{}
