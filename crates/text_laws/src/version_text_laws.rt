ghost use Rattle.std.specs.Prelude.{◌≤◌, List, length};
ghost use Rattle.std.specs.List.{AllByRecursion};
ghost use Rattle.locus_ids.specs.declared.config.Config.{Config};
ghost use Rattle.schedule_lines.specs.declared.line.ScheduleLine.{ScheduleLine};
ghost use Rattle.trace_book.specs.declared.entry.Entry.{Entry};
ghost use Rattle.the_run.specs.Runs.{run_in};
ghost use Rattle.rest_laws.specs.of_row_laws.Voids.{LinesFit};
ghost use Rattle.tree_laws.specs.Orders.Joining.{PacksAreOfSites};
ghost use Rattle.tree_laws.specs.Printed.{entries};
ghost use Rattle.text_laws.specs.VersionTexts.Texts.{CommitFits, NameFits};

/// After every schedule each commit that was told is of a file with the number of an inode, and its stamp is one that a text may say.
pub fn commits_have_texts()
    ensures { (c : Config) (lines : List ScheduleLine) → LinesFit c lines → PacksAreOfSites c → length c.packs ≤ 4 → AllByRecursion (λ (r : Entry). CommitFits r.what) (entries (run_in c lines).trace) }
{}

/// And each version that is adopted at a site or published in an epoch is named so.
pub fn named_versions_have_texts()
    ensures { (c : Config) (lines : List ScheduleLine) → LinesFit c lines → PacksAreOfSites c → length c.packs ≤ 4 → AllByRecursion (λ (r : Entry). NameFits r.what) (entries (run_in c lines).trace) }
{}
