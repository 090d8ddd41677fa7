ghost use Rattle.std.specs.Prelude.{◌≡◌, ◌≤◌, ◌+◌, ℕ, Bool, true, false, List, Option, length};
ghost use Rattle.std.specs.List.{AllByRecursion, list_all};
ghost use Rattle.locus_ids.specs.Sizes.{sites_max};
ghost use Rattle.locus_ids.specs.declared.config.Config.{Config};
ghost use Rattle.locus_ids.specs.declared.config.Mount.{Mount};
ghost use Rattle.locus_ids.specs.declared.ids.FileId.{FileId};
ghost use Rattle.locus_ids.specs.declared.ids.Stamp.{Stamp};
ghost use Rattle.commit_graph.specs.Versions.{kept};
ghost use Rattle.commit_graph.specs.declared.history.Version.{Version};
ghost use Rattle.trace_book.specs.declared.call.Call.{Call};
ghost use Rattle.trace_book.specs.declared.descriptor.Beginning.{Beginning};
ghost use Rattle.schedule_lines.specs.Cluster.{config_of};
ghost use Rattle.schedule_lines.specs.Schedule.{AreInOrder};
ghost use Rattle.schedule_lines.specs.declared.line.ScheduleLine.{ScheduleLine};
ghost use Rattle.call_rules.specs.Scripts.{wants};
ghost use Rattle.call_rules.specs.declared.answer.Answer.{Answer};
ghost use Rattle.trace_book.specs.declared.record.Record.{Record};
ghost use Rattle.tree_model.specs.Folds.{Trace};
ghost use Rattle.lawful_trace.specs.Lawful.{MayCome};
ghost use Rattle.row_laws.specs.Bounds.Requests.{IsRequest, is_mend, most_after_walk};
ghost use Rattle.text_laws.specs.CallTexts.Wants.{is_mount};
ghost use Rattle.text_laws.specs.NewTexts.Keeping.{AreChained, Ascend, AsksLow, KeepsFew};

/// The mounts of a cluster are of groups, under plain names.
pub fn mounts_have_texts()
    ensures { (lines : List ScheduleLine) → AreInOrder lines → list_all is_mount (config_of lines).mounts ≡ true }
{}

/// A call that isn't a mend, and asks something, has a path of 32 components at most, and asks by its 38th request at the latest, or by its
/// 39th if it is a mail.
pub fn calls_ask_few()
    ensures { (mounts : List Mount) (packed : ℕ → Bool) (free : Option ℕ) (words : Call) (b : Beginning) (answers : List Answer) → is_mend words ≡ false → IsRequest (wants mounts packed free words b answers) → length answers + 1 ≤ 32 + most_after_walk words }
{}

/// Of versions of a file whose stamps ascend, and of no more sites than a cluster may have, no more than 17 are kept, one of the format's
/// and one of each site, where of two of one site the earlier is an ancestor of the later.
pub fn few_are_kept()
    ensures { (history : List Version) (file : FileId) (brought : List Stamp) → Ascend brought → AreChained history file brought → AllByRecursion (λ (s : Stamp). s.site ≤ sites_max) brought → length (kept history file brought) ≤ 17 }
{}

/// Where no more than so many versions of a file are kept in an epoch before any of the records, each request that a record names has a
/// number in range: a mend asks three times, and looks at each version that was kept when it opened its directory.
pub fn records_name_low_requests()
    ensures { (most : ℕ) (c : Config) (before : Trace) (r : Record) → most ≤ 60000 → KeepsFew most c before → MayCome c before r → AsksLow r }
{}
