ghost use Rattle.std.specs.Prelude.{◌≡◌, ℕ, Bool, true, false, List, [], ◌∷◌, Option, None, Some, codes, replicate, ◌-◌};
ghost use Rattle.trace_book.specs.of_locus_ids.declared.ids.CallId.{CallId};
ghost use Rattle.trace_book.specs.of_locus_ids.declared.ids.EpochId.{EpochId};
ghost use Rattle.trace_book.specs.of_locus_ids.declared.ids.Kind.TheVariants as kind;
ghost use Rattle.trace_book.specs.of_locus_ids.declared.config.Mount.{Mount};
ghost use Rattle.trace_book.specs.of_locus_ids.declared.refusal.Refusal.{Refusal};
ghost use Rattle.trace_book.specs.of_locus_ids.declared.refusal.Refusal.TheVariants as refusal;
ghost use Rattle.trace_book.specs.of_locus_ids.Sizes.{file_bytes_max};
ghost use Rattle.trace_book.specs.declared.call.Call.{Call};
ghost use Rattle.trace_book.specs.declared.call.Call.TheVariants as words;
ghost use Rattle.trace_book.specs.declared.call.OpenMode.TheVariants as how;
ghost use Rattle.trace_book.specs.declared.operation.Op.TheVariants as op;
ghost use Rattle.trace_book.specs.declared.operation.What.TheVariants as what;
ghost use Rattle.trace_book.specs.declared.operation.Outcome.TheVariants as outcome;
ghost use Rattle.trace_book.specs.declared.reply.Reply.TheVariants as reply;
ghost use Rattle.trace_book.specs.declared.descriptor.Descriptor.{Descriptor};
ghost use Rattle.call_rules.specs.declared.answer.Answer.TheVariants as answer;
ghost use Rattle.call_rules.specs.declared.want.Want.TheVariants as want;
ghost use Rattle.call_rules.specs.Paths.{is_component, is_path};
ghost use Rattle.call_rules.specs.Words.{refused_by_words, is_badly_named};
ghost use Rattle.call_rules.specs.Descriptors.{beginning};
ghost use Rattle.call_rules.specs.Scripts.{wants};
ghost use Rattle.call_rules.specs.Samples.{asks, asks_steadily, earlier_epoch, file, first_epoch, inst, usr, version};

/// What the words of a call refuse is its reply, whatever its site's tables are and wherever packs stand.
pub fn words_refuse_first()
    ensures { (mounts : List Mount) (packed : ℕ → Bool) (free : Option ℕ) (table : ℕ → Option Descriptor) (now : Option EpochId) (id : CallId) (w : Call) (why : Refusal) →
        refused_by_words mounts w ≡ Some why → wants mounts packed free w (beginning table now id w) [] ≡ want.Give (reply.No why) }
{}

/// Which names and words are allowed, where group 1 stands on `usr`.
pub fn words_by_sample()
    ensures last_inode { is_component (codes "a@1024") ≡ true }
    ensures past_inode { is_component (codes "a@1025") ≡ false }
    ensures zero_first { is_component (codes "a@02") ≡ false }
    ensures no_inode { is_component (codes "a@") ≡ false }
    ensures two_signs { is_component (codes "a@1@2") ≡ false }
    ensures dots { is_component (codes "..") ≡ false }
    ensures root { is_path (codes "/") ≡ true }
    ensures no_slash { is_path (codes "a") ≡ false }
    ensures slash_last { is_path (codes "/a/") ≡ false }
    ensures many { is_path (codes "/1/2/3/4/5/6/7/8/9/0/1/2/3/4/5/6/7/8/9/0/1/2/3/4/5/6/7/8/9/0/1/2") ≡ true }
    ensures too_many { is_path (codes "/1/2/3/4/5/6/7/8/9/0/1/2/3/4/5/6/7/8/9/0/1/2/3/4/5/6/7/8/9/0/1/2/3") ≡ false }
    ensures mount_made { is_badly_named usr (words.MakeDir (codes "/usr")) ≡ true }
    ensures mount_name_below { is_badly_named usr (words.MakeDir (codes "/d/usr")) ≡ false }
    ensures mount_name_inside { is_badly_named usr (words.MakeDir (codes "/usr/usr")) ≡ false }
    ensures mount_removed { is_badly_named usr (words.RemoveDir (codes "/usr")) ≡ true }
    ensures numbered_mount { is_badly_named usr (words.Unlink (codes "/usr@5")) ≡ false }
    ensures to_mount { is_badly_named usr (words.Rename (codes "/a") (codes "usr")) ≡ true }
    ensures to_mount_name_below { is_badly_named usr (words.Rename (codes "/d/a") (codes "usr")) ≡ false }
    ensures numbered_new { is_badly_named usr (words.Create (codes "/a@2") None) ≡ true }
    ensures numbered_old { is_badly_named usr (words.Rename (codes "/a@2") (codes "b")) ≡ false }
    ensures made_root { is_badly_named usr (words.MakeDir (codes "/")) ≡ true }
    ensures listed_root { is_badly_named usr (words.List (codes "/")) ≡ false }
    ensures long { refused_by_words usr (words.Write 9 file_bytes_max (0 ∷ [])) ≡ Some refusal.TooLong }
    ensures just_fits { refused_by_words usr (words.Write 9 (file_bytes_max - 1) (0 ∷ [])) ≡ None }
{}

/// What some calls ask, where group 1 stands on `usr`.
pub fn scripts_by_sample()
    ensures open_root { asks (words.Open (codes "/usr") how.Read) [] ≡ want.Give (reply.No refusal.IsDir) }
    ensures mount_passed { asks (words.Open (codes "/usr/a") how.Read) [] ≡ want.Look (file 1 1) (what.Name (codes "a")) }
    ensures mount_numbered { asks (words.Stat (codes "/usr@5")) [] ≡ want.Look (file 0 1) (what.Name (codes "usr@5")) }
    ensures mount_shown { asks (words.List (codes "/")) (answer.Showed (codes "a" ∷ codes "v" ∷ []) ∷ []) ≡ want.Give (reply.Names (codes "a" ∷ codes "usr" ∷ codes "v" ∷ [])) }
    ensures no_mount_shown { asks (words.List (codes "/usr")) (answer.Showed [] ∷ []) ≡ want.Give (reply.Names []) }
    ensures file_listed { asks (words.List (codes "/a")) (answer.Entered 2 kind.File ∷ []) ≡ want.Give (reply.No (refusal.NotDir (codes "a"))) }
    ensures probe_first { asks (words.Create (codes "/a") None) (answer.Opened (inst 1) 1 ∷ []) ≡ want.Do (inst 1) (op.Probe (codes "a")) }
    ensures closed_when_refused { asks (words.Create (codes "/a") None) (answer.Opened (inst 1) 1 ∷ answer.Refused (refusal.Exists 2) ∷ []) ≡ want.Close (inst 1) }
    ensures refused_when_closed { asks (words.Create (codes "/a") None) (answer.Opened (inst 1) 1 ∷ answer.Refused (refusal.Exists 2) ∷ answer.Ended None ∷ []) ≡ want.Give (reply.No (refusal.Exists 2)) }
    ensures directory_unlinked { asks (words.Unlink (codes "/a")) (answer.Opened (inst 1) 1 ∷ answer.Did (outcome.Found 2 kind.Dir) ∷ answer.Ended None ∷ []) ≡ want.Give (reply.No refusal.IsDir) }
    ensures emptied_first { asks (words.RemoveDir (codes "/a@2")) (answer.Opened (inst 1) 1 ∷ answer.Did (outcome.Found 2 kind.Dir) ∷ answer.Opened (inst 2) 2 ∷ []) ≡ want.Do (inst 2) op.Empty }
    ensures removed_by_name { asks (words.RemoveDir (codes "/a@2")) (answer.Opened (inst 1) 1 ∷ answer.Did (outcome.Found 2 kind.Dir) ∷ answer.Opened (inst 2) 2 ∷ answer.Did outcome.Done ∷ []) ≡ want.Do (inst 1) (op.Remove (codes "a") 2) }
    ensures not_answered_so { asks (words.Stat (codes "/a")) (answer.Brought ∷ []) ≡ want.Never }
{}

/// What calls on a steady descriptor that no instance holds ask.
pub fn steady_calls_by_sample()
    ensures opened_again { asks_steadily (Some first_epoch) (words.Read 0 0 9) [] ≡ want.Open (file 0 2) how.Read }
    ensures read_where_same { asks_steadily (Some first_epoch) (words.Read 0 0 9) (answer.Reading (inst 2) (version 1) ∷ []) ≡ want.Do (inst 2) (op.Read 0 9) }
    ensures read_told { asks_steadily (Some first_epoch) (words.Read 0 0 9) (answer.Reading (inst 2) (version 1) ∷ answer.Did (outcome.Data (codes "a")) ∷ []) ≡ want.Give (reply.Data (codes "a")) }
    ensures closed_where_other { asks_steadily (Some first_epoch) (words.Read 0 0 9) (answer.Reading (inst 2) (version 2) ∷ []) ≡ want.Close (inst 2) }
    ensures stale_where_other { asks_steadily (Some first_epoch) (words.Read 0 0 9) (answer.Reading (inst 2) (version 2) ∷ answer.Ended None ∷ []) ≡ want.Give (reply.No (refusal.Stale earlier_epoch)) }
    ensures refused_as_it_is { asks_steadily (Some first_epoch) (words.Read 0 0 9) (answer.Refused (refusal.Busy 1 1) ∷ []) ≡ want.Give (reply.No (refusal.Busy 1 1)) }
    ensures read_alone { asks_steadily None (words.Read 0 0 9) [] ≡ want.Give (reply.No refusal.NoPartition) }
    ensures written_alone { asks_steadily None (words.Write 0 0 (codes "a")) [] ≡ want.Give (reply.No refusal.ReadOnly) }
    ensures committed { asks_steadily (Some first_epoch) (words.Commit 0) [] ≡ want.Give (reply.No refusal.ReadOnly) }
    ensures closed_alone { asks_steadily None (words.Close 0) [] ≡ want.Give (reply.Closed None) }
    ensures held_reads { asks_steadily (Some earlier_epoch) (words.Read 0 0 9) [] ≡ want.Do (inst 1) (op.Read 0 9) }
    ensures held_closes { asks_steadily (Some earlier_epoch) (words.Close 0) [] ≡ want.Close (inst 1) }
{}
