ghost use Rattle.std.specs.Prelude.{◌≡◌, true, List};
ghost use Rattle.std.specs.List.{list_all};
ghost use Rattle.locus_ids.specs.declared.config.Config.{Config};
ghost use Rattle.trace_book.specs.declared.entry.Entry.{Entry};
ghost use Rattle.record_reading.specs.Ranges.{is_record};
ghost use Rattle.promises.specs.Traces.{is_one_tree};
ghost use Rattle.past_laws.specs.Along.{IsNamed};
ghost use Rattle.text_laws.specs.CallTexts.Wants.{is_mount};
ghost use Rattle.text_laws.specs.TreeTexts.NewTexts.{is_new_text};

/// Each record of a trace that is one tree is well-formed where what is new in each is in range, in a cluster whose mounts are of groups that
/// there can be, on names.
pub fn one_tree_is_text()
    ensures { (c : Config) (trace : List Entry) → IsNamed c → list_all is_mount c.mounts ≡ true → is_one_tree c trace ≡ true →
        list_all (λ (e : Entry). is_new_text e.what) trace ≡ true → list_all (λ (e : Entry). is_record e.what) trace ≡ true }
{}
