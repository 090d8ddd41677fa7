ghost use Rattle.std.specs.Prelude.{◌≡◌, true, List, [], ◌∷◌, reverse};
ghost use Rattle.locus_ids.specs.declared.config.Config.{Config};
ghost use Rattle.trace_book.specs.declared.entry.Entry.{Entry};
ghost use Rattle.tree_model.specs.Folds.{Trace};
ghost use Rattle.promises.specs.Rows.{may_follow};
ghost use Rattle.promises.specs.Traces.{past_of, is_one_tree};
ghost use Rattle.past_laws.specs.Agreement.{Agrees, past, speaks_of_sites};
ghost use Rattle.past_laws.specs.Along.{ComesSo, EachComesSo, IsNamed, is_judged_alike};

/// Along a trace whose records each come by their row, speak of sites of the cluster, and answer calls with what their scripts give
/// when it is due, the value of the records and the folds over the trace say the same: of sites, of epochs and their trees, of calls,
/// of versions and of what files are. The value is what all records tell in the order in which they are printed.
pub fn value_and_folds_agree()
    ensures agree { (c : Config) → IsNamed c → (trace : Trace) → EachComesSo c trace → Agrees c trace (past c trace) }
    ensures printed { (c : Config) (trace : Trace) → past_of c (reverse trace) ≡ past c trace }
{}

/// And each record of such a trace passes the rows that are said over the value: by what those before it tell it may follow, and the
/// trace is one tree as it is printed.
pub fn lawful_traces_are_one_tree()
    ensures next { (c : Config) → IsNamed c → (r : Entry) (before : Trace) → EachComesSo c (r ∷ before) → may_follow c (past c before) r.what ≡ true }
    ensures whole { (c : Config) → IsNamed c → (trace : Trace) → EachComesSo c trace → is_one_tree c (reverse trace) ≡ true }
{}

/// The rows that are said over the value let nothing through that those of the folds refuse: after such a trace a record that may follow
/// and speaks of sites of the cluster comes so, if it is no reply that an epoch has changed.
pub fn what_may_follow_comes_so()
    ensures { (c : Config) → IsNamed c → (r : Entry) (before : Trace) → EachComesSo c before → is_judged_alike r.what ≡ true →
        speaks_of_sites c r.what ≡ true → may_follow c (past c before) r.what ≡ true → ComesSo c before r }
{}
