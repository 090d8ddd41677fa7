ghost use Rattle.std.specs.Prelude.{◌≡◌, true, ◌∷◌};
ghost use Rattle.locus_ids.specs.declared.config.Config.{Config};
ghost use Rattle.trace_book.specs.declared.entry.Entry.{Entry};
ghost use Rattle.tree_model.specs.Folds.{Trace, last_line};
ghost use Rattle.lawful_trace.specs.Prompt.{due, is_reply_due};
ghost use Rattle.past_laws.specs.Agreement.{past};
ghost use Rattle.past_laws.specs.Along.{EachComesSo, IsNamed};
ghost use Rattle.audit_rules.specs.Turns.{is_in_turn};

/// Where a reply that is due comes next, that of the least process, a call is told that its epoch has changed in its turn.
pub fn changed_comes_in_turn()
    ensures { (c : Config) → IsNamed c → (r : Entry) (before : Trace) → EachComesSo c (r ∷ before) → is_reply_due (due c before) (last_line before) r ≡ true → is_in_turn (past c before) r.what ≡ true }
{}
