ghost use Rattle.std.specs.Prelude.{◌≡◌, ℕ, ◌≤◌, true, length, filter, map, reverse};
ghost use Rattle.locus_ids.specs.declared.config.Config.{Config};
ghost use Rattle.locus_ids.specs.declared.ids.CallId.{CallId};
ghost use Rattle.trace_book.specs.declared.record.Record.{Record};
ghost use Rattle.tree_model.specs.Folds.{Trace, last_line};
ghost use Rattle.record_reading.specs.AsRead.{as_read};
ghost use Rattle.promises.specs.Past.{Past};
ghost use Rattle.promises.specs.After.{is_id};
ghost use Rattle.promises.specs.Rows.{may_follow};
ghost use Rattle.past_laws.specs.Agreement.{past};
ghost use Rattle.past_laws.specs.Along.{EachComesSo, IsNamed};
ghost use Rattle.audit_rules.specs.Consistent.{Sound};
ghost use Rattle.audit_rules.specs.Meant.{meant};
ghost use Rattle.audit_laws.specs.Reading.{EachInTurn, LinesRise, audited_all, entry_as_read};

/// A record that may come next is the one that its own text means, where a name is given to one call.
pub fn records_are_meant_by_their_texts()
    ensures { (c : Config) (p : Past) (r : Record) → ((id : CallId) → length (filter (is_id id) p.calls) ≤ 1) → may_follow c p r ≡ true → meant c p (as_read r) ≡ r }
{}

/// Of a trace whose records come as those of every run do, each at the line of the one before it or at a later one, and with replies that an epoch
/// has changed in the order of processes, an audit that reads them of their texts knows all that they tell.
pub fn following_traces_are_sound()
    ensures { (c : Config) (trace : Trace) → IsNamed c → EachComesSo c trace → LinesRise trace → EachInTurn c trace → audited_all c (map entry_as_read (reverse trace)) ≡ Sound (last_line trace) (past c trace) }
{}
