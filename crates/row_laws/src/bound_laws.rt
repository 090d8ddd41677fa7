ghost use Rattle.std.specs.Prelude.{◌≡◌, ◌≤◌, ◌+◌, ℕ, Bool, true, false, List, [], Option, None, length};
ghost use Rattle.locus_ids.specs.declared.ids.CallId.{CallId};
ghost use Rattle.locus_ids.specs.declared.ids.Serial.{Serial};
ghost use Rattle.locus_ids.specs.declared.config.Config.{Config};
ghost use Rattle.locus_ids.specs.declared.config.Mount.{Mount};
ghost use Rattle.schedule_lines.specs.declared.line.ScheduleLine.{ScheduleLine};
ghost use Rattle.trace_book.specs.declared.call.Call.{Call};
ghost use Rattle.trace_book.specs.declared.descriptor.Beginning.{Beginning};
ghost use Rattle.trace_book.specs.declared.descriptor.Beginning.TheVariants.{Walks};
ghost use Rattle.call_rules.specs.declared.answer.Answer.{Answer};
ghost use Rattle.call_rules.specs.declared.want.Want.TheVariants.{Close};
ghost use Rattle.call_rules.specs.Scripts.{wants};
ghost use Rattle.tree_model.specs.Folds.{Trace};
ghost use Rattle.lawful_trace.specs.Lawful.{IsConsistent};
ghost use Rattle.the_run.specs.Kept.{Kept};
ghost use Rattle.the_run.specs.Worlds.{World, first_world};
ghost use Rattle.the_run.specs.Runs.{run_in};
ghost use Rattle.row_laws.specs.Bounds.Asking.{RequestsBounded};
ghost use Rattle.row_laws.specs.Bounds.Deliveries.{DeliveriesSendOne, KeptLooksOpenNone};
ghost use Rattle.row_laws.specs.Bounds.Waiting.{two_looks_wait, the_report_comes, sent_for_calls};
ghost use Rattle.row_laws.specs.Bounds.Records.{EachIsWithin};
ghost use Rattle.row_laws.specs.Bounds.Requests.{most_requests, is_mend, IsRequest, mailed_so_far, mailing_to_d, removing_d, removed_so_far};

/// A call that isn't a mend asks a further request only while its requests, that one too, are no more than the written
/// components of its path and six, or seven for a mail, whatever the earlier ones were answered.
pub fn scripts_end()
    ensures { (mounts : List Mount) (is_packed : ℕ → Bool) (free : Option ℕ) (words : Call) (begins : Beginning) (answers : List Answer) →
        is_mend words ≡ false → IsRequest (wants mounts is_packed free words begins answers) → length answers + 1 ≤ most_requests words }
{}

/// The bound is met: the removal of a directory of the root makes seven requests, one for its component and six, and a mail to one
/// makes eight.
pub fn bound_is_met()
    ensures last { (id : CallId) (root own : Serial) → wants [] (λ (group : ℕ). true) None removing_d (Walks id) (removed_so_far root own) ≡ Close own }
    ensures number { (root own : Serial) → length (removed_so_far root own) + 1 ≡ most_requests removing_d }
    ensures mailed { (id : CallId) (box own : Serial) → wants [] (λ (group : ℕ). true) None mailing_to_d (Walks id) (mailed_so_far box own) ≡ Close box }
    ensures mails { (box own : Serial) → length (mailed_so_far box own) + 1 ≡ most_requests mailing_to_d }
{}

/// At each moment of every run, in the first world and after each event, the current request of each waiting call has the number
/// after those that were answered, so a look that is taken again keeps its number; and where the call isn't a mend, that number
/// is within the bound of its words.
pub fn requests_bounded()
    ensures first { (c : Config) → RequestsBounded (first_world c) }
    ensures events { (c : Config) → Kept c RequestsBounded }
    ensures runs { (c : Config) (lines : List ScheduleLine) → RequestsBounded (run_in c lines) }
{}

/// At each moment of every run, the delivery of a packet that isn't a Report sends at most one packet of an open, an operation, a
/// close or a look, besides at most one Open for each group, of a mend that starts. What makes it so stands in the first world
/// and is kept by each event: no look that a synchronization site answers again is answered by the Open of a mend.
pub fn deliveries_send_one()
    ensures first { (c : Config) → KeptLooksOpenNone (first_world c) }
    ensures events { (c : Config) → Kept c KeptLooksOpenNone }
    ensures moments { (c : Config) (w : World) → KeptLooksOpenNone w → DeliveriesSendOne c w }
    ensures runs { (c : Config) (lines : List ScheduleLine) → DeliveriesSendOne c (run_in c lines) }
{}

/// A Report may send more, since the requests that waited for its group are served then: here it is two.
pub fn a_report_may_send_more()
    ensures { sent_for_calls the_report_comes ≡ sent_for_calls two_looks_wait + 2 }
{}

/// In every consistent trace, and so in every lawful one, each look, grant, refusal, operation and release answers a request of a
/// number within the bound of its call, where that isn't a mend.
pub fn records_keep_bounds()
    ensures { (c : Config) (trace : Trace) → IsConsistent c trace → EachIsWithin c trace }
{}
