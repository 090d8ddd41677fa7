ghost use Rattle.std.specs.Prelude.{◌≡◌, List, map, reverse};
ghost use Rattle.schedule_lines.specs.Cluster.{config_of};
ghost use Rattle.schedule_lines.specs.Schedule.{AreInOrder};
ghost use Rattle.schedule_lines.specs.declared.line.ScheduleLine.{ScheduleLine};
ghost use Rattle.tree_model.specs.Folds.{last_line};
ghost use Rattle.the_run.specs.Runs.{run};
ghost use Rattle.row_laws.specs.Shown.{trace_of};
ghost use Rattle.past_laws.specs.Agreement.{past};
ghost use Rattle.audit_rules.specs.Consistent.{Sound};
ghost use Rattle.audit_laws.specs.Reading.{audited_all, entry_as_read};
ghost use Rattle.audited_runs.specs.Answered.{IsAuditedWell};

use audit_laws::sound_traces_are_answered_yes;
use text_laws::commits_have_texts;

/// As its records are read of their texts, each record of every run is consistent with those before it. So the trace of a schedule of no more
/// than 4,294,967,295 lines, which is text, is answered yes behind its header lines and `trace`.
pub fn runs_are_audited_well()
    ensures sound { (lines : List ScheduleLine) → AreInOrder lines →
        audited_all (config_of lines) (map entry_as_read (reverse (trace_of (run lines)))) ≡ Sound (last_line (trace_of (run lines))) (past (config_of lines) (trace_of (run lines))) }
    ensures yes { (lines : List ScheduleLine) → AreInOrder lines → IsAuditedWell lines (trace_of (run lines)) }
{
    commits_have_texts();
    sound_traces_are_answered_yes();
}
