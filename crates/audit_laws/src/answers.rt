ghost use Rattle.std.specs.Prelude.{◌≡◌, true, false, List, length, map};
ghost use Rattle.trace_book.specs.declared.entry.Entry.{Entry};
ghost use Rattle.schedule_lines.specs.Cluster.{config_of};
ghost use Rattle.schedule_lines.specs.Schedule.{AreInOrder, MayEnd};
ghost use Rattle.schedule_lines.specs.declared.line.ScheduleLine.{ScheduleLine};
ghost use Rattle.audit_answers.specs.Answers.{IsAnswered, is_broken};
ghost use Rattle.audit_answers.specs.declared.answer.Answer.{Answer};
ghost use Rattle.audit_laws.specs.Inputs.{are_texts, input_of};
ghost use Rattle.audit_laws.specs.Reading.{audited_all, entry_as_read};

use record_reading::texts_tell_records;

/// A trace of well-formed records, behind the header lines of a schedule and `trace`, is an input, and where no record of it breaks the audit
/// as it is read of its text, the answer is yes and how many they are.
pub fn sound_traces_are_answered_yes()
    ensures { (lines : List ScheduleLine) (trace : List Entry) → AreInOrder lines → MayEnd lines → are_texts trace ≡ true →
        is_broken (audited_all (config_of lines) (map entry_as_read trace)) ≡ false → IsAnswered (input_of lines trace) (Answer.Yes (length trace)) }
{
    texts_tell_records();
}
