ghost use Rattle.std.specs.Prelude.{◌≡◌, ℕ, List};
ghost use Rattle.schedule_lines.specs.Schedule.{Reads, IsSchedule};
ghost use Rattle.schedule_lines.specs.declared.line.ScheduleLine.{ScheduleLine};

/// Bytes are read in one way.
pub fn lines_have_one_reading()
    ensures line { (earlier : List ScheduleLine) (bytes : List ℕ) (l m : ScheduleLine) → Reads earlier bytes l → Reads earlier bytes m → l ≡ m }
    ensures schedule { (bytes : List (List ℕ)) (ls ms : List ScheduleLine) → IsSchedule bytes ls → IsSchedule bytes ms → ls ≡ ms }
{}
