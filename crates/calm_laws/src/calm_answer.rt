ghost use Rattle.std.specs.Prelude.{ℕ, ◌≤◌, List};
ghost use Rattle.locus_ids.specs.declared.config.Config.{Config};
ghost use Rattle.schedule_lines.specs.Schedule.{AreInOrder};
ghost use Rattle.schedule_lines.specs.declared.line.ScheduleLine.{ScheduleLine};
ghost use Rattle.role_steps.specs.declared.rounds.InEpoch.{InEpoch};
ghost use Rattle.the_run.specs.Runs.{run};
ghost use Rattle.the_run.specs.Worlds.{World};
ghost use Rattle.lawful_trace.specs.Calm.{CalmRoundsAnswer};
ghost use Rattle.row_laws.specs.Shown.{trace_of};
ghost use Rattle.row_laws.specs.Orderly.Calm.{AreTogether};
ghost use Rattle.row_laws.specs.OrderlyRows.Agreeing.{IsWithin};
ghost use Rattle.calm_laws.specs.Carrying.{IsAllCarried};
ghost use Rattle.calm_laws.specs.Rounds.{CalmRoundsLeaveNobody, CarriesOn, IsCalm, IsInRound, IsOpen, IsReport, LooksAreKnown, after};

/// While all members are together in a round, the synchronization site knows no later look of a process than the one that its call asks,
/// and this one by its answer; and before the start it holds no other request of that process.
pub fn looks_are_known()
    ensures { (c : Config) (lines : List ScheduleLine) (n : ℕ) (e : InEpoch) (w : World) → IsInRound c lines n w → AreTogether w e → LooksAreKnown c e w }
{}

/// Where an open comes to its synchronization site in a round, what was carried stays so: before the start it is held, and from then on
/// its storage site is asked, or it is answered.
pub fn opens_carry_on()
    ensures { (c : Config) → CarriesOn c IsOpen }
{}

/// So it is where a report comes: if it is the last one the group starts, and each request that was held is handed on.
pub fn reports_carry_on()
    ensures { (c : Config) → CarriesOn c IsReport }
{}

/// In a calm round, once all its ticks are done, the reports of all members and the current request of each waiting call of a member are
/// carried, and each later delivery keeps this.
pub fn calm_rounds_carry()
    ensures { (c : Config) (lines : List ScheduleLine) (n : ℕ) (e : InEpoch) (k j : ℕ) → IsCalm c lines n e k → j ≤ k → IsAllCarried c e (after c lines n j) }
{}

/// After each calm round of each run no call of a member waits, mends included: a round that isn't cut short, while all members of an
/// epoch are together and no limit is passed. The ticks put each request and each report under way, and each delivery hands on what its
/// packet carried.
pub fn calm_rounds_leave_nobody()
    ensures { (c : Config) → CalmRoundsLeaveNobody c }
{}

/// So do the records tell it, of every schedule whose lines are in order and whose run passes no limit.
pub fn calm_rounds_answer()
    ensures { (lines : List ScheduleLine) → AreInOrder lines → IsWithin lines → CalmRoundsAnswer lines (trace_of (run lines)) }
{}
