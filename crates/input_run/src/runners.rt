ghost use Rattle.std.specs.Prelude.{◌≡◌, ℕ, ◌+◌, List, [], ◌∷◌, ◌++◌, length, true, false, Err, OnOk};
ghost use Rattle.schedule_lines.specs.declared.line.ScheduleLine.{ScheduleLine};
ghost use Rattle.the_run.specs.Runs.{run};
ghost use Rattle.run_book.specs.Ledgers.{limit_in};
ghost use Rattle.input_run.specs.Inputs.{Input, MayEndAfter};
ghost use Rattle.input_run.specs.Runs.{output_of};
ghost use Rattle.input_run.specs.Runs.{Refuses};
ghost use Rattle.input_run.specs.Turns.{RunsOn};

use run_book::Passed;
use schedule_run::{RunFault, ScheduleRunner, TreeRunner, WorldFault};

/// What runs the lines of an input, one after another.
pub trait LineRunner {
    /// What the lines are.
    ghost input: { Input };

    /// These lines of bytes stand for these lines of a run, which are run, and these bytes of the output were taken.
    ghost stands: { List (List ℕ) → List ScheduleLine → List ℕ → Self → Type 0 };

    /// Runs the next line, with its number from 1.
    fn run_next(&mut self, number: u32, bytes: &[u8]) -> Result<(), RunFault>
        ensures ran { (all : List (List ℕ)) (lines : List ScheduleLine) (taken : List ℕ) → number ≡ length all + 1 → stands all lines taken self.old → OnOk result (RunsOn stands input all bytes.now taken self.new) }
        ensures bad { (all : List (List ℕ)) (lines : List ScheduleLine) (taken : List ℕ) → stands all lines taken self.old → result ≡ Err RunFault.Bad → Refuses input all bytes.now }
        ensures complete { (all : List (List ℕ)) (lines : List ScheduleLine) (taken : List ℕ) (fault : WorldFault) → number ≡ length all + 1 → stands all lines taken self.old → result ≡ Err (RunFault.World fault) → fault ≡ WorldFault.NoMemory };

    /// The input may end here.
    fn may_end_here(&self) -> bool
        ensures yes { (all : List (List ℕ)) (lines : List ScheduleLine) (taken : List ℕ) → stands all lines taken self.now → result ≡ true → MayEndAfter input lines }
        ensures no { (all : List (List ℕ)) (lines : List ScheduleLine) (taken : List ℕ) → stands all lines taken self.now → result ≡ false → MayEndAfter input lines → ⊥ };

    /// The output that nobody has taken yet.
    fn output(&self) -> &[u8]
        ensures { (all : List (List ℕ)) (lines : List ScheduleLine) (taken : List ℕ) → stands all lines taken self.now → output_of input lines ≡ taken ++ result.now };

    /// The output is taken.
    fn take_output(&mut self)
        ensures { (all : List (List ℕ)) (lines : List ScheduleLine) (taken : List ℕ) → stands all lines taken self.old → stands all lines (output_of input lines) self.new };

    /// The limit that the run has passed.
    fn limit(&self) -> Option<Passed>
        ensures { (all : List (List ℕ)) (lines : List ScheduleLine) (taken : List ℕ) → stands all lines taken self.now → limit_in result ≡ (run lines).over };
}

impl LineRunner for ScheduleRunner {
    ghost use Rattle.input_run.specs.Inputs.Input.{Schedule};
    ghost use Rattle.input_run.specs.Runners.{ScheduleStands};

    ghost input = { Schedule };

    ghost stands = { ScheduleStands };

    #[tactic(none)]
    fn run_next(&mut self, number: u32, bytes: &[u8]) -> Result<(), RunFault> {
        self.run_line(number, bytes)
    }

    #[tactic(none)]
    fn may_end_here(&self) -> bool {
        self.may_end()
    }

    #[tactic(none)]
    fn output(&self) -> &[u8] {
        self.fresh()
    }

    #[tactic(none)]
    fn take_output(&mut self) {
        self.take_fresh();
    }

    #[tactic(none)]
    fn limit(&self) -> Option<Passed> {
        self.passed()
    }
}

impl LineRunner for TreeRunner {
    ghost use Rattle.input_run.specs.Inputs.Input.{Calls};
    ghost use Rattle.input_run.specs.Runners.{TreeStands};

    ghost input = { Calls };

    ghost stands = { TreeStands };

    #[tactic(none)]
    fn run_next(&mut self, _: u32, bytes: &[u8]) -> Result<(), RunFault> {
        self.run_line(bytes)
    }

    #[tactic(none)]
    fn may_end_here(&self) -> bool {
        true
    }

    #[tactic(none)]
    fn output(&self) -> &[u8] {
        self.fresh()
    }

    #[tactic(none)]
    fn take_output(&mut self) {
        self.take_fresh();
    }

    #[tactic(none)]
    fn limit(&self) -> Option<Passed> {
        self.passed()
    }
}
