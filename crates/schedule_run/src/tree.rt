ghost use Rattle.std.specs.Prelude.{◌≡◌, ℕ, [], ◌++◌, Err, List, Option, IfOk, OnOk};
ghost use Rattle.std.specs.List.{AllByRecursion};
ghost use Rattle.the_run.specs.Runs.{run};
ghost use Rattle.the_run.specs.Commands.{Asked, tree_lines, tree_text};
ghost use Rattle.input_order_laws.specs.Inputs.{IsOnCluster};
ghost use Rattle.run_book.specs.Ledgers.{limit_in};
ghost use Rattle.world.specs.declared.fault.WorldFault.{WorldFault};
ghost use Rattle.the_run.specs.Asking.{Asks, MayAsk};
ghost use Rattle.schedule_run.specs.Tree.{HasRun, RunsNext};

use crate::{OpenedRun, RunFault};
use generated_load::load_cluster;
use line_text::{is_passed, parse_tree_line};
use run_book::{Passed, Writing};
use schedule_lines::{Header, Line};
use std::alloc::Global;

/// The deliveries of a settle.
const MOST: u32 = 100_000;

/// Runs the calls that lines of input ask.
#[derive(Drop)]
pub struct TreeRunner {
    alloc: Global,
    header: Header,
    run: OpenedRun,
}

impl TreeRunner {
    /// The opening is run, and no call was asked.
    pub fn new(alloc: Global) -> Result<TreeRunner, RunFault>
        ensures opened { IfOk result (HasRun [] []) }
        ensures good { result ≡ Err RunFault.Bad → ⊥ }
        ensures complete { (fault : WorldFault) → result ≡ Err (RunFault.World fault) → fault ≡ WorldFault.NoMemory }
    {
        let config = load_cluster(alloc)?;
        let run = OpenedRun::new(alloc, MOST, Writing::Replies)?;
        Ok(TreeRunner {
            alloc,
            header: Header {
                config,
                whole: true,
            },
            run,
        })
    }

    /// Runs the call that the next line asks, and a settle. Then the replies so far are what was taken before, and the fresh text.
    /// An empty line or a comment asks nothing, and a bad line changes nothing. The world can't go on at a line alone that asks a call,
    /// and there nothing but memory can be wanting.
    pub fn run_line(&mut self, bytes: &[u8]) -> Result<(), RunFault>
        ensures ran { (calls : List Asked) (taken : List ℕ) → HasRun calls taken self.old → OnOk result (RunsNext calls bytes.now taken self.new) }
        ensures bad { (calls : List Asked) (taken : List ℕ) → HasRun calls taken self.old → result ≡ Err RunFault.Bad → (asked : Option Asked) → Asks bytes.now asked → ⊥ }
        ensures kept { result ≡ Err RunFault.Bad → self.new ≡ self.old }
        ensures world { (calls : List Asked) (taken : List ℕ) (fault : WorldFault) → HasRun calls taken self.old → result ≡ Err (RunFault.World fault) → MayAsk bytes.now }
        ensures complete { (calls : List Asked) (taken : List ℕ) (fault : WorldFault) → AllByRecursion IsOnCluster calls → HasRun calls taken self.old → result ≡ Err (RunFault.World fault) → fault ≡ WorldFault.NoMemory }
    {
        if is_passed(bytes) {
            return Ok(());
        }
        let call = parse_tree_line(self.alloc, bytes, &self.header)?;
        self.run.happen(call)?;
        self.run.happen(Line::Settle { most: MOST })?;
        Ok(())
    }

    /// The replies that nobody has taken yet.
    pub fn fresh(&self) -> &[u8]
        ensures { (calls : List Asked) (taken : List ℕ) → HasRun calls taken self.now → tree_text calls ≡ taken ++ result.now }
    {
        self.run.fresh()
    }

    /// The text is taken.
    pub fn take_fresh(&mut self)
        ensures { (calls : List Asked) (taken : List ℕ) → HasRun calls taken self.old → HasRun calls (tree_text calls) self.new }
    {
        self.run.take_fresh();
    }

    /// The limit that an event passed: then the run has ended with the world before that event.
    pub fn passed(&self) -> Option<Passed>
        ensures { (calls : List Asked) (taken : List ℕ) → HasRun calls taken self.now → limit_in result ≡ (run (tree_lines calls)).over }
    {
        self.run.passed()
    }
}
