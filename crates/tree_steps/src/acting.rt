ghost use Rattle.std.specs.Prelude.{◌≡◌, cond, IfOk, OnOk, OnErr};
ghost use Rattle.std.specs.List.{find};
ghost use Rattle.std.specs.Option.{option_copied};
ghost use Rattle.tree_model.specs.Lists.{change_first};
ghost use Rattle.tree_model.specs.State.{instance_in, is_named};
ghost use Rattle.tree_model.specs.Tree.{is_passed_probe, with_make};
ghost use Rattle.tree_model.specs.Working.{is_target};
ghost use Rattle.tree_tables.specs.Worked.{worked};

use crate::TreeTables;
use file_effects::Work;
use locus_ids::{CallId, ItemList, NoMemory, Serial};
use trace_book::{Op, Outcome};
use tree_model::Instance;

impl TreeTables {
    /// The open instance that the call has of the inode.
    pub fn target(&self, call: CallId, ino: u16) -> Option<&Instance>
        ensures { option_copied result ≡ find (is_target call ino) self.now.instances }
    {
        self.instances.target(call, ino)
    }

    /// An instance has executed an operation with this result, and this has become of it. After `NoMemory` the tree is as
    /// it was.
    pub fn act(
        &mut self,
        inst: Serial,
        op: &Op,
        outcome: &Outcome,
        work: Work,
    ) -> Result<(), NoMemory>
        ensures ok { OnOk result (self.new ≡ record self.old { instances = change_first (is_named inst) (worked work) self.old.instances; makes = cond (is_passed_probe op.now outcome.now) (with_make (instance_in self.old inst) self.old.makes) self.old.makes }) }
        ensures err { OnErr result (self.new ≡ self.old) }
    {
        let makes = self.makes_after(inst, is_passed_probe(op, outcome))?;
        self.makes = makes;
        self.instances.work(inst, work);
        Ok(())
    }

    /// The makes underway, with that of an instance whose probe has passed.
    fn makes_after(&self, inst: Serial, passed: bool) -> Result<ItemList<CallId>, NoMemory>
        ensures { IfOk result (λ made. made ≡ cond passed (with_make (instance_in self.now inst) self.now.makes) self.now.makes) }
    {
        if !passed {
            return self.makes.copy();
        }
        self.makes_with(inst)
    }

    /// The makes underway, with that of the instance.
    fn makes_with(&self, inst: Serial) -> Result<ItemList<CallId>, NoMemory>
        ensures { IfOk result (λ made. made ≡ with_make (instance_in self.now inst) self.now.makes) }
    {
        let mut made = self.makes.copy()?;
        if let Some(instance) = self.instances.named(inst) {
            made.insert(0, instance.grant.call)?;
        }
        Ok(made)
    }
}

/// The operation is a probe that finds the name free.
fn is_passed_probe(op: &Op, outcome: &Outcome) -> bool
    ensures { result ≡ is_passed_probe op.now outcome.now }
{
    match op {
        Op::Probe { name: _ } => match outcome {
            Outcome::Done => true,
            _ => false,
        },
        _ => false,
    }
}
