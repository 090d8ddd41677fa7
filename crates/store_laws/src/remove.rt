//! Laws of calls that remove a name: what they have seen of what they remove.
ghost use Rattle.std.specs.Prelude.{ℕ, ◌≡◌, List, Some};
ghost use Rattle.locus_ids.specs.declared.config.Config.{Config};
ghost use Rattle.locus_ids.specs.declared.ids.Serial.{Serial};
ghost use Rattle.trace_book.specs.declared.operation.Op.TheVariants as op;
ghost use Rattle.call_rules.specs.declared.want.Want.TheVariants as want;
ghost use Rattle.role_steps.specs.Requests.{seen_by};
ghost use Rattle.role_steps.specs.Views.{Frame, Users};
ghost use Rattle.role_steps.specs.declared.users.WaitingCall.{WaitingCall};
ghost use Rattle.the_run.specs.Worlds.{Line};
ghost use Rattle.tree_model.specs.Epochs.{epoch_of};
ghost use Rattle.tree_laws.specs.Calls.{Asks};
ghost use Rattle.tree_laws.specs.Following.{IsFollowed};
ghost use Rattle.tree_laws.specs.Packets.{SeesTarget};
ghost use Rattle.tree_laws.specs.Printed.{entries};
ghost use Rattle.store_laws.specs.Users.Turning.{it, Turning};

/// Where each told line comes as it may, a call that asks to remove a name, in the epoch in which its site is, has the file of that
/// number open to write in the directory's group, as no other call has; nothing was done on it but to see that it is empty; and what
/// its site sends with the operation is the vector of the version on which it was opened, which is the last.
pub fn removes_have_seen()
    ensures { (c : Config) (trace : List Line) (f : Frame) (w : WaitingCall) (u : Users) (i : Serial) (name : List ℕ) (ino : ℕ) → IsFollowed c trace → epoch_of (entries trace) f.me ≡ Some f.epoch → Turning c trace f w u → Asks c trace (it f w) (want.Do i (op.Remove name ino)) →
        SeesTarget c trace f.epoch (it f w) i ino (seen_by u w.answers (op.Remove name ino)) }
{}
