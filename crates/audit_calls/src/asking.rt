ghost use Rattle.std.specs.Prelude.{◌≡◌, ◌≤◌, ℕ, Bool, length, take, IfOk, MatchOption};
ghost use Rattle.call_rules.specs.Scripts.{in_group, named_wants, where_packed};
ghost use Rattle.audit_calls.specs.Asked.{group_asked};

use crate::CallRow;
use crate::copying::script_after;
use call_rules::{Answer, Want};
use locus_ids::{Mount, NoMemory, Refusal};
use trace_book::Reply;

impl CallRow {
    /// What the call asks next, or its reply, wherever packs stand.
    pub fn wants(&self, mounts: &[Mount]) -> Result<Want, NoMemory>
        ensures { IfOk result (λ w. w ≡ named_wants mounts.now self.now.free self.now.words self.now.begins self.now.answers) }
    {
        self.next(mounts)
    }

    /// What it asked once the first of its requests were answered, so many as this or all.
    pub fn wants_after(&self, mounts: &[Mount], count: usize) -> Result<Want, NoMemory>
        ensures { IfOk result (λ w. w ≡ named_wants mounts.now self.now.free self.now.words self.now.begins (take count self.now.answers)) }
    {
        if self.answers().len() <= count {
            return self.wants(mounts);
        }
        let answers = first_of(self.answers(), count);
        let script = script_after(self.allocator(), self.words(), self.begins(), answers)?;
        script.next(mounts, self.free())
    }
}

/// The first answers, so many or all.
fn first_of(answers: &[Answer], count: usize) -> &[Answer]
    ensures { result.now ≡ take count answers.now }
{
    if count < answers.len() {
        &answers[..count]
    } else {
        answers
    }
}

/// The group whose packs must be there for the request.
pub fn group_asked(want: &Want) -> Option<u8>
    ensures { result ≡ group_asked want.now }
{
    match want {
        Want::Look { file, what: _ } => Some(file.group),
        Want::Open { file, mode: _ } => Some(file.group),
        Want::OpenToMend { file } => Some(file.group),
        Want::Make {
            group,
            kind: _,
            sites: _,
        } => Some(*group),
        Want::Do { inst: _, op: _ } => None,
        Want::Close { inst: _ } => None,
        Want::Give { reply: _ } => None,
        Want::Never => None,
    }
}

/// The request, or the refusal of one in a group that is packed nowhere. `is_packed` tells of the group that is asked in.
pub fn where_packed(want: Want, is_packed: bool) -> Want
    ensures { (packed : ℕ → Bool) → MatchOption (group_asked want) (Unit {0}) (λ group. packed group ≡ is_packed) → result ≡ where_packed packed want }
{
    match want {
        Want::Look { file, what } => in_group(is_packed, Want::Look { file, what }),
        Want::Open { file, mode } => in_group(is_packed, Want::Open { file, mode }),
        Want::OpenToMend { file } => in_group(is_packed, Want::OpenToMend { file }),
        Want::Make { group, kind, sites } => in_group(is_packed, Want::Make { group, kind, sites }),
        Want::Do { inst, op } => Want::Do { inst, op },
        Want::Close { inst } => Want::Close { inst },
        Want::Give { reply } => Want::Give { reply },
        Want::Never => Want::Never,
    }
}

fn in_group(is_packed: bool, want: Want) -> Want
    ensures { (packed : ℕ → Bool) (group : ℕ) → packed group ≡ is_packed → result ≡ in_group packed group want }
{
    if is_packed {
        want
    } else {
        drop(want);
        Want::Give {
            reply: Reply::No {
                why: Refusal::NoStorage,
            },
        }
    }
}
