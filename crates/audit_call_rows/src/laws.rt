ghost use Rattle.std.specs.Prelude.{◌≡◌, List, Option};
ghost use Rattle.locus_ids.specs.declared.config.Config.{Config};
ghost use Rattle.locus_ids.specs.declared.sites.Members.{Members};
ghost use Rattle.call_rules.specs.declared.answer.Answer.{Answer};
ghost use Rattle.promises.specs.Past.{Past, CallSoFar, asks_after};
ghost use Rattle.audit_call_rows.specs.Asked.{HasMembers, asks_in};

/// What a call asks hangs on the members of its epoch alone.
pub fn asked_by_members()
    ensures { (c : Config) (p : Past) (k : CallSoFar) (members : Option Members) → HasMembers p k members → (answers : List Answer) → asks_after c p k answers ≡ asks_in c members k answers }
{}
