ghost use Rattle.std.specs.Prelude.{◌≡◌, [], ◌∷◌, ◌++◌, None, Some, codes};
ghost use Rattle.locus_ids.specs.declared.ids.Kind.TheVariants as kind;
ghost use Rattle.trace_book.specs.declared.operation.Op.TheVariants as op;
ghost use Rattle.trace_book.specs.declared.operation.Outcome.TheVariants as outcome;
ghost use Rattle.trace_book.specs.declared.reply.Reply.TheVariants as reply;
ghost use Rattle.lawful_trace.specs.Samples.{stamp};
ghost use Rattle.call_rules.specs.declared.answer.Answer.TheVariants as answer;
ghost use Rattle.call_rules.specs.declared.want.Want.TheVariants as want;
ghost use Rattle.call_rules.specs.Samples.{inst};
ghost use Rattle.box_samples.specs.Mails.{full_at_insert, full_at_write, insert_refused, mails, message_made, write_refused};

/// A mail whose write is refused closes the new file, which stays empty, and then the box; one whose insert is refused closes the box, and its
/// whole message stays as a file that no entry names. Then each is answered the refusal.
pub fn refused_mails_close_what_they_opened()
    ensures write { mails message_made ≡ want.Do (inst 2) (op.Write 0 (104 ∷ 105 ∷ [])) }
    ensures new_closed { mails write_refused ≡ want.Close (inst 2) }
    ensures then_the_box { mails (write_refused ++ answer.Ended (Some (stamp 1 1)) ∷ []) ≡ want.Close (inst 1) }
    ensures write_told { mails (write_refused ++ answer.Ended (Some (stamp 1 1)) ∷ answer.Ended None ∷ []) ≡ want.Give (reply.No full_at_write) }
    ensures insert { mails (message_made ++ answer.Did outcome.Done ∷ answer.Ended (Some (stamp 1 1)) ∷ []) ≡ want.Do (inst 1) (op.Insert (codes "m1.1.1") 3 kind.File) }
    ensures box_closed { mails insert_refused ≡ want.Close (inst 1) }
    ensures insert_told { mails (insert_refused ++ answer.Ended None ∷ []) ≡ want.Give (reply.No full_at_insert) }
{}
