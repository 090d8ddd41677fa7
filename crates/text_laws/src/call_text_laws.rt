ghost use Rattle.std.specs.Prelude.{◌≡◌, ℕ, Bool, true, List, Option};
ghost use Rattle.std.specs.List.{list_all};
ghost use Rattle.locus_ids.specs.declared.config.Mount.{Mount};
ghost use Rattle.trace_book.specs.declared.call.Call.{Call};
ghost use Rattle.trace_book.specs.declared.descriptor.Beginning.{Beginning};
ghost use Rattle.call_rules.specs.declared.answer.Answer.{Answer};
ghost use Rattle.call_rules.specs.Scripts.{wants};
ghost use Rattle.record_reading.specs.Ranges.{is_words};
ghost use Rattle.text_laws.specs.CallTexts.Wants.{is_answer, is_begun, is_free, is_mount, is_want};

/// The request that a call makes next, or its reply, is in the ranges of records, whichever groups are packed.
pub fn calls_want_texts()
    ensures { (mounts : List Mount) (packed : ℕ → Bool) (free : Option ℕ) (process : ℕ) (words : Call) (begins : Beginning) (answers : List Answer) →
        list_all is_mount mounts ≡ true → is_free free ≡ true → is_words process words ≡ true → is_begun begins ≡ true → list_all is_answer answers ≡ true → is_want (wants mounts packed free words begins answers) ≡ true }
{}
