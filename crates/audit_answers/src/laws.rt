ghost use Rattle.std.specs.Prelude.{◌≡◌, ℕ, List};
ghost use Rattle.audit_input.specs.Input.{IsBadAt};
ghost use Rattle.audit_answers.specs.Answers.{IsAnswered};
ghost use Rattle.audit_answers.specs.declared.answer.Answer.{Answer};

/// Lines of bytes have one answer at most, and none where one of them is bad; and there is one first bad line at most.
pub fn an_input_has_one_answer()
    ensures one { (bytes : List (List ℕ)) (a b : Answer) → IsAnswered bytes a → IsAnswered bytes b → a ≡ b }
    ensures good { (bytes : List (List ℕ)) (a : Answer) (n : ℕ) → IsAnswered bytes a → IsBadAt bytes n → ⊥ }
    ensures bad { (bytes : List (List ℕ)) (m n : ℕ) → IsBadAt bytes m → IsBadAt bytes n → m ≡ n }
{}
