//! A round of deliveries: whether a packet comes next, and by what the round ends. The world of a run does as this says. It knows of a
//! packet only its number.
#![tactic(auto)]

ghost use Rattle.std.specs.Prelude.{◌≡◌, ◌≤◌, ℕ, None, Some, true};
ghost use Rattle.std.specs.Option.{is_some};

/// What a round does next.
#[derive(Clone, Copy)]
pub enum RoundTurn {
    /// The packet of this number comes.
    Delivers(u32),
    /// No packet can come: the round is over.
    Ends,
    /// As many packets came as may, and one more can.
    EndsByBudget,
}

/// What a round does next, where so many packets may come yet, and this is the lowest-numbered one that can.
pub fn round_turn(left: u32, next: Option<u32>) -> RoundTurn
    ensures next { (number : ℕ) → result ≡ RoundTurn.Delivers number → next ≡ Some number }
    ensures within { (number : ℕ) → result ≡ RoundTurn.Delivers number → 1 ≤ left }
    ensures over { result ≡ RoundTurn.Ends → next ≡ None }
    ensures spent { result ≡ RoundTurn.EndsByBudget → left ≡ 0 }
    ensures more { result ≡ RoundTurn.EndsByBudget → is_some next ≡ true }
{
    match next {
        Some(number) if left > 0 => RoundTurn::Delivers(number),
        Some(_) => RoundTurn::EndsByBudget,
        None => RoundTurn::Ends,
    }
}
