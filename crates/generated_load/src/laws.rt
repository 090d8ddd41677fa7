ghost use Rattle.std.specs.Prelude.{◌≡◌, ℕ, ◌≤◌, ◌++◌, [], length};
ghost use Rattle.the_run.specs.Commands.{closing_lines, load_lines, opening_lines};
ghost use Rattle.generated_load.specs.Draws.{draws_of};
ghost use Rattle.generated_load.specs.Pieces.{LoadLeft, first_left, header_lines, lines_left, moved, next_lines};

/// The load is its opening, the lines of each event in turn, and its end.
pub fn load_is_its_pieces()
    ensures whole { (number events : ℕ) → load_lines (draws_of number events) ≡ opening_lines 20000 ++ (lines_left (first_left number events) ++ closing_lines) }
    ensures next { (l : LoadLeft) → 1 ≤ l.left → lines_left l ≡ next_lines l ++ lines_left (moved l) }
    ensures end { (l : LoadLeft) → l.left ≡ 0 → lines_left l ≡ [] }
    ensures headers { length header_lines ≡ 4 }
{}
