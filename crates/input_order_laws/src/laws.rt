ghost use Rattle.std.specs.Prelude.{ℕ, List, [], ◌∷◌, ◌++◌, map};
ghost use Rattle.std.specs.List.{AllByRecursion};
ghost use Rattle.schedule_lines.specs.Schedule.{AreInOrder, IsSchedule, MayStand};
ghost use Rattle.schedule_lines.specs.declared.line.ScheduleLine.{ScheduleLine};
ghost use Rattle.the_run.specs.Commands.{Asked, Drawn, load_lines, opening_lines, tree_lines};
ghost use Rattle.generated_load.specs.Draws.{draws_of};
ghost use Rattle.input_order_laws.specs.Inputs.{IsSettled, IsOnCluster, IsDrawn, spelling};

/// The lines that bytes are read as stand as those of a schedule may, and lines that do are read from their spellings: the order asks
/// for no more than a reader does. None stand so; with one more that may stand after them lines do still, and so do their first ones.
pub fn schedules_are_in_order()
    ensures read { (bytes : List (List ℕ)) (lines : List ScheduleLine) → IsSchedule bytes lines → AreInOrder lines }
    ensures spelled { (lines : List ScheduleLine) → AreInOrder lines → IsSchedule (map spelling lines) lines }
    ensures none { AreInOrder [] }
    ensures more { (lines : List ScheduleLine) (l : ScheduleLine) → AreInOrder lines → MayStand lines l → AreInOrder (lines ++ l ∷ []) }
    ensures first { (some later : List ScheduleLine) → AreInOrder (some ++ later) → AreInOrder some }
{}

/// The lines that open the fixed cluster stand so, and with them those of calls that are in range there.
pub fn trees_are_in_order()
    ensures opening { (budget : ℕ) → IsSettled budget → AreInOrder (opening_lines budget) }
    ensures calls { (calls : List Asked) → AllByRecursion IsOnCluster calls → AreInOrder (tree_lines calls) }
{}

/// The lines of the load of any draws of the three sites and eight names stand so, and so those of every load that is generated.
pub fn loads_are_in_order()
    ensures drawn { (draws : List Drawn) → AllByRecursion IsDrawn draws → AreInOrder (load_lines draws) }
    ensures generated { (number events : ℕ) → AreInOrder (load_lines (draws_of number events)) }
{}
