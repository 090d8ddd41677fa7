ghost use Rattle.std.specs.Prelude.{◌≡◌, ℕ, ◌+◌, ◌<◌, ◌≤◌, true, false};
ghost use Rattle.disk_calls.specs.Gates.{Cut};
ghost use Rattle.disk_calls.specs.Versions.{Writing, calls_of_writing, new_gate, old_gate};

/// A version is written by four calls at least: its slot, a sync, its gate and a sync.
pub fn versions_take_four_calls()
    ensures { (w : Writing) → 4 ≤ calls_of_writing w }
{}

/// The gate of a version is shut until all before it is written and synced, and it is open once it is synced itself. Until then
/// the gate of the older version is open.
pub fn gates_switch_in_order()
    ensures shut { (blocks : ℕ) (how : Cut) (passed : ℕ) → passed < blocks + 2 → new_gate blocks how passed ≡ false }
    ensures open { (blocks : ℕ) (how : Cut) (passed : ℕ) → blocks + 4 ≤ passed → new_gate blocks how passed ≡ true }
    ensures older { (blocks : ℕ) (how : Cut) (passed : ℕ) → passed < blocks + 4 → old_gate blocks how passed ≡ true }
{}
