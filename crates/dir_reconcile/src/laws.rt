ghost use Rattle.std.specs.Prelude.{◌≡◌, List};
ghost use Rattle.dir_format.specs.declared.entry.Entry.{Entry};
ghost use Rattle.dir_format.specs.Entries.{IsDir};
ghost use Rattle.dir_reconcile.specs.Joins.{AgreeOnKinds, joined_dirs};

/// A law of definitions: which of two directories is joined to the other makes no difference, where an inode that both have
/// has one kind.
pub fn join_is_commutative()
    ensures { (xs ys : List Entry) → AgreeOnKinds xs ys → joined_dirs xs ys ≡ joined_dirs ys xs }
{}

/// A law of definitions: in which sequence directories are joined makes no difference.
pub fn join_is_associative()
    ensures { (xs ys zs : List Entry) → joined_dirs (joined_dirs xs ys) zs ≡ joined_dirs xs (joined_dirs ys zs) }
{}

/// A law of definitions: a directory joined to itself stays the same.
pub fn join_is_idempotent()
    ensures { (xs : List Entry) → joined_dirs xs xs ≡ xs }
{}
