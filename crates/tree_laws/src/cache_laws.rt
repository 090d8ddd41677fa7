ghost use Rattle.std.specs.Prelude.{◌≡◌, ℕ, List, Option, Some};
ghost use Rattle.locus_ids.specs.declared.ids.FileId.{FileId};
ghost use Rattle.locus_ids.specs.declared.ids.Stamp.{Stamp};
ghost use Rattle.page_cache.specs.declared.part.Part.{Part};
ghost use Rattle.page_cache.specs.Cached.{CachedPages};
ghost use Rattle.page_cache.specs.Parts.{held_part, looked_up, with_part};
ghost use Rattle.tree_laws.specs.Caches.Right.{AreRight, HasContent, bytes_of};

/// What is found of a part is what its version has there.
pub fn found_bytes_are_right()
    ensures { (contents : FileId → Stamp → Option (List ℕ)) (p : Part) (content bytes : List ℕ) (pages : CachedPages) → AreRight contents pages → HasContent contents p content → held_part p pages ≡ Some bytes → bytes ≡ bytes_of p content }
{}

/// The pages stay right when a part of any version is looked up, and when the bytes of one come.
pub fn pages_stay_right()
    ensures used { (contents : FileId → Stamp → Option (List ℕ)) (p : Part) (pages : CachedPages) → AreRight contents pages → AreRight contents (looked_up p pages) }
    ensures put { (contents : FileId → Stamp → Option (List ℕ)) (p : Part) (content : List ℕ) (pages : CachedPages) → AreRight contents pages → HasContent contents p content → AreRight contents (with_part p (bytes_of p content) pages) }
{}
