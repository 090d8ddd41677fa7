ghost use Rattle.std.specs.Prelude.{◌≡◌, true, ◌↔◌, List, ◌≤◌, ◌-◌, ℕ, Some, Option};
ghost use Rattle.locus_ids.specs.declared.ids.Stamp.{Stamp};
ghost use Rattle.version_vector.specs.Counters.{AllLe, part};
ghost use Rattle.commit_graph.specs.Versions.{is_in, is_ancestor};
ghost use Rattle.commit_graph.specs.Vectors.{vector_of};
ghost use Rattle.conflict_flags.specs.declared.events.Event.{Event};
ghost use Rattle.conflict_flags.specs.declared.held.Held.{Held};
ghost use Rattle.conflict_flags.specs.Written.{NoneTwice, Numbered, ancestors_made_at};
ghost use Rattle.conflict_flags.specs.Table.{run, start, the_file, copy_of};

/// After every list of events no stamp stands twice, and of two versions one is an ancestor of the other exactly
/// where its written vector is at most the other's. The commits of one site are a chain, and the site's copy has them
/// all among its ancestors. A site's commits are numbered from 1, and a written vector counts ancestors by site. A
/// copy is of a version of the history, and has its written vector, counter by counter.
pub fn vectors_tell_ancestors()
    ensures once { (events : List Event) → NoneTwice (run events start).history }
    ensures tell { (events : List Event) (a b : Stamp) →
        is_in (run events start).history the_file a ≡ true → is_in (run events start).history the_file b ≡ true →
        (is_ancestor (run events start).history the_file a b ≡ true)
        ↔ AllLe (vector_of (run events start).history the_file a) (vector_of (run events start).history the_file b) }
    ensures numbered { (events : List Event) → Numbered (run events start).history }
    ensures counted { (events : List Event) (a : Stamp) (site : ℕ) →
        is_in (run events start).history the_file a ≡ true → 1 ≤ site →
        part (vector_of (run events start).history the_file a) (site - 1) ≡ ancestors_made_at (run events start).history the_file a site }
    ensures chain { (events : List Event) (a b : Stamp) →
        is_in (run events start).history the_file a ≡ true → is_in (run events start).history the_file b ≡ true →
        a.site ≡ b.site → a.n ≤ b.n → is_ancestor (run events start).history the_file a b ≡ true }
    ensures own { (events : List Event) (a : Stamp) (copy : Held) →
        is_in (run events start).history the_file a ≡ true → copy_of (run events start) a.site ≡ Some copy →
        is_ancestor (run events start).history the_file a copy.stamp ≡ true }
    ensures there { (events : List Event) (site : ℕ) (copy : Held) →
        copy_of (run events start) site ≡ Some copy → is_in (run events start).history the_file copy.stamp ≡ true }
    ensures held { (events : List Event) (site : ℕ) (copy : Held) →
        copy_of (run events start) site ≡ Some copy → (place : ℕ) → part copy.vector place ≡ part (vector_of (run events start).history the_file copy.stamp) place }
{}
