//! Laws of the one tree about what sites hold: which version a site has of a file in an epoch, that it only rises, and how open
//! instances stand on it.
ghost use Rattle.std.specs.Prelude.{ℕ, ◌≡◌, ◌⊎◌, List, ◌∷◌, Option, Some};
ghost use Rattle.locus_ids.specs.declared.config.Config.{Config};
ghost use Rattle.locus_ids.specs.declared.ids.CallId.{CallId};
ghost use Rattle.locus_ids.specs.declared.ids.EpochId.{EpochId};
ghost use Rattle.locus_ids.specs.declared.ids.FileId.{FileId};
ghost use Rattle.locus_ids.specs.declared.ids.Mode.{Mode};
ghost use Rattle.locus_ids.specs.declared.ids.Serial.{Serial};
ghost use Rattle.locus_ids.specs.declared.ids.Stamp.{Stamp};
ghost use Rattle.locus_ids.specs.declared.sites.Members.{Members};
ghost use Rattle.trace_book.specs.declared.record.Record.TheVariants as says;
ghost use Rattle.site_laws.specs.of_role_steps.Views.{Shown};
ghost use Rattle.tree_laws.specs.of_the_run.Worlds.{Line};
ghost use Rattle.tree_model.specs.declared.instance.Instance.{Instance};
ghost use Rattle.tree_model.specs.Histories.{history};
ghost use Rattle.tree_model.specs.State.{instance_in};
ghost use Rattle.tree_model.specs.Tree.{kept_in, tree_of};
ghost use Rattle.tree_laws.specs.Following.{IsFollowed, MayTell};
ghost use Rattle.tree_laws.specs.Frames.{IsFresh};
ghost use Rattle.tree_laws.specs.Instances.{HasAtLeast, IsKnown, IsStarted, held_in, instance_now};
ghost use Rattle.tree_laws.specs.Past.{WasBegun, WasGranted, WasReleased};
ghost use Rattle.tree_laws.specs.Printed.{entries};
ghost use Rattle.store_laws.specs.Holdings.Below.{LawsBelow};
ghost use Rattle.store_laws.specs.Holdings.Granted.{IsAsGranted};
ghost use Rattle.store_laws.specs.Holdings.Held.{IsBelowKept, IsKnownOrAhead, SitesHold, StandsOnHeld};
ghost use Rattle.store_laws.specs.Holdings.Order.{AncestorsAreAnOrder};

/// Where each told line comes as it may, ancestors are an order of the versions of a file: what is below a version that stands
/// stands, what is below it is below what is above it, and two versions that are below each other are one.
pub fn ancestors_are_an_order()
    ensures { (c : Config) (trace : List Line) → IsFollowed c trace → LawsBelow c trace → AncestorsAreAnOrder (history c (entries trace)) }
{}

/// What is committed has a stamp that its file has in no version so far.
pub fn commits_are_new()
    ensures { (c : Config) (x : Line) (older : List Line) → IsFollowed c (x ∷ older) → LawsBelow c (x ∷ older) → IsFresh c older x.told }
{}

/// While a site is in an epoch it has there what it has now; a site that has something in an epoch has joined it, and has a pack
/// of the group; and one that joins once the group has started brings nothing of the group's files.
pub fn sites_hold_what_they_have()
    ensures hold { (c : Config) (trace : List Line) → LawsBelow c trace → SitesHold c (entries trace) }
    ensures late { (c : Config) (number z : ℕ) (d : EpochId) (m : Members) (older : List Line) → IsFollowed c older → MayTell c older (Shown (says.Join z d m)) → LawsBelow c older →
        (e : EpochId) (site : ℕ) (f : FileId) → IsStarted c older e f.group → held_in c (entries (record { number = number; told = Shown (says.Join z d m) } ∷ older)) e site f ≡ held_in c (entries older) e site f }
{}

/// An open instance stands on what its storage site has of the file in the epoch: that is its last version, in whichever mode it is
/// open. It is the one under its name in its epoch, and what was released isn't open any more.
pub fn open_instances_stand_on_what_is_held()
    ensures stands { (c : Config) (trace : List Line) (e : EpochId) (i : Serial) (x : Instance) → IsFollowed c trace → instance_now c trace e i ≡ Some x → StandsOnHeld c (entries trace) e x }
    ensures over { (c : Config) (trace : List Line) (e : EpochId) (i : Serial) (x : Instance) → IsFollowed c trace → WasReleased trace e i → instance_now c trace e i ≡ Some x → ⊥ }
    ensures one { (c : Config) (trace : List Line) (e : EpochId) (group : ℕ) (i : Serial) (x : Instance) → IsFollowed c trace → instance_in (tree_of c e group (entries trace)) i ≡ Some x → instance_now c trace e i ≡ Some x }
{}

/// Each version that is known in an epoch is below one that is kept there: none is lost but for one above it.
pub fn known_versions_are_below_kept_ones()
    ensures { (c : Config) (trace : List Line) (e : EpochId) (f : FileId) (stamp : Stamp) → IsFollowed c trace → LawsBelow c trace → IsKnown c trace e f stamp → IsBelowKept c (entries trace) e f stamp }
{}

/// What a site has of a file in an epoch is known there, or a writer at the site is ahead: it has committed, and isn't released.
pub fn held_versions_are_known()
    ensures { (c : Config) (trace : List Line) (e : EpochId) (site : ℕ) (f : FileId) (stamp : Stamp) → IsFollowed c trace → LawsBelow c trace → held_in c (entries trace) e site f ≡ Some stamp → IsKnownOrAhead c trace e site f stamp }
{}

/// What a site has of a file in an epoch only rises: whatever is told, it has what it had, or a version above it.
pub fn what_a_site_has_rises()
    ensures { (c : Config) (x : Line) (older : List Line) → IsFollowed c (x ∷ older) → LawsBelow c (x ∷ older) → (e : EpochId) (site : ℕ) (f : FileId) (stamp : Stamp) → HasAtLeast c older e site f stamp → HasAtLeast c (x ∷ older) e site f stamp }
{}

/// What was granted is begun by its storage site, or waits for it as it was granted: open, with the work of its beginning, on the
/// version that the site has. And until it is begun what is kept of its file is what was kept at its grant, so these are the parents of
/// the first version that it commits when it merges.
pub fn grants_wait_as_they_were_granted()
    ensures waits { (c : Config) (trace : List Line) → IsFollowed c trace → LawsBelow c trace → (e : EpochId) (d : CallId) (request : ℕ) (i : Serial) (m : Mode) (f : FileId) (stamp : Option Stamp) (ss : ℕ) →
        WasGranted trace e d request i m f stamp ss → WasBegun trace ss e i f ⊎ IsAsGranted c trace e i m f stamp ss }
    ensures kept { (c : Config) (x : Line) (older : List Line) → IsFollowed c (x ∷ older) → LawsBelow c (x ∷ older) → (e : EpochId) (d : CallId) (request : ℕ) (i : Serial) (m : Mode) (f : FileId) (stamp : Option Stamp) (ss : ℕ) (parents : List Stamp) →
        WasGranted older e d request i m f stamp ss → parents ≡ kept_in c (entries older) e f → ((site : ℕ) × WasBegun (x ∷ older) site e i f) ⊎ (parents ≡ kept_in c (entries (x ∷ older)) e f) }
{}
