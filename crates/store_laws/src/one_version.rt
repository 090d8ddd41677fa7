//! Laws of the one tree about files that are made and files of which one version is kept; and from them that the order of versions stays
//! whatever is told.
ghost use Rattle.std.specs.Prelude.{ℕ, ◌≡◌, ◌⊎◌, true, List, ◌∷◌, Some};
ghost use Rattle.locus_ids.specs.declared.config.Config.{Config};
ghost use Rattle.locus_ids.specs.declared.ids.EpochId.{EpochId};
ghost use Rattle.locus_ids.specs.declared.ids.FileId.{FileId};
ghost use Rattle.locus_ids.specs.declared.ids.Mode.TheVariants as mode;
ghost use Rattle.locus_ids.specs.declared.ids.Serial.{Serial};
ghost use Rattle.locus_ids.specs.declared.ids.Stamp.{Stamp};
ghost use Rattle.site_laws.specs.of_role_steps.Views.{Told};
ghost use Rattle.tree_laws.specs.of_the_run.Worlds.{Line};
ghost use Rattle.tree_model.specs.declared.instance.Instance.{Instance};
ghost use Rattle.tree_model.specs.Epochs.{epoch_of};
ghost use Rattle.tree_model.specs.Files.{first_call};
ghost use Rattle.tree_model.specs.Histories.{held};
ghost use Rattle.tree_model.specs.Opening.{is_given_by};
ghost use Rattle.tree_laws.specs.Following.{IsFollowed, MayTell};
ghost use Rattle.tree_laws.specs.Frames.{OrderStays};
ghost use Rattle.tree_laws.specs.Packets.{PacketFact};
ghost use Rattle.wire_messages.specs.declared.packet.Packet.{Packet};
ghost use Rattle.tree_laws.specs.Instances.{Stands, instance_now};
ghost use Rattle.tree_laws.specs.Past.{WasBegun, WasNamed};
ghost use Rattle.tree_laws.specs.Printed.{entries};
ghost use Rattle.store_laws.specs.Holdings.Below.{LawsBelow};
ghost use Rattle.store_laws.specs.Holdings.OneVersionNumbers.{IsFreeNumber};
ghost use Rattle.tree_laws.specs.Orders.Joining.{PacksAreOfSites};

/// Until the open of a make is granted or refused, the number under which its storage site has begun it is free: it is one of the
/// site's, which has no version of the file in the epoch, none is known there, and no instance was granted on it.
pub fn numbers_of_makes_are_free()
    ensures { (c : Config) (trace : List Line) → IsFollowed c trace → PacksAreOfSites c → (ss : ℕ) (e : EpochId) (i : Serial) (f : FileId) → WasBegun trace ss e i f → (WasNamed trace e i → ⊥) → IsFreeNumber c trace e ss f }
{}

/// Once a file has a version, the site whose number it has holds one: there it was made.
pub fn homes_hold_their_files()
    ensures { (c : Config) (trace : List Line) → IsFollowed c trace → (f : FileId) (stamp : Stamp) (home : ℕ) → is_given_by home f.ino ≡ true → Stands c trace f stamp → (now : Stamp) × (held c (entries trace) home f ≡ Some now) }
{}

/// The order of versions stays, whatever is told that may be told: what a site has only rises, what it reports it has until the
/// group starts, what is kept at a grant is kept until the instance is begun, and where one version of a file is kept one is.
pub fn the_order_of_versions_stays()
    ensures order { (c : Config) (x : Line) (older : List Line) → IsFollowed c (x ∷ older) → LawsBelow c (x ∷ older) → OrderStays c older (x ∷ older) }
    ensures packets { (c : Config) (number : ℕ) (x : Told) (older : List Line) → IsFollowed c older → MayTell c older x → LawsBelow c (record { number = number; told = x } ∷ older) →
        (p : Packet) → PacketFact c older p → PacketFact c (record { number = number; told = x } ∷ older) p }
{}

/// While the storage site of an open make is in the epoch, the file has no version, or the call that makes it was the first to commit
/// it.
pub fn makes_commit_their_files_first()
    ensures { (c : Config) (trace : List Line) (e : EpochId) (i : Serial) (x : Instance) → IsFollowed c trace → PacksAreOfSites c → instance_now c trace e i ≡ Some x → x.grant.mode ≡ mode.Make → epoch_of (entries trace) x.grant.ss ≡ Some e →
        ((stamp : Stamp) → Stands c trace x.grant.file stamp → ⊥) ⊎ (first_call c (entries trace) x.grant.file ≡ Some x.grant.call) }
{}
