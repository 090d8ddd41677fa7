//! Adoption in the one tree: a site takes what it has pulled whole and may take, as it may, and has then what it has by the trace.
ghost use Rattle.std.specs.Prelude.{ℕ, ◌≡◌, List, Some};
ghost use Rattle.locus_ids.specs.declared.config.Config.{Config};
ghost use Rattle.locus_ids.specs.declared.ids.EpochId.{EpochId};
ghost use Rattle.locus_ids.specs.declared.ids.Mode.TheVariants as mode;
ghost use Rattle.locus_ids.specs.declared.ids.Serial.{Serial};
ghost use Rattle.role_steps.specs.Adoption.{adopts};
ghost use Rattle.role_steps.specs.Views.{Frame, SiteView};
ghost use Rattle.the_run.specs.Worlds.{Line};
ghost use Rattle.tree_model.specs.declared.instance.Instance.{Instance};
ghost use Rattle.tree_model.specs.Epochs.{epoch_of};
ghost use Rattle.tree_laws.specs.Following.{IsFollowed};
ghost use Rattle.tree_laws.specs.Instances.{instance_now};
ghost use Rattle.tree_laws.specs.Printed.{entries};
ghost use Rattle.tree_laws.specs.Doing.{Fine, IsAdopted, WriteFact};
ghost use Rattle.store_laws.specs.OneTree.Places.{InsideFact};
ghost use Rattle.store_laws.specs.OneTree.Rest.{AllRest};
ghost use Rattle.store_laws.specs.OneTree.Roles.{Ready};
ghost use Rattle.rest_laws.specs.AdoptionMending.{MendWaits};

/// While the instance of a mend is open and its storage site is in the epoch, the call that mends waits at that site: a mend gives its
/// reply only once it has closed what it opened. So a site sees by its own calls alone where a mend of a file is under way.
pub fn mends_wait_while_they_have_their_file_open()
    ensures { (c : Config) (trace : List Line) → IsFollowed c trace → (e : EpochId) (i : Serial) (x : Instance) → instance_now c trace e i ≡ Some x → x.grant.mode ≡ mode.Mend → epoch_of (entries trace) x.grant.ss ≡ Some e → MendWaits trace x }
{}

/// A site in its epoch adopts the first version that it has pulled whole, for which it has room and of which nobody has the file open
/// here, where it stands above what the site has: it comes as it may, what is written may be told first, the site's own table notes it,
/// the synchronization site is told, and all else that the site has stays so. Pulls that are no longer above what the site has are
/// dropped.
pub fn adoptions_are_taken_as_they_may()
    ensures { (c : Config) (n : ℕ) (trace : List Line) (f : Frame) (v : SiteView) → Ready c trace f → InsideFact c f trace v → AllRest c n trace (adopts f v).told →
        Fine SiteView c n trace (IsAdopted f.me) (InsideFact c f) (WriteFact c n trace f.me v.store) (adopts f v) }
{}
