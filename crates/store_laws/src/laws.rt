//! The storage site's steps in the one tree: what a storage site has by the trace alone stays while others tell, and what each of its
//! functions tells comes as it may.
ghost use Rattle.std.specs.Prelude.{ℕ, ◌≡◌, ◌<◌, ◌≤◌, true, false, List, [], ◌∷◌, Some, length, Option};
ghost use Rattle.locus_ids.specs.declared.config.Config.{Config};
ghost use Rattle.locus_ids.specs.declared.ids.CallId.{CallId};
ghost use Rattle.locus_ids.specs.declared.ids.EpochId.{EpochId};
ghost use Rattle.locus_ids.specs.declared.ids.FileId.{FileId};
ghost use Rattle.locus_ids.specs.declared.ids.Kind.{Kind};
ghost use Rattle.locus_ids.specs.declared.sites.Sites.{Sites};
ghost use Rattle.locus_ids.specs.declared.ids.Mode.{Mode};
ghost use Rattle.locus_ids.specs.declared.ids.Serial.{Serial};
ghost use Rattle.locus_ids.specs.declared.ids.Stamp.{Stamp};
ghost use Rattle.locus_ids.specs.Sizes.{inode_span, sites_max};
ghost use Rattle.trace_book.specs.declared.operation.What.{What};
ghost use Rattle.trace_book.specs.declared.operation.Op.{Op};
ghost use Rattle.trace_book.specs.declared.operation.Op.TheVariants as op;
ghost use Rattle.role_steps.specs.OperationEffects.{Mending};
ghost use Rattle.role_steps.specs.Operations.{on_op};
ghost use Rattle.role_steps.specs.Storage.{commit_record, content_of, copy_of, free_pages, instance_of, is_used, next_stamp, next_vector, on_close, on_closed_ok, on_look_ss, on_open_ss, on_pull, on_want, delta_of, pages_since, steps_of, with_version, with_commit};
ghost use Rattle.role_steps.specs.Adoption.{adopt_record, copy_adopted, fits_own};
ghost use Rattle.role_steps.specs.Own.{Every};
ghost use Rattle.role_steps.specs.Pulling.{is_complete, on_delta, on_notify, on_page, wanted_pages};
ghost use Rattle.wire_messages.specs.declared.body.Body.TheVariants as body;
ghost use Rattle.role_steps.specs.declared.instances.Instance.{Instance};
ghost use Rattle.role_steps.specs.declared.pulls.Pull.{Pull};
ghost use Rattle.commit_graph.specs.Grants.{is_read};
ghost use Rattle.tree_model.specs.declared.instance.Instance.{Instance as Open};
ghost use Rattle.tree_laws.specs.Stores.{CopiesAreHeld, InstanceFact, PullFact, WorksAs};
ghost use Rattle.role_steps.specs.Views.{Frame, Store, Told, Shown, to_sync};
ghost use Rattle.the_run.specs.Kept.{Among};
ghost use Rattle.the_run.specs.Worlds.{Line};
ghost use Rattle.role_steps.specs.declared.copies.FileCopy.{FileCopy};
ghost use Rattle.tree_laws.specs.Deltas.{AnswerFact, DeltaFact, DifferIn, WantFact};
ghost use Rattle.store_laws.specs.Pulling.{AdoptsFile, NewAreNotBelow};
ghost use Rattle.tree_laws.specs.Doing.{FrameFact, IsAdopted, IsOfStore, PullsFact, PullsFine, StoreFine, StoreHeld};
ghost use Rattle.tree_laws.specs.Following.{IsFollowed, MayTell};
ghost use Rattle.tree_laws.specs.Frames.{AllStay};
ghost use Rattle.wire_messages.specs.declared.body.Opening.TheVariants as how;
ghost use Rattle.tree_model.specs.Files.{kind_made, words_named};
ghost use Rattle.tree_model.specs.Opening.{is_given_by, sites_made};
ghost use Rattle.tree_model.specs.Packs.{packs_of};
ghost use Rattle.tree_model.specs.Histories.{history};
ghost use Rattle.tree_model.specs.Tree.{tree_of};
ghost use Rattle.tree_model.specs.Working.{free_pages as tree_free};
ghost use Rattle.call_rules.specs.declared.want.Want.TheVariants as want;
ghost use Rattle.lawful_trace.specs.TreeRows.{IsCallIn};
ghost use Rattle.tree_laws.specs.Calls.{Asks};
ghost use Rattle.commit_graph.specs.Versions.{content_of as content_in};
ghost use Rattle.file_content.specs.Pages.{pages_of};
ghost use Rattle.tree_laws.specs.Printed.{entries};
ghost use Rattle.tree_laws.specs.Instances.{AsksOpen, IsUsed, Stands};
ghost use Rattle.tree_laws.specs.Past.{WasReleased, WasShut};
ghost use Rattle.tree_laws.specs.Packets.{CloseFact, NotifyFact, OpFact, OpenSsFact, PacketFact, PageFact, ServeFact};
ghost use Rattle.tree_laws.specs.Orders.Joining.{PacksAreOfSites};
ghost use Rattle.store_laws.specs.Rests.{AdoptRests, AllStays, MayWrite, MendsAs, OpRests, StoreRests, UnspentTold};

/// What a storage site has by the trace stays when a line is told that isn't of its storage, neither of its instances nor an adoption: its disk holds what the site holds
/// by the trace, and each instance that it has is the one tree's.
pub fn store_facts_stay()
    ensures { (c : Config) (older : List Line) (n : ℕ) (x : Told) → PacksAreOfSites c → IsFollowed c older → MayTell c older x → AllStay c older (record { number = n; told = x } ∷ older) x →
        (f : Frame) (s : Store) → (IsOfStore older f.me f.epoch x → ⊥) → (IsAdopted f.me x → ⊥) → StoreHeld c f older s → StoreHeld c f (record { number = n; told = x } ∷ older) s }
{}

/// What a storage site answers a look, a pull or a want is so by the trace: the content of the version that was to be served, or that it
/// has moved on; a page of the version that was asked; and, by what it remembers, the pages in which that one differs from another.
pub fn copies_are_served()
    ensures looks { (c : Config) (n : ℕ) (trace : List Line) → IsFollowed c trace → StoreRests c trace → (f : Frame) → FrameFact c trace f → (s : Store) → StoreHeld c f trace s →
        (us call process request times : ℕ) (file : FileId) (w : What) (serve : Stamp) → ServeFact trace f.epoch us call process request times file w serve →
        StoreFine c n trace f s (on_look_ss f us (record { call = call; process = process; request = request; take = times; file = file; what = w }) serve s) }
    ensures pages { (c : Config) (n : ℕ) (trace : List Line) → IsFollowed c trace → StoreRests c trace → (f : Frame) → FrameFact c trace f → (s : Store) → StoreHeld c f trace s →
        (from : ℕ) (file : FileId) (stamp : Stamp) (page : ℕ) → Stands c trace file stamp → StoreFine c n trace f s (on_pull f from file stamp page s) }
    ensures deltas { (c : Config) (n : ℕ) (trace : List Line) → (f : Frame) (s : Store) → StoreHeld c f trace s →
        (from : ℕ) (file : FileId) (wanted own : Stamp) → WantFact c trace f.epoch from file wanted own → StoreFine c n trace f s (on_want f from file wanted own s) }
    ensures differ { (c : Config) (trace : List Line) → StoreRests c trace → (f : Frame) (s : Store) → StoreHeld c f trace s → (file : FileId) (wanted own : Stamp) → Stands c trace file wanted → Stands c trace file own →
        DifferIn c trace file own wanted (delta_of (pages_of (length (content_in (history c (entries trace)) file wanted))) (pages_since own wanted (steps_of file s.steps))) }
{}

/// What a call asks to be made is for the sites and of the kind that the words of the call say.
pub fn makes_are_as_said()
    ensures { (c : Config) (trace : List Line) (e : EpochId) (d : CallId) (request serial : ℕ) (f : FileId) (set : Sites) (k : Kind) → AsksOpen c trace e d request serial f (how.Make set k) →
        (set ≡ sites_made (packs_of c f.group) (words_named (entries trace) (Some d))) × (k ≡ kind_made (words_named (entries trace) (Some d))) }
{}

/// A number that a site may give to a new file is used by the trace exactly where its store has it in use, for a file that it has
/// or for an open make.
pub fn numbers_in_use_are_used()
    ensures used { (c : Config) (trace : List Line) → IsFollowed c trace → StoreRests c trace → (f : Frame) → FrameFact c trace f → (s : Store) → StoreHeld c f trace s → (group ino : ℕ) → ino < inode_span →
        is_used s group ino ≡ true → IsUsed c trace f.epoch f.me (record { group = group; ino = ino }) }
    ensures in_use { (c : Config) (trace : List Line) → IsFollowed c trace → StoreRests c trace → (f : Frame) → FrameFact c trace f → (s : Store) → StoreHeld c f trace s → (group ino : ℕ) → ino < inode_span → is_given_by f.me ino ≡ true →
        IsUsed c trace f.epoch f.me (record { group = group; ino = ino }) → is_used s group ino ≡ true }
{}

/// An open at its storage site comes as it may: the instance is begun as it was granted, or as a make on a number that is free, and
/// the answer is so; a make that finds no number is told so, and a repeated request is answered again.
pub fn opens_are_begun()
    ensures { (c : Config) (n : ℕ) (trace : List Line) → PacksAreOfSites c → IsFollowed c trace → StoreRests c trace → (f : Frame) → FrameFact c trace f → (s : Store) → StoreHeld c f trace s →
        (inst : Serial) (file : FileId) (m : Mode) (set : Sites) (kind : Kind) (base : Stamp) (vector : List ℕ) (parents : List Stamp) → OpenSsFact c trace f.epoch f.me inst file m set kind base vector parents →
        AllStays c n trace (on_open_ss f (record { inst = inst; file = file; mode = m; set = set; kind = kind; base = base; vector = vector; parents = parents }) s).told →
        StoreFine c n trace f s (on_open_ss f (record { inst = inst; file = file; mode = m; set = set; kind = kind; base = base; vector = vector; parents = parents }) s) }
{}

/// Once its instance is released a storage site ends it, and answers its call; what comes again changes nothing.
pub fn released_instances_end()
    ensures { (c : Config) (n : ℕ) (trace : List Line) → StoreRests c trace → (f : Frame) (s : Store) → StoreHeld c f trace s → (inst : Serial) → inst.us ≤ sites_max → WasReleased trace f.epoch inst → StoreFine c n trace f s (on_closed_ok f inst s) }
{}

/// What a running instance owes is committed as it may be, of the only instance that writes the file, and the copy on the disk is then
/// what the site holds.
pub fn commits_are_owed()
    ensures may { (c : Config) (n : ℕ) (trace : List Line) → PacksAreOfSites c → IsFollowed c trace → StoreRests c trace → (f : Frame) → FrameFact c trace f → (s : Store) → StoreHeld c f trace s → (i : Instance) → InstanceFact c trace f i →
        (x : Open) → WorksAs c trace f i x → (WasShut trace f.me f.epoch i.inst → ⊥) → i.work.owes ≡ true → is_read i.mode ≡ false → MayTell c trace (Shown (commit_record f i (next_stamp f (next_vector f i)))) }
    ensures held { (c : Config) (n : ℕ) (trace : List Line) → PacksAreOfSites c → IsFollowed c trace → StoreRests c trace → (f : Frame) → FrameFact c trace f → (s : Store) → StoreHeld c f trace s → (i : Instance) → InstanceFact c trace f i →
        (x : Open) → WorksAs c trace f i x → (WasShut trace f.me f.epoch i.inst → ⊥) → i.work.owes ≡ true → is_read i.mode ≡ false →
        AllStay c trace (record { number = n; told = Shown (commit_record f i (next_stamp f (next_vector f i))) } ∷ trace) (Shown (commit_record f i (next_stamp f (next_vector f i)))) →
        CopiesAreHeld c (record { number = n; told = Shown (commit_record f i (next_stamp f (next_vector f i))) } ∷ trace) f.me (with_commit i (next_vector f i) (next_stamp f (next_vector f i)) s) }
{}

/// A close at its storage site comes as it may: what the instance owes is committed first, as a version that follows what it must;
/// then the instance is shut, and what it made and its answer are so. What comes again is answered again.
pub fn closes_come_as_they_may()
    ensures { (c : Config) (n : ℕ) (trace : List Line) → PacksAreOfSites c → IsFollowed c trace → StoreRests c trace → (f : Frame) → FrameFact c trace f → (s : Store) → StoreHeld c f trace s →
        ((i : Instance) → Among i s.instances → MayWrite f i) → (inst : Serial) → inst.us ≤ sites_max → CloseFact c trace f.epoch f.me inst → AllStays c n trace (on_close f inst s).told → StoreFine c n trace f s (on_close f inst s) }
{}

/// What a site pulls stays what it was while lines are told: a known version, of a file of which one version is kept, over the version
/// that the site has, whose pages came in the order in which they are wanted; so do notices, pages and deltas leave it, and what is asked
/// or answered is so.
pub fn pulls_are_of_known_versions()
    ensures stay { (c : Config) (older : List Line) (n : ℕ) (x : Told) → IsFollowed c older → MayTell c older x → AllStay c older (record { number = n; told = x } ∷ older) x → NewAreNotBelow c older (record { number = n; told = x } ∷ older) x →
        (f : Frame) (ps : List Pull) → Every (λ (p : Pull). AdoptsFile f.me p.file x → ⊥) ps → PullsFact c f older ps → PullsFact c f (record { number = n; told = x } ∷ older) ps }
    ensures notices { (c : Config) (n : ℕ) (trace : List Line) → IsFollowed c trace → StoreRests c trace → (f : Frame) → FrameFact c trace f → (s : Store) → CopiesAreHeld c trace f.me s → (ps : List Pull) → PullsFact c f trace ps →
        (from : ℕ) (file : FileId) (k : Kind) (set : Sites) (size : ℕ) (stamp : Stamp) (vector : List ℕ) (holder : ℕ) → NotifyFact c trace f.epoch f.me file k set size stamp vector holder →
        PullsFine c n trace f (on_notify f from (copy_of s file) (record { file = file; kind = k; set = set; size = size; stamp = stamp; vector = vector; holder = holder; base = None; wanted = None; content = [] }) ps) }
    ensures pages { (c : Config) (n : ℕ) (trace : List Line) → IsFollowed c trace → StoreRests c trace → (f : Frame) → FrameFact c trace f → (ps : List Pull) → PullsFact c f trace ps → (file : FileId) (stamp : Stamp) (page : ℕ) (bytes : List ℕ) → PageFact c trace file stamp page bytes →
        PullsFine c n trace f (on_page f file stamp page bytes ps) }
    ensures deltas { (c : Config) (n : ℕ) (trace : List Line) → IsFollowed c trace → StoreRests c trace → (f : Frame) → FrameFact c trace f → (ps : List Pull) → PullsFact c f trace ps → (own : Option FileCopy) (file : FileId) (stamp : Stamp) (pages : List ℕ) →
        AnswerFact c trace f.epoch f.me file stamp → DeltaFact c trace f.me ps file stamp pages → PullsFine c n trace f (on_delta f own file stamp pages ps) }
{}

/// An operation at its storage site comes as it may: the next one in order gives what it gives in the one tree, as long as the room
/// on the disk is the tree's, and no mend is refused for a count that is at its end; a commit is told with the version that it makes;
/// the last one is answered again, and all others are ignored.
pub fn operations_come_as_they_may()
    ensures { (c : Config) (n : ℕ) (trace : List Line) → PacksAreOfSites c → IsFollowed c trace → StoreRests c trace → OpRests c trace → (f : Frame) → FrameFact c trace f → (s : Store) → StoreHeld c f trace s →
        ((group : ℕ) → free_pages s group ≡ tree_free (history c (entries trace)) (tree_of c f.epoch group (entries trace)) f.me) → ((i : Instance) → Among i s.instances → MayWrite f i) →
        (m : Mending) (inst : Serial) → inst.us ≤ sites_max → (number : ℕ) (o : Op) (seen : List ℕ) → OpFact c trace f.epoch f.me inst number o seen →
        ((i : Instance) → instance_of s inst ≡ Some i → o ≡ op.Mend → (d : CallId) → IsCallIn (entries trace) f.epoch d → Asks c trace d (want.Do inst op.Mend) → MendsAs c trace f i.file m) →
        Every UnspentTold (on_op f m inst number o seen s).told → AllStays c n trace (on_op f m inst number o seen s).told → StoreFine c n trace f s (on_op f m inst number o seen s) }
{}

/// An adoption comes as it may, of a pull that has all its pages and stands above the site's own copy: the copy on the disk is then
/// what the site holds, and the synchronization site is told so.
pub fn adoptions_come_as_they_may()
    ensures may { (c : Config) (n : ℕ) (trace : List Line) → PacksAreOfSites c → IsFollowed c trace → StoreRests c trace → (f : Frame) → FrameFact c trace f → (s : Store) → StoreHeld c f trace s →
        (p : Pull) → PullFact c trace f.epoch f.me p → is_complete p ≡ true → AdoptRests c trace f p → fits_own p (copy_of s p.file) ≡ true → MayTell c trace (Shown (adopt_record f p)) }
    ensures held { (c : Config) (n : ℕ) (trace : List Line) → PacksAreOfSites c → IsFollowed c trace → StoreRests c trace → (f : Frame) → FrameFact c trace f → (s : Store) → StoreHeld c f trace s →
        (p : Pull) → PullFact c trace f.epoch f.me p → is_complete p ≡ true → AdoptRests c trace f p → fits_own p (copy_of s p.file) ≡ true →
        AllStay c trace (record { number = n; told = Shown (adopt_record f p) } ∷ trace) (Shown (adopt_record f p)) → StoreHeld c f (record { number = n; told = Shown (adopt_record f p) } ∷ trace) (with_version (copy_adopted p (content_of (copy_of s p.file))) (wanted_pages p) s) }
    ensures sent { (c : Config) (n : ℕ) (trace : List Line) → PacksAreOfSites c → IsFollowed c trace → StoreRests c trace → (f : Frame) → FrameFact c trace f → (s : Store) → StoreHeld c f trace s →
        (p : Pull) → PullFact c trace f.epoch f.me p → is_complete p ≡ true → AdoptRests c trace f p → fits_own p (copy_of s p.file) ≡ true → Every (PacketFact c (record { number = n; told = Shown (adopt_record f p) } ∷ trace)) (to_sync f p.file.group (body.Have p.file p.stamp)) }
{}
