// What a format and a boot leave is what the run has.
ghost use Rattle.std.specs.Prelude.{◌≡◌, ◌+◌, ◌-◌, ◌*◌, ◌<◌, ◌≤◌, Some, ℕ, List, [], if◌then◌else◌, length};
ghost use Rattle.locus_ids.specs.declared.config.Config.{Config};
ghost use Rattle.site_packs.specs.Mounting.{new_copies};
ghost use Rattle.site_label.specs.Label.{HasBoot};
ghost use Rattle.the_run.specs.Worlds.{formatted};
ghost use Rattle.the_run.specs.Disks.{Disk, Armed, Cut, Whole, CutOff, one_label, new_gate, old_gate, cut_disk, boot_writes, boots, boots_freely};
ghost use Rattle.gate_switch.specs.Gates.{new_gate as new_gate_left, old_gate as old_gate_left};
ghost use Rattle.role_steps.specs.Storage.{copy_of};
ghost use Rattle.role_steps.specs.Views.{Store, DiskWrite};
ghost use Rattle.site_packs.specs.Copies.{copies_on};
ghost use Rattle.site_packs.specs.Committing.{blocks_over};
ghost use Rattle.site_packs.specs.Cutting.{IsCut};
ghost use Rattle.site_packs.specs.Packs.{PacksState, groups_of};
ghost use Rattle.site_disk.specs.Image.{label_on, one_half};
ghost use Rattle.site_disk.specs.Run.{as_cut, cut_boot, disk_on};
ghost use Rattle.site_label.specs.Image.{label_number};

/// The packs of a new disk have the copies that the site has in the first world.
pub fn format_is_the_runs()
    ensures { (c : Config) (site : ℕ) → new_copies c site ≡ formatted c site }
{}

/// A boot that no crash cuts off has in the run what it leaves here: the same copies, no file of which both gates are open, and
/// the raised number in one half of the label. It makes as many calls.
pub fn boot_is_the_runs()
    ensures disk { (d : Disk) → boots_freely (boot_writes d) d ≡ record { copies = d.copies; both_open = []; label = one_label (d.label.boot + 1) } }
    ensures calls { (d : Disk) → 2 * length (boot_writes d) ≡ (if d.label.both_open then 8 else 6) + 2 * length d.both_open }
{}

/// A boot that is cut off has in the run left what `SiteDisk::boot` tells of it, where its image was the disk of the run.
pub fn cut_boot_is_the_runs()
    ensures { (d : Disk) (a : Armed) → a.left < 2 * length (boot_writes d) → boots (Some a) d ≡ CutOff (cut_boot a d) a.how }
{}

/// The number that a label has is the one that is read there, also where both halves are open.
pub fn label_says()
    ensures { (site boot : ℕ) (image : List ℕ) → HasBoot site boot image → label_number image ≡ boot }
{}

/// An armed boot whose calls all pass leaves what a free one leaves, and as many calls fewer still pass.
pub fn whole_boot_is_the_runs()
    ensures { (d : Disk) (a : Armed) → 2 * length (boot_writes d) ≤ a.left → boots (Some a) d ≡ Whole (boots_freely (boot_writes d) d) (Some (record a { left = a.left - 2 * length (boot_writes d) })) }
{}

/// The gates that a switch leaves open where it is cut off are those that the run has open.
pub fn cut_gates_are_the_runs()
    ensures newer { (pages : ℕ) (how : Cut) (passed : ℕ) → new_gate pages how passed ≡ new_gate_left pages (as_cut how) passed }
    ensures older { (pages : ℕ) (how : Cut) (passed : ℕ) → old_gate pages how passed ≡ old_gate_left pages (as_cut how) passed }
{}

/// A commit or an adoption that is cut off leaves the disk that it leaves in the run, where the store before had the copies of
/// the image before, and one half of the label is open after it.
pub fn cut_commit_is_the_runs()
    ensures { (p : PacksState) (boot : ℕ) (before : Store) (w : DiskWrite) (how : Cut) (passed : ℕ) (image after : List ℕ) → IsCut p w.copy (blocks_over (copy_of before w.copy.file) w.copy.content w.pages) (as_cut how) passed image after → copies_on (groups_of p) image ≡ before.copies → label_on after ≡ one_half boot → disk_on (groups_of p) after ≡ cut_disk boot before w how passed }
{}
