ghost use Rattle.std.specs.Prelude.{List};
ghost use Rattle.locus_ids.specs.declared.config.Config.{Config};
ghost use Rattle.schedule_lines.specs.declared.line.ScheduleLine.{ScheduleLine};
ghost use Rattle.the_run.specs.Runs.{run_in};
ghost use Rattle.run_laws.specs.Boots.{BootsAreLow, NextBootsAreLow};
ghost use Rattle.packet_laws.specs.Fitting.Epochs.{EpochsAreLow, NextEpochsAreLow};
ghost use Rattle.packet_laws.specs.Fitting.Fields.{PacketsFitInPart, NextPacketsFit};
ghost use Rattle.packet_laws.specs.Fitting.Counts.{CountsAreLow};

/// After every schedule no site's boot number is above 134,217,729: each boot prints a record, and the text has room for so
/// many. Nor is it above 134,217,730 on the disk of a site whose next boot is whole or cut off. So the greatest boot number,
/// of 32 bits, is never reached.
pub fn boots_stay_low()
    ensures { (c : Config) (lines : List ScheduleLine) → BootsAreLow (run_in c lines) × NextBootsAreLow (run_in c lines) }
{}

/// After every schedule no packet names an epoch with a number above 134,479,872, and no running site has promised one: each
/// new number costs a packet or a record, of which there is room for so many. Nor does the next event of a running site name
/// one above 134,479,873. So the greatest number of an epoch, of 32 bits, is never reached; and each packet names an epoch
/// whose number isn't 0.
pub fn epoch_numbers_stay_low()
    ensures { (c : Config) (lines : List ScheduleLine) → EpochsAreLow (run_in c lines) × NextEpochsAreLow c (run_in c lines) }
{}

/// After every schedule each packet that was sent says in the format who sends it, in which boot and in which epoch. One that
/// goes to the synchronization site of a group, or back to whom another one came from, goes to a site and a boot of the format.
/// And each poll, promise, refusal, install and answer to one is whole of the format, and so is each answer to a report. It is the
/// same with the packets of the next event of a running site.
pub fn packets_fit_in_part()
    ensures { (c : Config) (lines : List ScheduleLine) → PacketsFitInPart (run_in c lines) × NextPacketsFit c (run_in c lines) }
{}

/// After every schedule no running site has accepted more than 134,479,872 calls since its boot, nor given more serial numbers:
/// each call that it accepts prints a record, and each serial number that it gives goes out in a packet. So neither count, of
/// 32 bits, comes to its end.
pub fn counts_stay_low()
    ensures { (c : Config) (lines : List ScheduleLine) → CountsAreLow (run_in c lines) }
{}
