//! Traces that these laws alone refuse.
ghost use Rattle.schedule_lines.specs.Cluster.{config_of};
ghost use Rattle.row_laws.specs.Shown.{EachRecord};
ghost use Rattle.trace_samples.specs.Wrong.{two_voids};
ghost use Rattle.headline_laws.specs.Prompting.Alone.{StandsAlone};
ghost use Rattle.headline_laws.specs.Prompting.Directly.{IsDirectRow};
ghost use Rattle.headline_laws.specs.Prompting.Due.{RepliesComeNext};
ghost use Rattle.headline_laws.specs.Prompting.Given.{IsGivenRow};
ghost use Rattle.headline_laws.specs.Prompting.Places.{StandsWhereItMay};
ghost use Rattle.headline_laws.specs.Prompting.Speaks.{SpeaksOfWhatIs};
ghost use Rattle.headline_laws.specs.Prompting.Stops.{HeedsItsDisk};
ghost use Rattle.headline_laws.specs.Prompting.Wrong.{changed_never_told, changed_out_of_order, changed_told_late, fault_not_heeded, joined_by_nobody, joined_late, made_told_as_opened, refusal_told_late};

/// No run tells one of these traces: each breaks the law that it is named with.
pub fn no_run_tells_these()
    ensures given { EachRecord (IsGivenRow (config_of made_told_as_opened.lines)) made_told_as_opened.trace → ⊥ }
    ensures alone { EachRecord StandsAlone two_voids.trace → ⊥ }
    ensures late { EachRecord (IsDirectRow (config_of changed_told_late.lines)) changed_told_late.trace → ⊥ }
    ensures never { RepliesComeNext (config_of changed_never_told.lines) changed_never_told.trace → ⊥ }
    ensures out_of_order { EachRecord (IsDirectRow (config_of changed_out_of_order.lines)) changed_out_of_order.trace → ⊥ }
    ensures refused_late { EachRecord (IsDirectRow (config_of refusal_told_late.lines)) refusal_told_late.trace → ⊥ }
    ensures nobody { EachRecord (SpeaksOfWhatIs (config_of joined_by_nobody.lines)) joined_by_nobody.trace → ⊥ }
    ensures placed { EachRecord (StandsWhereItMay joined_late.lines) joined_late.trace → ⊥ }
    ensures unheeded { EachRecord (HeedsItsDisk (config_of fault_not_heeded.lines) fault_not_heeded.lines) fault_not_heeded.trace → ⊥ }
{}
