ghost use Rattle.locus_ids.specs.declared.config.Config.{Config};
ghost use Rattle.wire_messages.specs.declared.body.Body.{Body};
ghost use Rattle.wire_messages.specs.Bodies.{FitsBody};
ghost use Rattle.run_laws.specs.Epochs.Forming.{FormsNone};
ghost use Rattle.packet_order.specs.Counts.{IsCounted};
ghost use Rattle.packet_laws.specs.Values.Bodies.{FitsBut};
ghost use Rattle.packet_laws.specs.Values.Values.{ScriptsFit, ShownFit};

/// A body by which sites agree on no epoch is of the format where all that it says but its counts is, and each count has a number of its
/// size.
pub fn bodies_fit_with_their_counts()
    ensures { (b : Body) → FormsNone b → FitsBut b → IsCounted b → FitsBody b }
{}

/// Whatever a call wants is of the format, where its words are those of a line that is in range for the cluster, or a mend of a file, and
/// what it was answered is of the format: the inodes, the names and components, the place and the length of what is read and written.
pub fn calls_want_what_fits()
    ensures { (c : Config) → ScriptsFit c }
{}

/// Each name that a directory shows is a component of the format: its entry's name, or that with the number of its inode.
pub fn shown_names_are_components()
    ensures { ShownFit }
{}
