//! The printed trace, and its history.
ghost use Rattle.locus_ids.specs.declared.config.Config.{Config};
ghost use Rattle.the_run.specs.Worlds.{World};
ghost use Rattle.headline_laws.specs.Promises.OneHistory.{HistoryIsOne};
ghost use Rattle.headline_laws.specs.Promises.OneTrace.{TraceIsOne};

/// Whatever is printed of a world is of one trace, of which all other laws speak: its records in the order in which they are printed, its
/// text, and so its replies and its counts, for all three commands.
pub fn the_printed_trace_is_one()
    ensures { (w : World) → TraceIsOne w }
{}

/// Versions are of the one history of that trace, whichever laws speak of them: those of written vectors, which know the commits of a file,
/// or those of epochs, which know all versions.
pub fn the_history_is_one()
    ensures { (c : Config) (w : World) → HistoryIsOne c w }
{}
