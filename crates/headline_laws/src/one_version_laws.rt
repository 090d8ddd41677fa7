ghost use Rattle.headline_laws.specs.OneVersion.Reading.{RunsReadOneVersion, TracesReadOneVersion};

/// In every trace whose lines come as they may, and whose replies are those that the scripts of their calls give: each read by a steady
/// descriptor that gives bytes gives those of the version with whose stamp the descriptor was opened, which is that of a commit record or of
/// the format, from its own place and of its own length, whatever epochs came between; and that the descriptor is stale is said exactly where
/// its file was opened again with another stamp, with the epoch that held it last. So it is of every run.
pub fn steady_readers_stay_with_one_version()
    ensures told { TracesReadOneVersion }
    ensures runs { RunsReadOneVersion }
{}
