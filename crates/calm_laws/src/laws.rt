ghost use Rattle.locus_ids.specs.declared.config.Config.{Config};
ghost use Rattle.calm_laws.specs.Calming.{NobodyWaitsAtTheEnd};

/// Where all members of an epoch are together and no packet can come any more, no call of a member waits, mends included, if each
/// waiting call was carried: by a packet between members, or by the synchronization site that holds its request until all members with a
/// pack of the group have reported, whose reports are under way.
pub fn nobody_waits_where_nothing_comes()
    ensures { (c : Config) → NobodyWaitsAtTheEnd c }
{}
