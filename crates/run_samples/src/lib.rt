//! Recorded schedules whose runs the checker computes, each to the whole text of what is printed: they show that the run's
//! definition isn't empty, and is what was recorded. Nothing stands on this room, so a new sample proves nothing else again. It has
//! no running part and states no law; it knows of the run only what its definition says.
