//! Which records of a trace that anybody wrote are consistent with those before them. A record's text leaves two things unsaid, and the
//! scripts of the calls say them. Definitions alone; this room has no running part.
#![tactic(auto)]
