//! What the program promises of every trace, in the headline's own words: what the records so far tell, as one value, and a row for each
//! kind of record that says when it may follow. No room below this one has to be read for it. Definitions alone; this room has no running
//! part.
#![tactic(auto)]
