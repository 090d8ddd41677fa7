//! No event of a run is refused as unfit: in every run, after every schedule and in the midst of every line, each event finds what it
//! needs of disks, tables, numbers and packets. Theorems alone; this room has no running part.
#![tactic(auto)]

mod fit_call;
mod laws;
mod moment;

pub use fit_call::{
    every_run_names_files, mends_agree_on_kinds, mends_join_what_fits, no_adoption_is_unfit,
    no_call_is_unfit, nothing_asked_is_unfit,
};
pub use laws::every_line_can_be_done;
pub use moment::events_come_as_they_may;
