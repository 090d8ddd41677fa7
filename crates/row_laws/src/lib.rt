//! Laws of every run about the rows of its trace: which record may come where, in any schedule and in an orderly one.
//! Theorems about the run alone; this room has no running part.
//!
//! Parts:
//! - `Orderly`: Laws of every run about orderly schedules: outside of blocks of lines by which sites start to part or
//!   merge nobody has an undecided round and no poll makes anybody leave; and by the end of the round after a block each
//!   site that started in it has its epoch, with just the sites that were chosen; and a round that starts calm stays so.
//!   They are about epochs alone, in every order of deliveries: no fact on calls, disks or directories is used. Theorems
//!   about the run; this room has no running part.
//! - The rest: Laws of every run about the records of sites, lines and calls: which may come after which, and which line
//!   of the schedule has asked for each.
//! - `CallRows`: Laws of every run about the records and the lines of calls: each call that is accepted is the next one
//!   of its site, and its process waits for nothing; a void call line is void by the records, and each other one tells of
//!   its acceptance.
//! - `OrderlyRows`: In orderly schedules each block forms its epochs: the law of every run, from the lines and the
//!   records of its trace to the worlds at the ends of its lines. Theorems about the run; this room has no running part.
//! - `Bounds`: How far one call and one delivery may go: a call makes no more requests than its path has components and
//!   six, or seven for a mail, and a delivery sends one packet of an open, an operation, a close or a look at most,
//!   besides the opens of mends that start. Theorems about the run; this room has no running part.
#![tactic(auto)]

mod bound_laws;
mod call_row_laws;
mod laws;
mod orderly_laws;
mod orderly_traces;

pub use bound_laws::{
    a_report_may_send_more, bound_is_met, deliveries_send_one, records_keep_bounds,
    requests_bounded, scripts_end,
};
pub use call_row_laws::{
    calls_are_accepted, calls_are_told, the_tree_makes_runs_lawful, void_calls_are_void,
};
pub use laws::{
    armed_disks_keep_calls, cut_sites_were_armed, lines_are_told, lists_are_of_sites,
    lists_have_who_joins, records_are_asked_for, records_are_placed, schedules_fit_their_cluster,
    sites_go_on, the_rest_makes_runs_lawful, void_lines_are_void,
};
pub use orderly_laws::{blocks_agree, quiet_lasts, rounds_stay_calm};
pub use orderly_traces::{leaves_are_own, orderly_blocks_agree, orderly_blocks_form};
