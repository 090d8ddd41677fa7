//! Laws of every run about its packets: that they fit, carry values that may be, and have the format.
//! Theorems about the run alone; this room has no running part.
//!
//! Parts:
//! - `Fitting`: What keeps a packet within its format in every run: how far boot numbers and the numbers of epochs come,
//!   and which fields packets have.
//! - `Values`: What a site has is of the format of packets, and so is what it sends.
//! - `Formats`: At every moment of a run the packets of the next event are of the format.
//! - `Reaching`: The numbers that records of runs tell first are low: serial numbers of opens, and the numbers and sites
//!   of listed packets. Theorems alone; this room has no running part.
#![tactic(auto)]

mod packet_fit_laws;
mod packet_format_laws;
mod packet_value_laws;
mod reach_laws;

pub use packet_fit_laws::{
    boots_stay_low, counts_stay_low, epoch_numbers_stay_low, packets_fit_in_part,
};
pub use packet_format_laws::next_packets_fit;
pub use packet_value_laws::{
    bodies_fit_with_their_counts, calls_want_what_fits, shown_names_are_components,
};
pub use reach_laws::records_tell_low_numbers;
