//! The run of a schedule as total functions: the step of a site, the world of all sites with their disks, circuits and
//! packets, what each line does, and the text of the trace. Whoever runs a schedule is proved equal to this, and the laws of
//! runs are theorems about it. This room has no running part; it knows nothing of bytes read or of sinks.
#![tactic(auto)]

mod laws;

pub use laws::{
    boot_numbers_rise, epochs_are_joined, events_touch_one_site, joins_have_one_list,
    packets_are_of_a_boot, packets_name_their_boot, promised_ids_rise, steps_send_their_own,
    worlds_grow,
};
