//! The readers and the writers of the parts of packets: ids, sets, stamps, vectors, names, refusals, operations and their outcomes.
//! Whoever writes or reads packets calls this room, and whoever asks whether a name is one. What the bytes of a part are stands with
//! the definitions in `wire_fields`. It knows no kind of packet.
#![tactic(auto)]

mod components;
mod memberships;
mod operations;
mod outcomes;
mod parts;
mod refusals;
mod stamps;
mod texts;
mod vectors;

pub use components::{is_component, is_name};
pub use memberships::{put_members, read_members};
pub use operations::{put_held, put_op, read_op};
pub use outcomes::{put_as_held, put_outcome, put_what, read_outcome, read_what};
pub use parts::{
    put_epoch, put_file, put_instance, put_kind, put_set, put_site, read_any_set, read_epoch,
    read_file, read_file_or_new, read_instance, read_kind, read_number, read_process, read_site,
    read_size, read_some_set,
};
pub use refusals::{put_refusal, read_refusal};
pub use stamps::{put_ascending_stamps, put_stamp, read_ascending_stamps, read_stamp};
pub use texts::{put_data, put_short, read_component, read_data, read_name};
pub use vectors::{agrees, put_vector, read_vector, read_vector_of};
