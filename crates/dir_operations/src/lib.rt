//! A directory out of its bytes and into them, what a name finds in it, the names that it shows, and each operation on it. Storage
//! sites work on directories by this room, and the walks of paths look names up by it. What a directory and its bytes are stands in
//! `dir_format`. It knows nothing of versions, of sites that meet or of who asks.
#![tactic(auto)]

mod answer;
mod asking;
mod decoding;
mod effects;
mod encoding;
mod finding;
mod kinds;
mod looking;
mod names;
mod reading;
mod showing;
mod size;

pub use answer::DirAnswer;
pub use asking::{empty, find, probe};
pub use decoding::{BadDir, decode_dir, dir_in};
pub use effects::{insert, remove, rename};
pub use encoding::encode_dir;
pub use kinds::has_kind;
pub use looking::lookup;
pub use names::is_name;
pub use showing::shown_names;
