//! What the text of a run's trace says: laws by which an audit of it answers yes.
//! Theorems about the run alone; this room has no running part.
//!
//! Parts:
//! - `Records`: Which numbers the records of a run say: those of their lines, of calls and of boots are in the ranges
//!   that a reader of traces asks for, and there are at most 134,217,728 records.
//! - `VersionTexts`: What records of versions say is in range, in every run, so that each is the record of a text.
//!   Theorems alone; this room has no running part.
//! - `CallTexts`: Whatever a call wants has a text: of words that a line may have, the scripts of calls make requests and
//!   replies in the ranges of records, where they are answered so. Theorems alone; this room has no running part.
//! - `TreeTexts`: That each record of a consistent trace is the record of a text, where what is new in it is in range:
//!   all else that it tells was told before, or follows from that. Theorems alone; this room has no running part.
//! - `NewTexts`: What records of runs tell first is in range: the mounts of a cluster are of groups, under names, and
//!   calls make few requests, mends where few versions are kept. Theorems alone; this room has no running part.
//! - `FewKept`: How many versions of a file an epoch of a run keeps: no more than seventeen, one of each site beside the
//!   format's. Theorems alone; this room has no running part.
#![tactic(auto)]

mod call_text_laws;
mod few_kept_laws;
mod new_text_laws;
mod record_text_laws;
mod tree_text_laws;
mod version_text_laws;

pub use call_text_laws::calls_want_texts;
pub use few_kept_laws::epochs_keep_few;
pub use new_text_laws::{
    calls_ask_few, few_are_kept, mounts_have_texts, records_name_low_requests,
};
pub use record_text_laws::{
    calls_have_numbers, joins_have_texts, records_are_few, records_have_lines,
    records_say_low_boots,
};
pub use tree_text_laws::one_tree_is_text;
pub use version_text_laws::{commits_have_texts, named_versions_have_texts};
