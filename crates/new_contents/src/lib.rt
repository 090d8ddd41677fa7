//! What is written of a new content over the one before it: the pages of a content that are marked, or those that came of a
//! version made elsewhere. Packs write versions by it. It knows nothing of inodes, slots or free pages.
#![tactic(auto)]

mod laid_pages;
mod marked_content;
mod new_content;
mod page_writing;
mod rows;

pub use laid_pages::LaidPages;
pub use marked_content::MarkedContent;
pub use new_content::NewContent;
pub use rows::{Row, page_count};
