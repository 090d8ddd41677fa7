//! The working content of an open file: the pages that were changed, each in memory as a whole, over a base that stays
//! where it is. Packs commit by its definitions; the program keeps a content and marks instead, so nothing calls the type but tests.
//! It knows no disk and no slot: what it needs of the base is handed to it.
#![tactic(auto)]

mod base_page;
mod build;
mod page;
mod place;
mod shadow;
mod span;

pub use base_page::{BasePage, PageList};
pub use shadow::{Shadow, ShadowFault};
pub use span::Span;
