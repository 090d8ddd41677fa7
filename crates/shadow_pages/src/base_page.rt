use locus_ids::{Bytes, ItemList};

/// A page of the base: its number, and its bytes.
#[derive(Drop)]
pub struct BasePage {
    pub page: u16,
    pub bytes: Bytes,
}

/// Pages of the base.
pub type PageList = ItemList<BasePage>;
