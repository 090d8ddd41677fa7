//! Where everything of a disk stands, and how long it is, in bytes. Definitions have the same numbers in specs/Layout.antt.

/// The label of a disk. The areas of packs follow it.
pub const LABEL_LENGTH: u32 = 1_024;

/// The area of a pack.
pub const AREA_LENGTH: u32 = 5_309_440;

/// The block that an area begins with. It names the pack.
pub const SUPERBLOCK_LENGTH: usize = 1_024;

/// Where the slots of an area begin.
pub const SLOTS_AT: u32 = 1_024;

/// A slot. Each inode has two.
pub const SLOT_LENGTH: usize = 512;

/// A slot without its gate.
pub const BODY_LENGTH: usize = 511;

/// The fields of a slot, without its gate and the zeros at its end.
pub const FIELDS_LENGTH: usize = 203;

/// The zeros at the end of a slot.
pub const REST_LENGTH: u32 = 308;

/// Where the tables of an area begin.
pub const TABLES_AT: u32 = 2_098_176;

/// A table of page numbers.
pub const TABLE_LENGTH: usize = 1_024;

/// Where the data pages of an area begin.
pub const PAGES_AT: u32 = 2_163_712;

/// Where the fields of a slot begin, counted from its gate.
pub const TURN_AT: usize = 1;

pub const INO_AT: usize = 3;

pub const SET_AT: usize = 5;

pub const SIZE_AT: usize = 7;

pub const SITE_AT: usize = 11;

pub const STAMP_NUMBER_AT: usize = 12;

pub const VECTOR_AT: usize = 16;

pub const PAGE_NUMBERS_AT: usize = 80;

pub const TABLE_NUMBERS_AT: usize = 200;

/// The number of a page or of a table.
pub const NUMBER_LENGTH: usize = 2;

/// A counter of a vector.
pub const COUNTER_LENGTH: usize = 4;
