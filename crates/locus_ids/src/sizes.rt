//! The sizes of the product, each said once. Definitions have the same numbers in specs/Sizes.antt.

/// The greatest number of sites. Sites are 1 to this.
pub const SITES: usize = 16;

/// The greatest inode of a filegroup, and the number of inodes of a pack. Inodes are 1 to this.
pub const INODES: u16 = 1_024;

/// The most bytes that a content has on a disk and in memory, whatever kind of file it is of.
pub const CONTENT_BYTES: usize = 1_110_016;

/// The most bytes that a call gives a file. A call is refused that would pass it, also where a content could have more.
pub const FILE_BYTES: usize = 65_536;

/// The most bytes that a directory is given. A call is refused that would pass it.
pub const DIRECTORY_BYTES: usize = 65_536;

/// The bytes of a page.
pub const PAGE_BYTES: usize = 1_024;

/// The most pages that a content has: those that `CONTENT_BYTES` bytes take. A slot and its tables name as many.
pub const CONTENT_PAGES: usize = 1_084;

/// How many pages of a content its slot names: the first ones. Tables name the others.
pub const SLOT_PAGES: usize = 60;

/// How many pages of a content a table names.
pub const TABLE_PAGES: usize = 512;

/// The most tables that a content has.
pub const CONTENT_TABLES: usize = 2;

/// The tables of a pack.
pub const PACK_TABLES: u16 = 64;

/// The pages of a pack.
pub const PACK_PAGES: u16 = 3_072;

/// How many inode numbers of a filegroup a site has to give.
pub const SITE_INODES: u16 = 64;

/// How many descriptors of a process are open at once. They are 0 up to this.
pub const DESCRIPTORS: u16 = 16;

/// Descriptors that a line may name are below this. The key of a descriptor is process * DESCRIPTOR_SPAN + descriptor.
pub const DESCRIPTOR_SPAN: u64 = 65_536;

/// Inodes are below this. The key of a file is group * INODE_SPAN + inode.
pub const INODE_SPAN: u64 = 65_536;

/// The bytes of the area of a pack on its disk.
pub const PACK_BYTES: u32 = 5_309_440;

/// The greatest length of a line of input without its line feed, in bytes.
pub const LINE_BYTES: u32 = 16_384;

/// The greatest number of lines of input.
pub const LINES: u32 = 1_000_000;
