/// What a file is.
#[derive(Clone, Copy, PartialEq, Eq)]
pub enum Kind {
    File,
    Dir,
}

/// How an instance of a file is open.
#[derive(Clone, Copy, PartialEq, Eq)]
pub enum Mode {
    /// Reads, beside any number of other readers.
    Read,
    /// Reads and writes, alone.
    Write,
    /// Settles a conflict, beginning from the version of a named site.
    Resolve,
    /// Merges the versions of a directory. Only the system opens so.
    Mend,
    /// Makes a new file.
    Make,
}

/// The low-level name of a file: its filegroup and its inode number there.
#[derive(Clone, Copy, PartialEq, Eq, PartialOrd, Ord)]
pub struct FileId {
    pub group: u8,
    pub ino: u16,
}

/// The name of a version, unique in its file: the site that committed it, and which of that site's commits it is.
#[derive(Clone, Copy, PartialEq, Eq, PartialOrd, Ord)]
pub struct Stamp {
    pub site: u8,
    pub n: u32,
}

/// The name of an epoch: its number, and the site and boot that formed it.
#[derive(Clone, Copy, PartialEq, Eq, PartialOrd, Ord)]
pub struct EpochId {
    pub number: u32,
    pub site: u8,
    pub boot: u32,
}

/// The name of a call: the site and boot that accepted it, and which of that boot's calls it is.
#[derive(Clone, Copy, PartialEq, Eq)]
pub struct CallId {
    pub site: u8,
    pub boot: u32,
    pub n: u32,
}

/// The name of an instance within its epoch: the using site and its serial number.
#[derive(Clone, Copy, PartialEq, Eq)]
pub struct Serial {
    pub us: u8,
    pub serial: u32,
}

/// A member of an epoch with its boot number.
#[derive(Clone, Copy)]
pub struct Member {
    pub site: u8,
    pub boot: u32,
}

/// A version that a group starts with.
#[derive(Clone, Copy)]
pub struct Brought {
    pub ino: u16,
    pub stamp: Stamp,
}
