ghost use Rattle.std.specs.Prelude.{◌≡◌};
ghost use Rattle.key_places.specs.Keys.{call_key, epoch_key, serial_key, file_key, version_key, number_key};

use locus_ids::{CallId, EpochId, FileId, Serial, Stamp};

/// What a row is found by. A name that has fewer numbers is filled up with zeros.
#[derive(Clone, Copy, PartialEq, Eq, Hash, Drop)]
pub struct Key {
    pub first: u32,
    pub second: u32,
    pub third: u32,
    pub fourth: u32,
}

/// The key of a call.
pub fn call_key(id: CallId) -> Key
    ensures { result ≡ call_key id }
{
    Key {
        first: u32::from(id.site),
        second: id.boot,
        third: id.n,
        fourth: 0,
    }
}

/// The key of an epoch.
pub fn epoch_key(id: EpochId) -> Key
    ensures { result ≡ epoch_key id }
{
    Key {
        first: id.number,
        second: u32::from(id.site),
        third: id.boot,
        fourth: 0,
    }
}

/// The key of an instance within its epoch.
pub fn serial_key(id: Serial) -> Key
    ensures { result ≡ serial_key id }
{
    Key {
        first: u32::from(id.us),
        second: id.serial,
        third: 0,
        fourth: 0,
    }
}

/// The key of a file.
pub fn file_key(file: FileId) -> Key
    ensures { result ≡ file_key file }
{
    Key {
        first: u32::from(file.group),
        second: u32::from(file.ino),
        third: 0,
        fourth: 0,
    }
}

/// The key of a version of a file.
pub fn version_key(file: FileId, stamp: Stamp) -> Key
    ensures { result ≡ version_key file stamp }
{
    Key {
        first: u32::from(file.group),
        second: u32::from(file.ino),
        third: u32::from(stamp.site),
        fourth: stamp.n,
    }
}

/// The key of a plain number.
pub fn number_key(number: u32) -> Key
    ensures { result ≡ number_key number }
{
    Key {
        first: number,
        second: 0,
        third: 0,
        fourth: 0,
    }
}
