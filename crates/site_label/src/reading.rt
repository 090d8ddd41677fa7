// What the halves of a label say.
ghost use Rattle.std.specs.Prelude.{◌≡◌, ◌≤◌, ◌<◌, ◌^◌, ℕ, List, length, IfOk, IfErr};
ghost use Rattle.disk_model.specs.Images.{Same};
ghost use Rattle.disk_model.specs.Disk.{Goes, HasCause, TellsRead, KeepsCut};
ghost use Rattle.site_label.specs.Label.{label_bytes};
ghost use Rattle.site_label.specs.Reading.{IsReading, IsHalf, IsCounted, counted_of, greater};
ghost use Rattle.site_label.specs.Raising.{IsUnread, disk_answer};

use crate::LabelFault;
use crate::half::{Half, half_bytes};
use disk_model::{Disk, DiskFault};
use locus_ids::SiteId;

/// What a half says: nothing where its gate is closed, its boot number, or what no label of the site says.
#[derive(Clone, Copy)]
pub(crate) enum Reading {
    Closed,
    Boot(u32),
    Bad,
}

/// The half that counts, with its boot number, and whether the other one is open too.
#[derive(Clone, Copy)]
pub(crate) struct Counted {
    pub half: Half,
    pub boot: u32,
    pub beside: bool,
}

/// Reads both halves, and finds the one that counts.
pub(crate) fn read_label<D: Disk>(disk: &mut D, site: SiteId) -> Result<Counted, LabelFault>
    requires { label_bytes ≤ length (D.moment disk.old).seen }
    ensures counted { IfOk result (λ counted. IsCounted site (D.moment disk.old).seen counted) }
    ensures fault { IfErr result (λ fault. IsUnread site (D.moment disk.old).seen fault) }
    ensures seen { (D.moment disk.new).seen ≡ (D.moment disk.old).seen }
    ensures crash { Goes Same (D.moment disk.old) (D.moment disk.new) }
    ensures cause { HasCause (D.moment disk.old).faults (D.moment disk.new).faults (disk_answer result) }
    ensures tells { TellsRead (D.moment disk.old).passing (D.moment disk.new).passing (disk_answer result) }
    ensures cut { KeepsCut (D.moment disk.old) (D.moment disk.new) }
{
    let first = read_half(disk, site, Half::First)?;
    let second = read_half(disk, site, Half::Second)?;
    match choose(first, second) {
        Some(counted) => Ok(counted),
        None => Err(LabelFault::NotALabel),
    }
}

/// Reads a half.
fn read_half<D: Disk>(disk: &mut D, site: SiteId, half: Half) -> Result<Reading, DiskFault>
    requires { label_bytes ≤ length (D.moment disk.old).seen }
    ensures read { IfOk result (λ reading. IsHalf site half (D.moment disk.old).seen reading) }
    ensures seen { (D.moment disk.new).seen ≡ (D.moment disk.old).seen }
    ensures crash { Goes Same (D.moment disk.old) (D.moment disk.new) }
    ensures cause { HasCause (D.moment disk.old).faults (D.moment disk.new).faults result }
    ensures tells { TellsRead (D.moment disk.old).passing (D.moment disk.new).passing result }
    ensures cut { KeepsCut (D.moment disk.old) (D.moment disk.new) }
{
    let mut bytes = [0; 512];
    disk.read(half.at(), &mut bytes)?;
    Ok(reading_of(&bytes, site))
}

/// What these bytes say as a half of the site's label.
fn reading_of(bytes: &[u8; 512], site: SiteId) -> Reading
    ensures { IsReading site bytes.now result }
{
    if bytes[0] != 0xA5 {
        return Reading::Closed;
    }
    let boot = u32::from_be_bytes([bytes[10], bytes[11], bytes[12], bytes[13]]);
    if *bytes == half_bytes(site, boot) {
        Reading::Boot(boot)
    } else {
        Reading::Bad
    }
}

/// The half that counts, or `None` where there is none.
fn choose(first: Reading, second: Reading) -> Option<Counted>
    ensures { result ≡ counted_of first second }
{
    match (first, second) {
        (Reading::Boot(boot), Reading::Closed) => Some(Counted {
            half: Half::First,
            boot,
            beside: false,
        }),
        (Reading::Closed, Reading::Boot(boot)) => Some(Counted {
            half: Half::Second,
            boot,
            beside: false,
        }),
        (Reading::Boot(one), Reading::Boot(other)) => greater(one, other),
        _ => None,
    }
}

/// Of two open halves the one with the greater boot number, or `None` where the numbers are equal.
fn greater(one: u32, other: u32) -> Option<Counted>
    ensures { result ≡ greater one other }
{
    if one > other {
        Some(Counted {
            half: Half::First,
            boot: one,
            beside: true,
        })
    } else if other > one {
        Some(Counted {
            half: Half::Second,
            boot: other,
            beside: true,
        })
    } else {
        None
    }
}
