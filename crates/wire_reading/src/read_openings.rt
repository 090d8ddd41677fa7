ghost use Rattle.std.specs.Prelude.{◌≡◌, cond, ◌-◌};
ghost use Rattle.locus_ids.specs.Sizes.{sites_max, set_span};
ghost use Rattle.field_codec.specs.Codec.{u8_in, u16_in};
ghost use Rattle.field_codec.specs.Reads.{Reads};
ghost use Rattle.wire_messages.specs.Answers.{is_new, mode_numbers, mode_of, modes, kind_from, opening_of, openings};

use field_codec::{FieldFault, Fields};
use locus_ids::sizes::SITES;
use locus_ids::{FileId, Kind, Mode, Sites};
use wire_messages::Opening;

/// The file is still to be made.
pub fn is_new(file: FileId) -> bool
    ensures { result ≡ is_new file }
{
    file.ino == 0
}

fn read_mode_number(new: bool, fields: &mut Fields) -> Result<u8, FieldFault>
    ensures { Reads (mode_numbers new) (λ n. n) fields.old result fields.new }
{
    if new {
        fields.u8_in(5, 5)
    } else {
        fields.u8_in(1, 4)
    }
}

fn mode_of(number: u8) -> Mode
    ensures { result ≡ mode_of number }
{
    if number == 1 {
        Mode::Read
    } else if number == 2 {
        Mode::Write
    } else if number == 3 {
        Mode::Resolve
    } else if number == 4 {
        Mode::Mend
    } else {
        Mode::Make
    }
}

pub fn read_mode(new: bool, fields: &mut Fields) -> Result<Mode, FieldFault>
    ensures { Reads (modes new) (λ mode. mode) fields.old result fields.new }
{
    let number = read_mode_number(new, fields)?;
    Ok(mode_of(number))
}

/// A site where one is wanted, and else 0.
fn read_site_if(wanted: bool, fields: &mut Fields) -> Result<u8, FieldFault>
    ensures { Reads (u8_in (cond wanted 1 0) (cond wanted sites_max 0)) (λ n. n) fields.old result fields.new }
{
    if wanted {
        fields.u8_in(1, SITES as u8)
    } else {
        fields.u8_in(0, 0)
    }
}

/// A set that isn't empty where one is wanted, and else 0.
fn read_set_if(wanted: bool, fields: &mut Fields) -> Result<u16, FieldFault>
    ensures { Reads (u16_in (cond wanted 1 0) (cond wanted (set_span - 1) 0)) (λ n. n) fields.old result fields.new }
{
    if wanted {
        fields.u16_in(1, u16::MAX)
    } else {
        fields.u16_in(0, 0)
    }
}

/// The number of a kind where one is wanted, and else 0.
fn read_kind_if(wanted: bool, fields: &mut Fields) -> Result<u8, FieldFault>
    ensures { Reads (u8_in (cond wanted 1 0) (cond wanted 2 0)) (λ n. n) fields.old result fields.new }
{
    if wanted {
        fields.u8_in(1, 2)
    } else {
        fields.u8_in(0, 0)
    }
}

fn kind_from(number: u8) -> Kind
    ensures { result ≡ kind_from number }
{
    if number == 1 { Kind::File } else { Kind::Dir }
}

fn opening_of(mode: u8, site: u8, set: u16, kind: u8) -> Opening
    ensures { result ≡ opening_of (mode, (site, (set, kind))) }
{
    if mode == 1 {
        Opening::Read
    } else if mode == 2 {
        Opening::Write
    } else if mode == 3 {
        Opening::Resolve { site }
    } else if mode == 4 {
        Opening::Mend
    } else {
        Opening::Make {
            set: Sites(set),
            kind: kind_from(kind),
        }
    }
}

pub fn read_opening(new: bool, fields: &mut Fields) -> Result<Opening, FieldFault>
    ensures { Reads (openings new) (λ opening. opening) fields.old result fields.new }
{
    let mode = read_mode_number(new, fields)?;
    let site = read_site_if(mode == 3, fields)?;
    let set = read_set_if(mode == 5, fields)?;
    let kind = read_kind_if(mode == 5, fields)?;
    Ok(opening_of(mode, site, set, kind))
}
