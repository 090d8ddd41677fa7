// Each of these adds the text of a list or a set at the end.
ghost use Rattle.std.specs.Prelude.{◌≡◌, ℕ, ◌<◌, ◌+◌, List, [], ◌++◌, ◌==◌, cond, codes, get_or, OnOk};
ghost use Rattle.locus_ids.specs.Sizes.{sites_max};
ghost use Rattle.locus_ids.specs.Sites.{has};
ghost use Rattle.trace_book.specs.Text.{copies_text, member_text, members_text, names_text, sites_text, stamps_text};

use crate::pieces::{push_number, push_stamp};
use locus_ids::sizes::SITES;
use locus_ids::{Brought, Bytes, Member, Members, NoMemory, Sites, Stamp};

/// A comma, but before the first item.
fn push_comma(out: &mut Bytes, first: bool) -> Result<(), NoMemory>
    ensures { OnOk result (out.new ≡ out.old ++ cond first [] (codes ",")) }
{
    if first {
        return Ok(());
    }
    out.append(b",")
}

/// The site after the place, from 0, is in the set.
fn has_place(sites: Sites, place: u32) -> bool
    requires { place < sites_max }
    ensures { result ≡ has sites (place + 1) }
{
    (sites.0 >> place) % 2 == 1
}

pub fn push_sites(out: &mut Bytes, sites: Sites) -> Result<(), NoMemory>
    ensures { OnOk result (out.new ≡ out.old ++ sites_text sites) }
{
    let mut first = true;
    for place in 0..SITES as u32 {
        if has_place(sites, place) {
            push_comma(out, first)?;
            push_number(out, place + 1)?;
            first = false;
        }
    }
    Ok(())
}

fn push_member(out: &mut Bytes, member: Member) -> Result<(), NoMemory>
    ensures { OnOk result (out.new ≡ out.old ++ member_text member) }
{
    push_number(out, u32::from(member.site))?;
    out.append(b":")?;
    push_number(out, member.boot)
}

/// The site after the place, from 0, with its boot number.
fn member_at(members: &Members, place: u8) -> Member
    requires { place < sites_max }
    ensures { result ≡ record { site = place + 1; boot = get_or members.now.boot place 0 } }
{
    Member {
        site: place + 1,
        boot: members.boot[usize::from(place)],
    }
}

/// The site after the place, from 0, is no member.
fn is_absent(members: &Members, place: u8) -> bool
    requires { place < sites_max }
    ensures { result ≡ (get_or members.now.boot place 0 == 0) }
{
    members.boot[usize::from(place)] == 0
}

pub fn push_members(out: &mut Bytes, members: &Members) -> Result<(), NoMemory>
    ensures { OnOk result (out.new ≡ out.old ++ members_text members.now) }
{
    let mut first = true;
    for place in 0..SITES as u8 {
        if is_absent(members, place) {
            continue;
        }
        push_comma(out, first)?;
        push_member(out, member_at(members, place))?;
        first = false;
    }
    Ok(())
}

pub fn push_copies(out: &mut Bytes, copies: &[Brought]) -> Result<(), NoMemory>
    ensures { OnOk result (out.new ≡ out.old ++ copies_text copies.now) }
{
    for copy in copies {
        out.append(b" ")?;
        push_number(out, u32::from(copy.ino))?;
        out.append(b"=")?;
        push_stamp(out, copy.stamp)?;
    }
    Ok(())
}

pub fn push_stamps(out: &mut Bytes, stamps: &[Stamp]) -> Result<(), NoMemory>
    ensures { OnOk result (out.new ≡ out.old ++ stamps_text stamps.now) }
{
    let [first, others @ ..] = stamps else {
        return out.append(b"-");
    };
    push_stamp(out, *first)?;
    for stamp in others {
        out.append(b",")?;
        push_stamp(out, *stamp)?;
    }
    Ok(())
}

pub fn push_names(out: &mut Bytes, names: &[Bytes]) -> Result<(), NoMemory>
    ensures { OnOk result (out.new ≡ out.old ++ names_text names.now) }
{
    for name in names {
        out.append(b" ")?;
        out.append(name.as_slice())?;
    }
    Ok(())
}
