// What a reply to a call changes at its site.
ghost use Rattle.std.specs.Prelude.{◌≡◌, OnOk};
ghost use Rattle.role_steps.specs.Views.{Users};
ghost use Rattle.role_steps.specs.declared.users.Asking.{Asking};
ghost use Rattle.role_steps.specs.Using.{after_reply, holds_again, is_hopeless};
ghost use Rattle.waiting_calls.specs.Called.{called};

use crate::caller::Caller;
use crate::descriptors::{kept_version, opened_row};
use keyed_tables::SortedTable;
use locus_ids::{FileId, ItemList, NoMemory, Refusal};
use role_steps::DescriptorRow;
use site_frame::SiteFrame;
use trace_book::{Beginning, Call, Reply};

/// An open that succeeds takes the descriptor, a read that has opened a version again holds its own by the new instance, and a
/// directory whose mend is refused for want of room isn't mended again in this epoch. Nothing else changes: a refusal frees no
/// descriptor.
pub fn change_by_reply(
    frame: &SiteFrame,
    caller: &Caller,
    reply: &Reply,
    descriptors: &mut SortedTable<DescriptorRow>,
    hopeless: &mut ItemList<FileId>,
) -> Result<(), NoMemory>
    ensures { (a : Asking) (u : Users) → OnOk result (record u { descriptors = descriptors.new; hopeless = hopeless.new } ≡ after_reply frame.now (called caller.now a) reply.now (record u { descriptors = descriptors.old; hopeless = hopeless.old })) }
{
    match reply {
        Reply::Opened { fd } => {
            let kept = kept_version(caller);
            descriptors.put(opened_row(frame, caller, *fd, kept))
        }
        Reply::Data { bytes: _ } => hold_again(frame, caller, descriptors),
        Reply::No { why } => match caller.script.words() {
            Call::Mend { file } => {
                if is_hopeless(why) {
                    return hopeless.push(*file);
                }
                Ok(())
            }
            _ => Ok(()),
        },
        _ => Ok(()),
    }
}

/// A read that has opened a version again makes its descriptor held by the new instance.
fn hold_again(
    frame: &SiteFrame,
    caller: &Caller,
    descriptors: &mut SortedTable<DescriptorRow>,
) -> Result<(), NoMemory>
    ensures { (a : Asking) (u : Users) → OnOk result (record u { descriptors = descriptors.new } ≡ holds_again frame.now (called caller.now a) caller.now.script.begins caller.now.script.words (record u { descriptors = descriptors.old })) }
{
    let Beginning::Reopens { version, last: _ } = caller.script.begins() else {
        return Ok(());
    };
    match caller.script.words() {
        Call::Read { fd, at: _, len: _ } => {
            let row = opened_row(frame, caller, *fd, Some(*version));
            descriptors.put(row)
        }
        _ => Ok(()),
    }
}

/// The directory can't be mended for want of room.
fn is_hopeless(why: &Refusal) -> bool
    ensures { result ≡ is_hopeless why.now }
{
    match why {
        Refusal::TooLong => true,
        Refusal::NoSpace { needed: _, free: _ } => true,
        Refusal::Spent => true,
        _ => false,
    }
}
