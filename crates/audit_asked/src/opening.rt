ghost use Rattle.std.specs.Prelude.{◌≡◌};
ghost use Rattle.commit_graph.specs.Versions.{same_file};
ghost use Rattle.lawful_trace.specs.TreeRows.{is_open_of};
ghost use Rattle.promises.specs.Rows.{gives};
ghost use Rattle.audit_asked.specs.Hows.{is_how};

use audit_same::same_reply;
use call_rules::Want;
use locus_ids::{FileId, Mode};
use trace_book::{OpenMode, Reply};

/// The script gives this reply.
pub fn gives(asked: &Want, reply: &Reply) -> bool
    ensures { result ≡ gives asked.now reply.now }
{
    match asked {
        Want::Give { reply: given } => same_reply(given, reply),
        _ => false,
    }
}

/// The script asks for this open: of a file by a user, of a directory to be mended, or of a new file of the group.
pub fn is_open_of(mode: Mode, file: FileId, asked: &Want) -> bool
    ensures { result ≡ is_open_of mode file asked.now }
{
    match asked {
        Want::Open {
            file: of,
            mode: how,
        } => is_how(mode, *how) && same_file(*of, file),
        Want::OpenToMend { file: of } => matches!(mode, Mode::Mend) && same_file(*of, file),
        Want::Make {
            group,
            kind: _,
            sites: _,
        } => matches!(mode, Mode::Make) && *group == file.group,
        _ => false,
    }
}

/// An open in this mode is asked so.
fn is_how(mode: Mode, how: OpenMode) -> bool
    ensures { result ≡ is_how mode how }
{
    match how {
        OpenMode::Read | OpenMode::Steady => matches!(mode, Mode::Read),
        OpenMode::Write => matches!(mode, Mode::Write),
        OpenMode::Resolve { site: _ } => matches!(mode, Mode::Resolve),
    }
}

fn same_file(a: FileId, b: FileId) -> bool
    ensures { result ≡ same_file a b }
{
    a.group == b.group && a.ino == b.ino
}
