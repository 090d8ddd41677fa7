// What packets that carry versions over say, as text.
use crate::texts::{push_file, push_stamp};
use locus_ids::{FileId, Stamp};
use std::test::Fail;
use wire_messages::Body;

pub(crate) fn push_pulling(text: &mut String, body: &Body) -> Result<(), Fail> {
    match body {
        Body::Notify {
            file,
            stamp,
            holder,
            ..
        } => {
            let holder = holder.get();
            write!(text, "notify from {holder} ")?;
            push_version(text, *file, *stamp)
        }
        Body::Pull { file, stamp, page } => {
            write!(text, "pull {page} ")?;
            push_version(text, *file, *stamp)
        }
        Body::Page {
            file,
            stamp,
            page,
            bytes,
        } => {
            let count = bytes.len();
            write!(text, "page {page} of {count} ")?;
            push_version(text, *file, *stamp)
        }
        Body::Have { file, stamp } => {
            text.push_str("have ")?;
            push_version(text, *file, *stamp)
        }
        Body::Want { file, wanted, own } => {
            text.push_str("want ")?;
            push_version(text, *file, *wanted)?;
            text.push_str(" over")?;
            push_stamp(text, *own)
        }
        Body::Delta {
            file,
            wanted,
            pages,
        } => {
            text.push_str("delta ")?;
            push_version(text, *file, *wanted)?;
            for page in pages.as_slice() {
                write!(text, " {page}")?;
            }
            Ok(())
        }
        _ => Ok(()),
    }
}

fn push_version(text: &mut String, file: FileId, stamp: Stamp) -> Result<(), Fail> {
    push_file(text, file)?;
    push_stamp(text, stamp)
}
