//! What is written of a rehearsal.
ghost use Rattle.std.specs.Prelude.{◌≡◌, ◌≤◌, ◌++◌, OnOk, codes};
ghost use Rattle.std.specs.List.{flat_map};
ghost use Rattle.mf_lines.specs.Served.{ended};
ghost use Rattle.mf_rehearse.specs.Prints.{entry_line, log_print, tagged};
ghost use Rattle.mf_wire.specs.Lines.{lines_of};
ghost use Rattle.mf_wire.specs.Replies.{op_name, op_of};

use itoa::Buffer;
use mf_edition::{Change, Entry, Log};
use mf_wire::first_line;
use std::alloc::AllocError;

/// Puts the replies to a caller at the end, each behind its digit and a space.
pub(crate) fn print_replies(
    output: &mut Vec<u8>,
    caller: u8,
    replies: &[u8],
) -> Result<(), AllocError>
    requires { caller ≤ 8 }
    ensures { OnOk result (output.new.items ≡ output.old.items
        ++ flat_map (tagged caller) (lines_of replies.now)) }
{
    let mut rest = replies;
    while !rest.is_empty() {
        let (reply, more) = first_line(rest);
        output.push(b'0' + caller)?;
        output.push(b' ')?;
        output.extend_from_slice(reply)?;
        output.push(b'\n')?;
        rest = more;
    }
    Ok(())
}

/// Puts the lines of a log at the end.
pub(crate) fn print_log(output: &mut Vec<u8>, log: &Log) -> Result<(), AllocError>
    ensures { OnOk result (output.new.items ≡ output.old.items ++ log_print 1 log.now) }
{
    let count = log.len();
    let mut index = 0;
    while index < count {
        let Some(entry) = log.get(index) else {
            unreachable!();
        };
        index += 1;
        print_entry(output, index, entry)?;
    }
    Ok(())
}

/// What a change is a publication of, in one word.
fn change_name(change: &Change) -> &'static str
    ensures { result.now ≡ op_name (op_of change.now) }
{
    match change {
        Change::Catalogue(_) => "publish",
        Change::Locale { .. } => "locale",
        Change::Handler(_) => "handler",
    }
}

/// Puts an entry's line at the end.
fn print_entry(output: &mut Vec<u8>, edition: u64, entry: &Entry) -> Result<(), AllocError>
    ensures { OnOk result (output.new.items ≡ output.old.items
        ++ (codes "log " ++ ended (entry_line edition entry.now))) }
{
    output.extend_from_slice(b"log {\"caller\":")?;
    output.extend_from_slice(Buffer::new().format(entry.caller).as_bytes())?;
    output.extend_from_slice(b",\"change\":\"")?;
    output.extend_from_slice(change_name(&entry.change).as_bytes())?;
    output.extend_from_slice(b"\",\"edition\":")?;
    output.extend_from_slice(Buffer::new().format(edition).as_bytes())?;
    output.extend_from_slice(b",\"nth\":")?;
    output.extend_from_slice(Buffer::new().format(entry.nth).as_bytes())?;
    output.extend_from_slice(b"}\n")?;
    Ok(())
}
