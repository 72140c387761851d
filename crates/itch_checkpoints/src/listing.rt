//! The line of a snapshot in the index of its folder.
ghost use Rattle.std.specs.Prelude.{◌≡◌, ◌++◌, decimal, IfOk, OnOk, option_map};
ghost use Rattle.itch_checkpoints.specs.IndexLines.{digits_part, index_line, list_part, cursor_part, number_or_null, place_part};

use crate::fingerprint::Fingerprint;
use itch_day::DayCursor;
use itoa::Buffer;
use std::alloc::{AllocError, Allocator};

/// Returns the line of the snapshot after the messages before a cursor: a JSON object with the number of messages, the offset of the next message
/// in the day file, their latest timestamp, the name of the snapshot's file, the fingerprint of the day file before the offset, and the list
/// of the snapshot's locates, if it contains only some.
pub fn index_line<A: Allocator>(
    alloc: A,
    cursor: DayCursor,
    fingerprint: Fingerprint,
    only: Option<&str>,
) -> Result<Vec<u8, A>, AllocError>
    ensures { IfOk result (λ line. line.items ≡ index_line cursor fingerprint (option_map (λ list. list.now) only.entry)) }
{
    let mut line = Vec::new(alloc);
    push_cursor(&mut line, cursor)?;
    push_fingerprint(&mut line, fingerprint)?;
    push_list(&mut line, only)?;
    line.extend_from_slice(b"}\n")?;
    Ok(line)
}

fn push_cursor<A: Allocator>(line: &mut Vec<u8, A>, cursor: DayCursor) -> Result<(), AllocError>
    ensures { OnOk result (line.new.items ≡ line.old.items ++ cursor_part cursor) }
{
    push_place(line, cursor)?;
    push_field(line, b",\"file\":\"", cursor.count)?;
    line.extend_from_slice(b".snap\"")?;
    Ok(())
}

/// Appends the beginning of the line of a cursor: the number of messages, the offset of the next one, and the latest timestamp.
pub fn push_place<A: Allocator>(line: &mut Vec<u8, A>, cursor: DayCursor) -> Result<(), AllocError>
    ensures { OnOk result (line.new.items ≡ line.old.items ++ place_part cursor) }
{
    push_field(line, b"{\"messages\":", cursor.count)?;
    push_field(line, b",\"offset\":", cursor.offset)?;
    line.extend_from_slice(b",\"timestamp\":")?;
    push_or_null(line, cursor.latest)?;
    Ok(())
}

fn push_field<A: Allocator>(
    line: &mut Vec<u8, A>,
    name: &[u8],
    number: u64,
) -> Result<(), AllocError>
    ensures { OnOk result (line.new.items ≡ line.old.items ++ name.now ++ decimal number) }
{
    line.extend_from_slice(name)?;
    push_number(line, number)
}

fn push_number<A: Allocator>(line: &mut Vec<u8, A>, number: u64) -> Result<(), AllocError>
    ensures { OnOk result (line.new.items ≡ line.old.items ++ decimal number) }
{
    line.extend_from_slice(Buffer::new().format(number).as_bytes())
}

fn push_or_null<A: Allocator>(line: &mut Vec<u8, A>, number: Option<u64>) -> Result<(), AllocError>
    ensures { OnOk result (line.new.items ≡ line.old.items ++ number_or_null number) }
{
    match number {
        Some(number) => push_number(line, number),
        None => line.extend_from_slice(b"null"),
    }
}

/// Appends the part of a line about the bytes of the day file before the offset.
pub fn push_fingerprint<A: Allocator>(
    line: &mut Vec<u8, A>,
    fingerprint: Fingerprint,
) -> Result<(), AllocError>
    ensures { OnOk result (line.new.items ≡ line.old.items ++ digits_part fingerprint) }
{
    line.extend_from_slice(b",\"first\":\"")?;
    line.extend_from_slice(&fingerprint.first)?;
    line.extend_from_slice(b"\",\"last\":\"")?;
    line.extend_from_slice(&fingerprint.last)?;
    line.extend_from_slice(b"\"")
}

fn push_list<A: Allocator>(line: &mut Vec<u8, A>, only: Option<&str>) -> Result<(), AllocError>
    ensures { OnOk result (line.new.items ≡ line.old.items ++ list_part (option_map (λ list. list.now) only.entry)) }
{
    let Some(list) = only else {
        return Ok(());
    };
    line.extend_from_slice(b",\"only\":\"")?;
    line.extend_from_slice(list.as_bytes())?;
    line.extend_from_slice(b"\"")
}
