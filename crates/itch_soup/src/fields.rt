//! The fields of a packet: each kind of field has one reader.
ghost use Rattle.std.specs.Prelude.{◌≡◌, ◌+◌, ◌≤◌, length};
ghost use Rattle.itch_codec.specs.Numbers.{slice_at};
ghost use Rattle.itch_codec.specs.Layouts.{column, Text, Digits};
ghost use Rattle.itch_codec.specs.Fields.{Number, Bytes, Reads};
ghost use Rattle.itch_soup.specs.PacketTable.{Field, Request};
ghost use Rattle.itch_soup.specs.Packets.{HasPart, part_fault};

use crate::fault::SoupFault;
use itch_codec::spaces::is_blank;
use itch_codec::{Alpha, AlphaFault, Seq, read_number20};

// Returns the `N` bytes at this offset.
#[tactic(auto, unfolding(itch_codec::specs::Numbers::slice_at))]
fn bytes_at<const N: usize>(block: &[u8], offset: usize) -> [u8; N]
    requires { offset + N ≤ length block.now }
    ensures { result ≡ slice_at offset N block.now }
{
    let mut bytes = [0; N];
    bytes.copy_from_slice(&block[offset..offset + N]);
    bytes
}

/// Returns the text in the `N` bytes at this offset.
#[tactic(auto, using(crate::proofs::TextFaults::printing))]
pub(crate) fn text_at<const N: usize>(block: &[u8], offset: usize) -> Result<Alpha<N>, SoupFault>
    requires { offset + N ≤ length block.now }
    ensures { Reads (λ text. HasPart block.now (Field (column offset N Text)) (Bytes text)) (part_fault block.now (Field (column offset N Text))) result }
{
    match Alpha::from_bytes(&bytes_at(block, offset)) {
        Ok(text) => Ok(text),
        Err(AlphaFault::NotPrintable { at }) => Err(SoupFault::BadText {
            offset: offset + at,
        }),
        Err(AlphaFault::TooLong) => unreachable!(),
    }
}

/// Returns the sequence number in the twenty bytes at this offset.
pub(crate) fn seq_at(block: &[u8], offset: usize) -> Result<Seq, SoupFault>
    requires { offset + 20 ≤ length block.now }
    ensures { Reads (λ next. HasPart block.now (Field (column offset 20 Digits)) (Number next)) (part_fault block.now (Field (column offset 20 Digits))) result }
{
    let Some(value) = read_number20(&bytes_at(block, offset)) else {
        return Err(SoupFault::BadNumber { offset });
    };
    match Seq::new(value) {
        Some(next) => Ok(next),
        None => Err(SoupFault::BadNumber { offset }),
    }
}

/// Returns the number that a login requests in the twenty bytes at this offset: 0 if they are blank.
pub(crate) fn request_at(block: &[u8], offset: usize) -> Result<u64, SoupFault>
    requires { offset + 20 ≤ length block.now }
    ensures { Reads (λ number. HasPart block.now (Request offset) (Number number)) (part_fault block.now (Request offset)) result }
{
    let field = bytes_at(block, offset);
    if is_blank(&field) {
        return Ok(0);
    }
    read_number20(&field).ok_or(SoupFault::BadNumber { offset })
}
