//! Fields of a payload: each class of field has one reader and one writer.
ghost use Rattle.std.specs.Prelude.{◌≡◌, ◌+◌, ◌<◌, ◌≤◌, ◌^◌, [], ◌∷◌, ◌++◌, length};
ghost use Rattle.arrayvec.specs.ArrayVec.{array_vec_len};
ghost use Rattle.itch_codec.specs.Numbers.{slice_at, number_at, be};
ghost use Rattle.itch_codec.specs.Layouts.{column, Text, OneSide};
ghost use Rattle.itch_codec.specs.Fields.{Bytes, TheSide, Has, field_fault, Reads, AreBytes, IsBytes, IsAlpha, side_byte};
ghost use Rattle.itch_codec.specs.Text.{IsPrintable};

use crate::fault::CodecFault;
use crate::orders::Side;
use crate::text::{Alpha, are_printable, unprintable};
use arrayvec::ArrayVec;
use byteorder::{BigEndian, ByteOrder};

/// The bytes of a message under construction. The longest message of the table has 44 bytes.
pub(crate) type Buffer = ArrayVec<u8, 48>;

#[inline(always)]
#[tactic(auto, unfolding(crate::specs::Numbers::number_at))]
pub(crate) fn u16_at(payload: &[u8], offset: usize) -> u16
    requires { offset + 2 ≤ length payload.now }
    ensures { result ≡ number_at offset 2 payload.now }
{
    BigEndian::read_u16(&payload[offset..offset + 2])
}

#[inline(always)]
#[tactic(auto, unfolding(crate::specs::Numbers::number_at))]
pub(crate) fn u32_at(payload: &[u8], offset: usize) -> u32
    requires { offset + 4 ≤ length payload.now }
    ensures { result ≡ number_at offset 4 payload.now }
{
    BigEndian::read_u32(&payload[offset..offset + 4])
}

#[inline(always)]
#[tactic(auto, unfolding(crate::specs::Numbers::number_at))]
pub(crate) fn u48_at(payload: &[u8], offset: usize) -> u64
    requires { offset + 6 ≤ length payload.now }
    ensures value { result ≡ number_at offset 6 payload.now }
    ensures small { result < 2 ^ 48 }
{
    BigEndian::read_u48(&payload[offset..offset + 6])
}

#[inline(always)]
#[tactic(auto, unfolding(crate::specs::Numbers::number_at))]
pub(crate) fn u64_at(payload: &[u8], offset: usize) -> u64
    requires { offset + 8 ≤ length payload.now }
    ensures { result ≡ number_at offset 8 payload.now }
{
    BigEndian::read_u64(&payload[offset..offset + 8])
}

#[inline(always)]
#[tactic(auto, unfolding(crate::specs::Numbers::slice_at))]
pub(crate) fn codes_at<const N: usize>(payload: &[u8], offset: usize) -> [u8; N]
    requires { offset + N ≤ length payload.now }
    ensures { result ≡ slice_at offset N payload.now }
{
    let mut bytes = [0; N];
    bytes.copy_from_slice(&payload[offset..offset + N]);
    bytes
}

#[inline(always)]
pub(crate) fn text_at<const N: usize>(payload: &[u8], offset: usize) -> Result<Alpha<N>, CodecFault>
    requires { offset + N ≤ length payload.now }
    ensures { Reads (λ text. Has payload.now (column offset N Text) (Bytes text)) (field_fault payload.now (column offset N Text)) result }
{
    check_text::<N>(payload, offset)?;
    Ok(known_text(payload, offset))
}

/// Checks that a field is a text, and otherwise returns its fault.
#[inline(always)]
#[tactic(auto, using(crate::proofs::Texts::printing), unfolding(crate::specs::Numbers::slice_at))]
pub(crate) fn check_text<const N: usize>(payload: &[u8], offset: usize) -> Result<(), CodecFault>
    requires { offset + N ≤ length payload.now }
    ensures { Reads (λ _. IsPrintable (slice_at offset N payload.now)) (field_fault payload.now (column offset N Text)) result }
{
    let bytes = &payload[offset..offset + N];
    if are_printable(bytes) {
        return Ok(());
    }
    match unprintable(bytes) {
        None => Ok(()),
        Some(place) => Err(CodecFault::BadText {
            offset: offset + place,
        }),
    }
}

/// Returns the text of a field without a fault.
#[inline(always)]
pub(crate) fn known_text<const N: usize>(payload: &[u8], offset: usize) -> Alpha<N>
    requires within { offset + N ≤ length payload.now }
    requires printable { IsPrintable (slice_at offset N payload.now) }
    ensures { result ≡ slice_at offset N payload.now }
{
    Alpha::known(codes_at(payload, offset))
}

#[inline(always)]
pub(crate) fn side_at(payload: &[u8], offset: usize) -> Result<Side, CodecFault>
    requires { offset < length payload.now }
    ensures { Reads (λ side. Has payload.now (column offset 1 OneSide) (TheSide side)) (field_fault payload.now (column offset 1 OneSide)) result }
{
    let byte = payload[offset];
    // `B` is even and `S` is odd. A branch for each of them would often be mispredicted.
    let side = if byte % 2 == 0 { Side::Buy } else { Side::Sell };
    if u8::from(side) != byte {
        return Err(CodecFault::BadSide { offset });
    }
    Ok(side)
}

#[inline(always)]
fn put(out: &mut Buffer, bytes: &[u8])
    requires { array_vec_len out.old + length bytes.now ≤ 48 }
    ensures bytes { out.new.items ≡ out.old.items ++ bytes.now }
    ensures len { array_vec_len out.new ≡ array_vec_len out.old + length bytes.now }
    ensures wide { AreBytes bytes.now }
{
    out.try_extend_from_slice(bytes).unwrap();
}

#[inline(always)]
#[tactic(auto, unfolding(crate::specs::Numbers::be))]
pub(crate) fn put_u16(out: &mut Buffer, number: u16)
    requires { array_vec_len out.old + 2 ≤ 48 }
    ensures bytes { out.new.items ≡ out.old.items ++ be 2 number }
    ensures len { array_vec_len out.new ≡ array_vec_len out.old + 2 }
    ensures fits { number < 2 ^ 16 }
{
    put(out, &number.to_be_bytes());
}

#[inline(always)]
#[tactic(auto, unfolding(crate::specs::Numbers::be))]
pub(crate) fn put_u32(out: &mut Buffer, number: u32)
    requires { array_vec_len out.old + 4 ≤ 48 }
    ensures bytes { out.new.items ≡ out.old.items ++ be 4 number }
    ensures len { array_vec_len out.new ≡ array_vec_len out.old + 4 }
    ensures fits { number < 2 ^ 32 }
{
    put(out, &number.to_be_bytes());
}

#[inline(always)]
#[tactic(auto, unfolding(crate::specs::Numbers::be))]
pub(crate) fn put_u48(out: &mut Buffer, number: u64)
    requires small { number < 2 ^ 48 }
    requires room { array_vec_len out.old + 6 ≤ 48 }
    ensures bytes { out.new.items ≡ out.old.items ++ be 6 number }
    ensures len { array_vec_len out.new ≡ array_vec_len out.old + 6 }
{
    let mut bytes = [0; 6];
    BigEndian::write_u48(&mut bytes, number);
    put(out, &bytes);
}

#[inline(always)]
#[tactic(auto, unfolding(crate::specs::Numbers::be))]
pub(crate) fn put_u64(out: &mut Buffer, number: u64)
    requires { array_vec_len out.old + 8 ≤ 48 }
    ensures bytes { out.new.items ≡ out.old.items ++ be 8 number }
    ensures len { array_vec_len out.new ≡ array_vec_len out.old + 8 }
    ensures fits { number < 2 ^ 64 }
{
    put(out, &number.to_be_bytes());
}

#[inline(always)]
pub(crate) fn put_code(out: &mut Buffer, byte: u8)
    requires { array_vec_len out.old < 48 }
    ensures bytes { out.new.items ≡ out.old.items ++ byte ∷ [] }
    ensures len { array_vec_len out.new ≡ array_vec_len out.old + 1 }
    ensures fits { byte < 256 }
{
    out.push(byte);
}

#[inline(always)]
pub(crate) fn put_codes<const N: usize>(out: &mut Buffer, bytes: [u8; N])
    requires { array_vec_len out.old + N ≤ 48 }
    ensures bytes { out.new.items ≡ out.old.items ++ bytes.entry }
    ensures len { array_vec_len out.new ≡ array_vec_len out.old + N }
    ensures fits { IsBytes N bytes.entry }
{
    put(out, &bytes);
}

#[inline(always)]
pub(crate) fn put_text<const N: usize>(out: &mut Buffer, text: &Alpha<N>)
    requires { array_vec_len out.old + N ≤ 48 }
    ensures bytes { out.new.items ≡ out.old.items ++ text.now }
    ensures len { array_vec_len out.new ≡ array_vec_len out.old + N }
    ensures fits { IsAlpha N text.now }
{
    put(out, text.bytes());
}

#[inline(always)]
pub(crate) fn put_side(out: &mut Buffer, side: Side)
    requires { array_vec_len out.old < 48 }
    ensures bytes { out.new.items ≡ out.old.items ++ side_byte side ∷ [] }
    ensures len { array_vec_len out.new ≡ array_vec_len out.old + 1 }
{
    out.push(u8::from(side));
}
