//! Writes blocks to a writer.
ghost use Rattle.std.specs.Prelude.{◌<◌, ◌+◌, length};
ghost use Rattle.itch_frame.specs.Writing.{WriteBlock, WritePart};

use crate::counted::CountedWrite;
use crate::fault::FrameFault;
use byteorder::{BigEndian, ByteOrder};

/// Writes the block of a payload.
#[inline(always)]
pub fn write_block<W: CountedWrite>(writer: &mut W, payload: &[u8]) -> Result<(), FrameFault>
    ensures { WriteBlock W.contents W.failures writer.old payload.now result writer.new }
{
    let Ok(len) = u16::try_from(payload.len()) else {
        return Err(FrameFault::TooLong);
    };
    let mut header = [0u8; 2];
    BigEndian::write_u16(&mut header, len);
    write_part(writer, &header, 0)?;
    write_part(writer, payload, 2)
}

/// Writes bytes unchanged, as the part of a block after its first `before` bytes.
///
/// The only fault is `Write`, which states how many bytes of the complete block were written.
#[inline(always)]
pub fn write_part<W: CountedWrite>(
    writer: &mut W,
    bytes: &[u8],
    before: usize,
) -> Result<(), FrameFault>
    requires { before + length bytes.now < 65538 }
    ensures { WritePart W.contents W.failures writer.old before bytes.now result writer.new }
{
    let mut sent = 0;
    while sent < bytes.len() {
        match writer.write_some(&bytes[sent..]) {
            Ok(count) => sent += count,
            Err(error) => {
                let sent = before + sent;
                return Err(FrameFault::Write { sent, error });
            }
        }
    }
    Ok(())
}
