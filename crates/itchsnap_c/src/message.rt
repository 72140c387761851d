//! Single messages.
ghost use Rattle.std.specs.Prelude.{◌≡◌};
ghost use Rattle.itch_codec.specs.Messages.{fault};
ghost use Rattle.itchsnap_c.specs.Codes.{fault_answer};
ghost use Rattle.itchsnap_c.specs.Fields.{Decodes};

use crate::answers::Answer;
use crate::codes::{DONE, codec_answer};
use crate::fields::{Fields, fields_of};
use itch_codec::decode;

/// Checks that a payload is a valid message, or returns its first fault.
#[unsafe(no_mangle)]
pub extern "C" fn itchsnap_decode_fault(payload: &[u8]) -> Answer
    ensures { result ≡ fault_answer (fault payload.now) }
{
    match decode(payload) {
        Ok(_) => DONE,
        Err(fault) => codec_answer(&fault),
    }
}

/// Writes the fields of the message that a payload spells to `out`. If it spells none, its first fault is returned, and `out` stays
/// as it was.
#[unsafe(no_mangle)]
pub extern "C" fn itchsnap_decode(payload: &[u8], out: &mut Fields) -> Answer
    ensures { Decodes payload.now out.old result out.new }
{
    match decode(payload) {
        Ok(message) => {
            *out = fields_of(&message);
            DONE
        }
        Err(why) => codec_answer(&why),
    }
}
