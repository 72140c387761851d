//! Facts about a payload that are known before it is decoded.
ghost use Rattle.std.specs.Prelude.{◌≡◌, ◌≤◌, length};
ghost use Rattle.itch_codec.specs.Numbers.{number_at};

use crate::fields::u64_at;

/// Returns the order reference number after the header of a message about an order; of a replace it is the original number. In a payload of
/// another type these bytes have another meaning.
#[inline(always)]
pub fn reference_in(payload: &[u8]) -> u64
    requires { 19 ≤ length payload.now }
    ensures { result ≡ number_at 11 8 payload.now }
{
    u64_at(payload, 11)
}
