//! Looks at orders before the messages about them arrive.
ghost use Rattle.std.specs.Prelude.{◌<◌};

use itch_codec::reference_in;
use itch_frame::split_first_block;

// The number of bytes of a message about an order up to the end of its reference.
const TO_REFERENCE: usize = 19;

// The types of messages that change an order (C, D, E, U and X), each as the bit with the number of the type's code modulo 32.
const CHANGES: u32 = 1 << 3 | 1 << 4 | 1 << 5 | 1 << 21 | 1 << 24;

/// The maximum number of orders that are looked at ahead at once.
pub(crate) const MOST_ORDERS: usize = 32;

// The maximum number of messages that are looked at ahead: those remain in the processor's nearest cache.
const MOST_MESSAGES: u64 = 256;

/// Notes the orders that the messages of the first blocks change. Returns the number of these orders, and of the messages that were looked at.
#[inline(always)]
pub(crate) fn note_orders(blocks: &[u8], references: &mut [u64; MOST_ORDERS]) -> (usize, u64) {
    let mut orders = 0;
    let mut messages = 0;
    let mut rest = blocks;
    for message in 0..MOST_MESSAGES {
        if orders >= MOST_ORDERS {
            break;
        }
        let Some((payload, after)) = split_first_block(rest) else {
            break;
        };
        if payload.len() >= TO_REFERENCE {
            // (the number from another message is overwritten later: a branch would often be mispredicted)
            references[orders] = reference_in(payload);
            orders += orders_of(payload[0]);
        }
        messages = message + 1;
        rest = after;
    }
    (orders, messages)
}

// Returns 1 for a type of messages that change an order, and otherwise 0, without a branch. For a type that does not exist it may be 1.
#[inline(always)]
fn orders_of(kind: u8) -> usize
    ensures { result < 2 }
{
    ((CHANGES >> u32::from(kind % 32)) % 2) as usize
}
