//! Each byte of each vector, set to each value.
use super::vectors::VECTORS;
use crate::equal::{Host, holds_in, same};
use itch_codec::{CodecFault, Message, decode, encode};

// Returns whether the fault concerns this byte at this offset.
fn is_fault_at(fault: CodecFault, at: usize, byte: u8) -> bool {
    match fault {
        CodecFault::BadText { offset } => offset == at && !(0x20..=0x7e).contains(&byte),
        CodecFault::BadSide { offset } => offset == at && byte != b'B' && byte != b'S',
        CodecFault::BadNumber => at > 0,
        CodecFault::WrongLength { kind, want, got } => at == 0 && kind == byte && want != got,
        CodecFault::Empty => false,
    }
}

// Sets each byte after the first to each value in turn, and counts the faults.
fn faults_of_bytes(rt: &impl Host, vector: &[u8]) -> u32 {
    assert!(rt; vector.len() <= 48);
    let mut payload = [0; 48];
    let mut faults = 0u32;
    for at in 1..vector.len() {
        for byte in 0..=255u8 {
            payload[..vector.len()].copy_from_slice(vector);
            payload[at] = byte;
            let spelled = &payload[..vector.len()];
            match decode(spelled) {
                Ok(Message::End { .. }) => {}
                Ok(message) => same(rt, encode(&message).bytes(), spelled),
                Err(fault) => {
                    holds_in(rt, (fault, byte, at), is_fault_at(fault, at, byte));
                    faults = faults.wrapping_add(1);
                }
            }
        }
    }
    faults
}

// 161 values are not printable, and 254 are not a side. End of Snapshot accepts a space before its last two bytes, a space or a digit before
// its last byte, and a digit from 1 to 9 as its last byte.
#[test]
fn each_byte_at_each_value(rt: HostRuntime) {
    let rows = [
        0,
        8 * 161,
        8 * 161,
        8 * 161,
        8 * 161,
        12 * 161,
        254 + 8 * 161,
        254 + 8 * 161,
        254 + 12 * 161,
        0,
        0,
        0,
        0,
        0,
        254 + 8 * 161,
        8 * 161,
        0,
        18 * 255 + 245 + 247,
        0,
    ];
    for (vector, faults) in VECTORS.iter().zip(rows.iter()) {
        same(&rt, faults_of_bytes(&rt, vector), *faults);
    }
}

// A payload of each other type is a message of that type, or has a fault.
#[test]
fn each_type(rt: HostRuntime) {
    for byte in 0..=255u8 {
        let payload = [byte, b'B'];
        match decode(&payload) {
            Ok(message) => {
                assert!(rt; !b"SRHYhLAFECXDUPQBG".contains(&byte));
                same(&rt, encode(&message).bytes(), payload.as_slice());
            }
            Err(fault) => holds_in(&rt, (fault, byte), is_fault_at(fault, 0, byte)),
        }
    }
}
