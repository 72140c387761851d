//! JSON objects and lines with names, written out by hand.
use super::vectors::*;
use crate::equal::{Host, TestResult, holds_in, same};
use itch_codec::{decode, json, show_named};

// Checks the JSON object of the message in these bytes, with this number.
fn has_object(rt: &impl Host, number: u64, payload: &[u8], want: &str) {
    match decode(payload) {
        Ok(message) => same(rt, json(number, &message).as_str(), want),
        Err(_) => holds_in(rt, payload, false),
    }
}

// Checks its line with names in the same way.
fn has_names(rt: &impl Host, number: u64, payload: &[u8], want: &str) {
    match decode(payload) {
        Ok(message) => same(rt, show_named(number, &message).as_str(), want),
        Err(_) => holds_in(rt, payload, false),
    }
}

#[test]
fn messages_of_each_type(rt: HostRuntime) {
    for (payload, object) in VECTORS.iter().zip(OBJECTS.iter()) {
        has_object(&rt, 1, payload, object);
    }
    for (payload, words) in VECTORS.iter().zip(NAMED.iter()) {
        has_names(&rt, 1, payload, words);
    }
}

#[test]
fn greatest_values_and_quotation_marks(rt: HostRuntime) {
    let rows: [(u64, &[u8], &str, &str); 5] = [
        (
            u64::MAX,
            b"R\xff\xff\xff\xff\xff\xff\xff\xff\xff\xff\"\"\"\"\"\"\"\"\xff\xff\xff\xff\xff\xff\xff\xff\xff\xff\xff\xff\xff\xff\xff\xff\xff\xff\xff\xff",
            "{\"number\":18446744073709551615,\"type\":\"R\",\"stock_locate\":65535,\"tracking_number\":65535,\"time\":\"78:11:14.976710655\",\"ns\":281474976710655,\"stock\":\"\\\"\\\"\\\"\\\"\\\"\\\"\\\"\\\"\",\"market_category\":\"\\u00ff\",\"financial_status_indicator\":\"\\u00ff\",\"round_lot_size\":4294967295,\"round_lots_only\":\"\\u00ff\",\"issue_classification\":\"\\u00ff\",\"issue_sub_type\":\"\\u00ff\\u00ff\",\"authenticity\":\"\\u00ff\",\"short_sale_threshold_indicator\":\"\\u00ff\",\"ipo_flag\":\"\\u00ff\",\"luld_reference_price_tier\":\"\\u00ff\",\"etp_flag\":\"\\u00ff\",\"etp_leverage_factor\":4294967295,\"inverse_indicator\":\"\\u00ff\"}\n",
            "18446744073709551615 R 65535 65535 78:11:14.976710655 [\"\"\"\"\"\"\"\"] '\\xff' '\\xff' 4294967295 '\\xff' '\\xff' '\\xff\\xff' '\\xff' '\\xff' '\\xff' '\\xff' '\\xff' 4294967295 '\\xff'\n",
        ),
        (
            u64::MAX,
            b"P\xff\xff\xff\xff\xff\xff\xff\xff\xff\xff\xff\xff\xff\xff\xff\xff\xff\xffS\xff\xff\xff\xff~~~~~~~~\xff\xff\xff\xff\xff\xff\xff\xff\xff\xff\xff\xff",
            "{\"number\":18446744073709551615,\"type\":\"P\",\"stock_locate\":65535,\"tracking_number\":65535,\"time\":\"78:11:14.976710655\",\"ns\":281474976710655,\"order_reference_number\":18446744073709551615,\"buy_sell_indicator\":\"S\",\"shares\":4294967295,\"stock\":\"~~~~~~~~\",\"price\":\"429496.7295\",\"match_number\":18446744073709551615}\n",
            "18446744073709551615 P 65535 65535 78:11:14.976710655 18446744073709551615 S 4294967295 [~~~~~~~~] 429496.7295 18446744073709551615\n",
        ),
        (
            u64::MAX,
            b"G10000000000000000000",
            "{\"number\":18446744073709551615,\"type\":\"G\",\"sequence_number\":10000000000000000000}\n",
            "18446744073709551615 G 10000000000000000000\n",
        ),
        (
            0,
            b"Y\x00\x01\x00\x00\x00\x00\x00\x00\x00\x00 \"A\\'~  0",
            "{\"number\":0,\"type\":\"Y\",\"stock_locate\":1,\"tracking_number\":0,\"time\":\"00:00:00.000000000\",\"ns\":0,\"stock\":\" \\\"A\\\\'~\",\"reg_sho_action\":\"0\"}\n",
            "0 Y 1 0 00:00:00.000000000 [ \"A\\'~] '0'\n",
        ),
        (
            0,
            b"Y\x00\x01\x00\x00\x00\x00\x00\x00\x00\x00        '",
            "{\"number\":0,\"type\":\"Y\",\"stock_locate\":1,\"tracking_number\":0,\"time\":\"00:00:00.000000000\",\"ns\":0,\"stock\":\"\",\"reg_sho_action\":\"'\"}\n",
            "0 Y 1 0 00:00:00.000000000 [] '\\''\n",
        ),
    ];
    for (number, payload, object, words) in rows {
        has_object(&rt, number, payload, object);
        has_names(&rt, number, payload, words);
    }
}

// Returns a System Event with this code, at this time in nanoseconds.
fn event(time: [u8; 6], code: u8) -> [u8; 12] {
    let mut payload = *b"S\x00\x00\x00\x00\x00\x00\x00\x00\x00\x00O";
    payload[5..11].copy_from_slice(&time);
    payload[11] = code;
    payload
}

// Checks the JSON object and the line with names of an event, with the number 7.
fn is_shown(rt: &impl Host, event: &[u8], object: &str, words: &str) -> TestResult {
    let start = "{\"number\":7,\"type\":\"S\",\"stock_locate\":0,\"tracking_number\":0,\"time\":";
    let object = format!(in rt.alloc(); "{start}{object}\"}}\n")?;
    has_object(rt, 7, event, object.as_str());
    let words = format!(in rt.alloc(); "7 S 0 0 {words}'\n")?;
    has_names(rt, 7, event, words.as_str());
    Ok(())
}

#[test]
fn codes(rt: HostRuntime) -> TestResult {
    for (code, object, words) in [
        (0, "\\u0000", "\\x00"),
        (31, "\\u001f", "\\x1f"),
        (32, " ", " "),
        (34, "\\\"", "\""),
        (39, "'", "\\'"),
        (92, "\\\\", "\\\\"),
        (126, "~", "~"),
        (127, "\\u007f", "\\x7f"),
        (255, "\\u00ff", "\\xff"),
    ] {
        let object = format!(in rt.alloc();
            "\"00:00:00.000000000\",\"ns\":0,\"event_code\":\"{object}"
        )?;
        let words = format!(in rt.alloc(); "00:00:00.000000000 '{words}")?;
        is_shown(&rt, &event([0; 6], code), object.as_str(), words.as_str())?;
    }
    Ok(())
}

#[test]
fn times(rt: HostRuntime) -> TestResult {
    let rows: [([u8; 6], &str, u64); 7] = [
        ([0, 0, 0, 0, 0, 1], "00:00:00.000000001", 1),
        ([0, 13, 248, 71, 87, 255], "00:00:59.999999999", 59999999999),
        ([0, 13, 248, 71, 88, 0], "00:01:00.000000000", 60000000000),
        (
            [31, 26, 206, 217, 240, 1],
            "09:30:00.000000001",
            34200000000001,
        ),
        (
            [78, 148, 145, 78, 255, 255],
            "23:59:59.999999999",
            86399999999999,
        ),
        (
            [78, 148, 145, 79, 0, 0],
            "24:00:00.000000000",
            86400000000000,
        ),
        (
            [255, 255, 255, 255, 255, 255],
            "78:11:14.976710655",
            281474976710655,
        ),
    ];
    for (bytes, time, nanoseconds) in rows {
        let object = format!(in rt.alloc(); "\"{time}\",\"ns\":{nanoseconds},\"event_code\":\"O")?;
        let words = format!(in rt.alloc(); "{time} 'O")?;
        is_shown(&rt, &event(bytes, b'O'), object.as_str(), words.as_str())?;
    }
    Ok(())
}

// Checks that the message in these bytes has its first byte as its type, this time in nanoseconds if it has a header, and this reference.
fn has(rt: &impl Host, payload: &[u8], time: Option<u64>, reference: Option<u64>) {
    match decode(payload) {
        Ok(message) => {
            same(rt, message.kind(), payload[0]);
            same(rt, message.time(), time);
            same(rt, message.header().is_some(), time.is_some());
            same(rt, message.reference(), reference);
        }
        Err(_) => holds_in(rt, payload, false),
    }
}

// The references of the vectors, or 0.
const REFERENCES: [u64; 19] = [
    0,
    0,
    0,
    0,
    0,
    0,
    1,
    u64::MAX,
    3,
    1,
    1,
    1,
    1,
    1,
    0,
    0,
    0,
    0,
    0,
];

#[test]
fn kinds_times_and_references(rt: HostRuntime) {
    for (payload, reference) in VECTORS.iter().zip(REFERENCES.iter()) {
        let time = match payload {
            [b'G' | b'N', ..] => None,
            _ => Some(0),
        };
        let known = *reference > 0;
        has(
            &rt,
            payload,
            time,
            if known { Some(*reference) } else { None },
        );
    }
    let late = event([31, 26, 206, 217, 240, 1], b'O');
    has(&rt, &late, Some(34_200_000_000_001), None);
}
