//! The messages in the tables of days, snapshots and joins, as bytes. Fields that the name does not mention are 0, or as in the other
//! messages.

/// System Event: start of messages; end of messages.
pub const EVENT: &[u8] = b"S\0\0\0\0\0\0\0\0\0\0O";

pub const CLOSES: &[u8] = b"S\0\0\0\0\0\0\0\0\0\0C";
/// Stock Directory: AAPL at locate 1, also at the ninth nanosecond and with round lots of 200; MSFT and MAX.
pub const AAPL: &[u8] = b"R\0\x01\0\0\0\0\0\0\0\0AAPL    QN\0\0\0dNCZ PNN1N\0\0\0\0N";

pub const AAPL_LATER: &[u8] = b"R\0\x01\0\0\0\0\0\0\0\x09AAPL    QN\0\0\0dNCZ PNN1N\0\0\0\0N";

pub const AAPL_OF_200: &[u8] = b"R\0\x01\0\0\0\0\0\0\0\0AAPL    QN\0\0\0\xc8NCZ PNN1N\0\0\0\0N";

pub const MSFT: &[u8] = b"R\0\x02\0\0\0\0\0\0\0\0MSFT    QN\0\0\0dNCZ PNN1N\0\0\0\0N";

pub const MSFT_AT_1: &[u8] = b"R\0\x01\0\0\0\0\0\0\0\0MSFT    QN\0\0\0dNCZ PNN1N\0\0\0\0N";

pub const MAX: &[u8] = b"R\xff\xff\0\0\0\0\0\0\0\0MAX     QN\0\0\0dNCZ PNN1N\0\0\0\0N";
/// AAPL is trading, also with other reserved bytes; Reg SHO 0 for it.
pub const TRADES: &[u8] = b"H\0\x01\0\0\0\0\0\0\0\0AAPL    T     ";

pub const TRADES_0: &[u8] = b"H\0\x01\0\0\0\0\0\0\0\0AAPL    T\0    ";

pub const TRADES_X: &[u8] = b"H\0\x01\0\0\0\0\0\0\0\0AAPL    TX    ";

pub const RESTRICTS: &[u8] = b"Y\0\x01\0\0\0\0\0\0\0\0AAPL    0";
/// Orders to buy AAPL at 150.0000, or for `HIGHER` at 150.0100, of 100 times their number, or as the name says.
pub const ADD_1: &[u8] = b"A\0\x01\0\0\0\0\0\0\0\0\0\0\0\0\0\0\0\x01B\0\0\0dAAPL    \0\x16\xe3`";

pub const ADD_0: &[u8] = b"A\0\x01\0\0\0\0\0\0\0\0\0\0\0\0\0\0\0\x01B\0\0\0\0AAPL    \0\x16\xe3`";

pub const ADD_1_OF_60: &[u8] =
    b"A\0\x01\0\0\0\0\0\0\0\0\0\0\0\0\0\0\0\x01B\0\0\0<AAPL    \0\x16\xe3`";

pub const ADD_2: &[u8] = b"A\0\x01\0\0\0\0\0\0\0\0\0\0\0\0\0\0\0\x02B\0\0\0\xc8AAPL    \0\x16\xe3`";

pub const ADD_2_OF_100: &[u8] =
    b"A\0\x01\0\0\0\0\0\0\0\0\0\0\0\0\0\0\0\x02B\0\0\0dAAPL    \0\x16\xe3`";

pub const ADD_2_HIGHER: &[u8] =
    b"A\0\x01\0\0\0\0\0\0\0\0\0\0\0\0\0\0\0\x02B\0\0\0\xc8AAPL    \0\x16\xe3\xc4";

pub const ADD_3: &[u8] = b"A\0\x01\0\0\0\0\0\0\0\0\0\0\0\0\0\0\0\x03B\0\0\x01,AAPL    \0\x16\xe3`";

pub const ADD_4: &[u8] = b"A\0\x01\0\0\0\0\0\0\0\0\0\0\0\0\0\0\0\x04B\0\0\0FAAPL    \0\x16\xe3`";

pub const ADD_4_HIGHER: &[u8] =
    b"A\0\x01\0\0\0\0\0\0\0\0\0\0\0\0\0\0\0\x04B\0\0\x01\x90AAPL    \0\x16\xe3\xc4";

pub const ADD_7: &[u8] =
    b"A\0\x01\0\0\0\0\0\0\0\x05\0\0\0\0\0\0\0\x07B\0\0\x01,AAPL    \0\x16\xe3`";

pub const ADD_7_OF_150: &[u8] =
    b"A\0\x01\0\0\0\0\0\0\0\0\0\0\0\0\0\0\0\x07B\0\0\0\x96AAPL    \0\x16\xe3`";
/// Orders at locates that are not in the directory, of MSFT, and on the other side.
pub const ADD_1_AT_9: &[u8] =
    b"A\0\x09\0\0\0\0\0\0\0\0\0\0\0\0\0\0\0\x01B\0\0\0\x01AAPL    \0\x16\xe3`";

pub const ADD_9_AT_3: &[u8] =
    b"A\0\x03\0\0\0\0\0\0\0\0\0\0\0\0\0\0\0\x09B\0\0\0\x01AAPL    \0\x16\xe3`";

pub const ADD_2_OF_MSFT: &[u8] =
    b"A\0\x02\0\0\0\0\0\0\0\0\0\0\0\0\0\0\0\x02B\0\0\0\x0aMSFT    \0\x16\xe3`";

pub const SELL_3: &[u8] =
    b"A\0\x01\0\0\0\0\0\0\0\0\0\0\0\0\0\0\0\x03S\0\0\x01,AAPL    \0\x16\xe3\xc4";

pub const SELL_MAX: &[u8] =
    b"A\xff\xff\0\0\0\0\0\0\0\0\xff\xff\xff\xff\xff\xff\xff\xffS\xff\xff\xff\xffMAX     \xff\xff\xff\xff";
/// Orders attributed to ABCD. If order 3 replaces order 1, a snapshot contains `NAMED_3`, because the attribution is kept.
pub const NAMED_1: &[u8] =
    b"F\0\x01\0\0\0\0\0\0\0\0\0\0\0\0\0\0\0\x01B\0\0\0dAAPL    \0\x16\xe3`ABCD";

pub const NAMED_3: &[u8] =
    b"F\0\x01\0\0\0\0\0\0\0\0\0\0\0\0\0\0\0\x03B\0\0\0dAAPL    \0\x16\xe3`ABCD";

pub const NAMED_5: &[u8] =
    b"F\0\x01\0\0\0\0\0\0\0\0\0\0\0\0\0\0\0\x05S\0\0\0\x0aAAPL    \0\x16\xe4(ABCD";
/// Replacements of order 1: by order 3 of 100 shares, by order 4 of 70, by itself, and by an order of no shares.
pub const REPLACE_1: &[u8] =
    b"U\0\x01\0\0\0\0\0\0\0\0\0\0\0\0\0\0\0\x01\0\0\0\0\0\0\0\x03\0\0\0d\0\x16\xe3`";

pub const REPLACE_1_BY_4: &[u8] =
    b"U\0\x01\0\0\0\0\0\0\0\0\0\0\0\0\0\0\0\x01\0\0\0\0\0\0\0\x04\0\0\0F\0\x16\xe3`";

pub const REPLACE_BY_ITSELF: &[u8] =
    b"U\0\x01\0\0\0\0\0\0\0\0\0\0\0\0\0\0\0\x01\0\0\0\0\0\0\0\x01\0\0\02\0\x16\xe3`";

pub const REPLACE_BY_0: &[u8] =
    b"U\0\x01\0\0\0\0\0\0\0\0\0\0\0\0\0\0\0\x01\0\0\0\0\0\0\0\x01\0\0\0\0\0\x16\xe3`";

pub const REPLACE_AT_2: &[u8] =
    b"U\0\x02\0\0\0\0\0\0\0\0\0\0\0\0\0\0\0\x01\0\0\0\0\0\0\0\x05\0\0\0\0\0\x16\xe3`";
/// Executions, cancels and deletions.
pub const EXECUTE_0: &[u8] = b"E\0\x01\0\0\0\0\0\0\0\0\0\0\0\0\0\0\0\x01\0\0\0\0\0\0\0\0\0\0\0\x01";

pub const EXECUTE_1: &[u8] = b"E\0\x01\0\0\0\0\0\0\0\0\0\0\0\0\0\0\0\x01\0\0\02\0\0\0\0\0\0\0\x01";

pub const EXECUTE_7: &[u8] =
    b"E\0\x01\0\0\0\0\0\0\0\x06\0\0\0\0\0\0\0\x07\0\0\0d\0\0\0\0\0\0\0\x01";

pub const EXECUTE_100: &[u8] =
    b"E\0\x01\0\0\0\0\0\0\0\0\0\0\0\0\0\0\0\x01\0\0\0d\0\0\0\0\0\0\0\x01";

pub const EXECUTE_101: &[u8] =
    b"E\0\x01\0\0\0\0\0\0\0\0\0\0\0\0\0\0\0\x01\0\0\0e\0\0\0\0\0\0\0\x01";

pub const EXECUTE_AT_2: &[u8] =
    b"E\0\x02\0\0\0\0\0\0\0\0\0\0\0\0\0\0\0\x01\0\0\0\x0a\0\0\0\0\0\0\0\x01";

pub const PRICED_61: &[u8] =
    b"C\0\x01\0\0\0\0\0\0\0\0\0\0\0\0\0\0\0\x01\0\0\0=\0\0\0\0\0\0\0\x01Y\0\x16\xe3`";

pub const CANCEL_7: &[u8] = b"X\0\x01\0\0\0\0\0\0\0\x07\0\0\0\0\0\0\0\x07\0\0\02";

pub const CANCEL_40: &[u8] = b"X\0\x01\0\0\0\0\0\0\0\0\0\0\0\0\0\0\0\x01\0\0\0(";

pub const DELETE_1: &[u8] = b"D\0\x01\0\0\0\0\0\0\0\0\0\0\0\0\0\0\0\x01";

pub const DELETE_3: &[u8] = b"D\0\x01\0\0\0\0\0\0\0\0\0\0\0\0\0\0\0\x03";

pub const DELETE_9: &[u8] = b"D\0\x01\0\0\0\0\0\0\0\0\0\0\0\0\0\0\0\x09";
/// A message that changes nothing.
pub const BROKEN_TRADE: &[u8] = b"B\0\x01\0\0\0\0\0\0\0\0\0\0\0\0\0\0\0\x01";
/// Ends of Snapshot.
pub const END_1: &[u8] = b"G                   1";

pub const END_2: &[u8] = b"G                   2";

pub const END_3: &[u8] = b"G                   3";

pub const END_4: &[u8] = b"G                   4";

pub const END_5: &[u8] = b"G                   5";

pub const END_6: &[u8] = b"G                   6";
