//! Parts of a day, read one after another.
use crate::equal::{Host, TestResult, same, same_in};
use itch_codec::{CodecFault, MOST_MESSAGES, Message};
use itch_day::{DayCursor, Limit, PartStop, Sink, Tracked, read_further, read_part};
use itch_frame::{BlockReader, Buffered, FrameFault};
use std::io::BufReader;
use test_doubles::PieceReader;
use test_doubles::days::Blocks;

// System events at 1, 2, 3, 3 and 4 nanoseconds after midnight, and an empty block. Each message has 14 bytes with its length.
const DAY: &[u8] =
    b"\0\x0cS\0\0\0\0\0\0\0\0\0\x01O\0\x0cS\0\0\0\0\0\0\0\0\0\x02S\0\x0cS\0\0\0\0\0\0\0\0\0\x03Q\
\0\x0cS\0\0\0\0\0\0\0\0\0\x03M\0\x0cS\0\0\0\0\0\0\0\0\0\x04E\0\0";

// The limits of parts of the day, why each part ends, and how many messages were taken by then.
const PARTS: [(Option<u64>, Option<u64>, &str, u64); 8] = [
    (Some(1), None, "full", 1),
    (None, Some(3), "late", 2),
    (None, Some(3), "late", 2),
    (Some(3), Some(4), "full", 3),
    (Some(5), Some(4), "late", 4),
    (Some(5), None, "full", 5),
    (None, None, "end", 5),
    (Some(9), None, "end", 5),
];

// A sink that accepts valid messages, but refuses the one with this number. It keeps the number of the last one that it accepted.
#[derive(Drop)]
struct Picky {
    refused: u64,
    taken: u64,
}

impl Picky {
    fn refusing(refused: u64) -> Picky {
        Picky { refused, taken: 0 }
    }
}

impl Sink for Picky {
    type Fault = u64;

    ghost is_ready = { λ _ _. Unit {0} };

    ghost takes = { λ _ _ _ _. Unit {0} };

    ghost refuses = { λ _ _ _ _ _. Unit {0} };

    fn take(
        &mut self,
        number: u64,
        payload: &[u8],
        message: &Result<Message<'_>, CodecFault>,
    ) -> Result<(), u64> {
        let _payload = payload;
        if number == self.refused || message.is_err() {
            return Err(number);
        }
        self.taken = number;
        Ok(())
    }
}

// Returns a word for a stop.
fn word(stop: &PartStop<u64>) -> &'static str {
    match stop {
        PartStop::Full => "full",
        PartStop::Late => "late",
        PartStop::End => "end",
        PartStop::Frame(FrameFault::Truncated { .. }) => "truncated",
        PartStop::Frame(_) => "failed",
        PartStop::TooMany => "too many",
        PartStop::Refused(_) => "refused",
    }
}

// Reads a part of a day after `count` messages, or a further part, and returns why it ends.
fn read(
    reader: &mut Blocks<'_>,
    count: &mut u64,
    sink: &mut Picky,
    limit: Limit,
    is_further: bool,
) -> &'static str {
    let mut at = (*count).min(MOST_MESSAGES);
    let stop = if is_further {
        read_further(reader, &mut at, sink, limit)
    } else {
        read_part(reader, &mut at, sink, limit)
    };
    *count = at;
    word(&stop)
}

// Reads the rest of a day after `count` messages.
fn rest(reader: &mut Blocks<'_>, count: &mut u64, sink: &mut Picky) -> &'static str {
    read(reader, count, sink, Limit::whole(), false)
}

// Checks that each part continues where the one before it ended.
fn goes_on(rt: &impl Host, reader: &mut Blocks<'_>, is_further: bool) {
    let mut count = 0;
    let mut sink = Picky::refusing(0);
    for (after, until, word, taken) in PARTS {
        let limit = Limit { after, until };
        let stop = read(reader, &mut count, &mut sink, limit, is_further);
        same_in(rt, (after, until), stop, word);
        same_in(rt, (after, until), count, taken);
        same_in(rt, (after, until), sink.taken, taken);
    }
}

#[test]
fn a_part_goes_on_where_the_one_before_it_stopped(rt: HostRuntime) -> TestResult {
    for piece in [1, 9, 80] {
        let mut reader = BlockReader::new(rt.alloc(), PieceReader::new(DAY, piece, None))?;
        goes_on(&rt, &mut reader, false);
        let mut reader = BlockReader::new(rt.alloc(), PieceReader::new(DAY, piece, None))?;
        goes_on(&rt, &mut reader, true);
    }
    Ok(())
}

// A sink that takes each odd message from its payload, and the others decoded. It counts the former, and checks that all come in order.
#[derive(Drop)]
struct Hasty {
    at_once: u64,
    taken: u64,
    in_order: bool,
}

impl Hasty {
    fn note(&mut self, number: u64) {
        self.in_order = self.in_order && self.taken.checked_add(1) == Some(number);
        self.taken = number;
    }
}

impl Sink for Hasty {
    type Fault = CodecFault;

    ghost is_ready = { λ _ _. Unit {0} };

    ghost takes = { λ _ _ _ _. Unit {0} };

    ghost refuses = { λ _ _ _ _ _. Unit {0} };

    fn take(
        &mut self,
        number: u64,
        payload: &[u8],
        message: &Result<Message<'_>, CodecFault>,
    ) -> Result<(), CodecFault> {
        let _payload = payload;
        if let Err(fault) = message {
            return Err(*fault);
        }
        self.note(number);
        Ok(())
    }

    fn take_payload(&mut self, number: u64, payload: &[u8]) -> bool {
        if number % 2 == 0 || payload.len() != 12 {
            return false;
        }
        self.note(number);
        self.at_once = self.at_once.saturating_add(1);
        true
    }
}

// Reads a part of the day through a buffer of this size, and checks that `taken` messages arrive in order, `at_once` of them undecoded.
fn takes_together(
    rt: &impl Host,
    capacity: usize,
    limit: Limit,
    taken: u64,
    at_once: u64,
) -> TestResult {
    let source = BufReader::with_capacity(rt.alloc(), capacity, PieceReader::new(DAY, 80, None))?;
    let mut reader = BlockReader::new(rt.alloc(), Buffered::new(source))?;
    let mut sink = Hasty {
        at_once: 0,
        taken: 0,
        in_order: true,
    };
    let mut count = 0;
    let _stop = read_part(&mut reader, &mut count, &mut sink, limit);
    let case = (capacity, limit.after, limit.until);
    same_in(rt, case, (count, sink.taken), (taken, taken));
    same_in(rt, case, (sink.at_once, sink.in_order), (at_once, true));
    Ok(())
}

// The message of the first block is decoded, because its block is read. All messages are decoded if a block does not fit the buffer, or if
// the time of each message is needed.
#[test]
fn messages_at_hand_are_taken_together(rt: HostRuntime) -> TestResult {
    for (capacity, after, until, taken, at_once) in [
        (100, None, None, 5, 2),
        (100, Some(3), None, 3, 1),
        (100, Some(4), None, 4, 1),
        (100, None, Some(4), 4, 0),
        (60, None, None, 5, 1),
        (30, None, None, 5, 0),
        (8, None, None, 5, 0),
    ] {
        takes_together(&rt, capacity, Limit { after, until }, taken, at_once)?;
    }
    Ok(())
}

// Checks that the third message is refused twice, and then accepted.
fn refuses_twice(rt: &impl Host, reader: &mut Blocks<'_>) {
    let mut count = 0;
    let mut sink = Picky::refusing(3);
    for _ in 0..2 {
        same(rt, rest(reader, &mut count, &mut sink), "refused");
        same(rt, count, 2);
        same(rt, sink.taken, 2);
    }
    sink.refused = 0;
    same(rt, rest(reader, &mut count, &mut sink), "end");
    same(rt, count, 5);
}

#[test]
fn a_refused_message_is_left(rt: HostRuntime) -> TestResult {
    let mut reader = BlockReader::new(rt.alloc(), PieceReader::new(DAY, 64, None))?;
    refuses_twice(&rt, &mut reader);
    Ok(())
}

// Checks that `taken` messages are accepted before this stop, in repeated calls too.
fn stops(rt: &impl Host, reader: &mut Blocks<'_>, word: &'static str, taken: u64) {
    let mut count = 0;
    let mut sink = Picky::refusing(0);
    for _ in 0..2 {
        same(rt, rest(reader, &mut count, &mut sink), word);
        same(rt, count, taken);
    }
}

#[test]
fn says_why_a_part_goes_no_further(rt: HostRuntime) -> TestResult {
    for (bytes, word, taken) in [
        (b"".as_slice(), "end", 0),
        (b"\0\0", "end", 0),
        (&DAY[..20], "truncated", 1),
        (&DAY[..28], "end", 2),
        (b"\0\x01S", "refused", 0),
    ] {
        let mut reader = BlockReader::new(rt.alloc(), PieceReader::new(bytes, 7, None))?;
        stops(&rt, &mut reader, word, taken);
    }
    Ok(())
}

// Checks that a read fails, and that the part then continues to its end.
fn fails_and_goes_on(rt: &impl Host, reader: &mut Blocks<'_>, at: u64) {
    let mut count = 0;
    let mut sink = Picky::refusing(0);
    let first = rest(reader, &mut count, &mut sink);
    same_in(rt, at, first, "failed");
    let second = rest(reader, &mut count, &mut sink);
    same_in(rt, at, second, "end");
    same_in(rt, at, count, 5);
}

#[test]
fn nothing_is_lost_whichever_read_fails(rt: HostRuntime) -> TestResult {
    for at in 1..=72 {
        let source = PieceReader::new(DAY, 1, Some(at));
        let mut reader = BlockReader::new(rt.alloc(), source)?;
        fails_and_goes_on(&rt, &mut reader, at);
    }
    Ok(())
}

// Returns the cursor after the messages before a time.
fn cursor_at(reader: &mut Blocks<'_>, until: u64) -> DayCursor {
    let sink = Picky::refusing(0);
    let cursor = DayCursor::new();
    let mut tracked = Tracked { sink, cursor };
    let mut count = 0;
    let limit = Limit {
        after: None,
        until: Some(until),
    };
    let _stop = read_part(reader, &mut count, &mut tracked, limit);
    tracked.cursor
}

#[test]
fn a_cursor_is_past_what_was_taken(rt: HostRuntime) -> TestResult {
    for (until, count, latest) in [(1, 0, None), (3, 2, Some(2)), (9, 5, Some(4))] {
        let mut reader = BlockReader::new(rt.alloc(), PieceReader::new(DAY, 9, None))?;
        let cursor = DayCursor {
            count,
            offset: 14 * count,
            latest,
        };
        same_in(&rt, until, cursor_at(&mut reader, until), cursor);
    }
    Ok(())
}
