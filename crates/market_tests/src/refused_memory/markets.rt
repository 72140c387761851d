//! Messages applied to a market, and a day file replayed.
use crate::book::has_len;
use crate::equal::{Host, TestResult, same};
use crate::market::content::{Content, content_of};
use itch_book::{IndexedBook, ListBook, OrderBook};
use itch_codec::{Message, decode};
use itch_frame::{BlockReader, FrameFault};
use itch_market::{LocateSet, Market, Refusal, Stop};
use std::alloc::{AllocError, Allocator, Global};
use std::test::Fail;
use test_doubles::days::{Blocks, REPLACED, blocks, replayed};
use test_doubles::payloads::*;
use test_doubles::{PieceReader, Refusing};

type RefusingMemory<'a> = &'a Refusing<Global>;

// Applies a message with this allocation refused. Returns whether it was refused.
fn refuse_one<B: OrderBook>(
    rt: &impl Host,
    refusing: &Refusing<Global>,
    market: &mut Market<B>,
    message: &Message<'_>,
    nth: u64,
) -> bool {
    refusing.arm(nth);
    let result = market.apply(message);
    let is_refused = refusing.has_refused();
    let refused = Refusal::OutOfMemory;
    same(rt, result, if is_refused { Err(refused) } else { Ok(()) });
    is_refused
}

// Checks the content of the market.
fn holds<B: OrderBook>(
    rt: &impl Host,
    market: &Market<B>,
    content: &Content,
) -> Result<(), AllocError> {
    same(rt, &content_of(rt, market)?, content);
    Ok(())
}

// Applies a message with each of its allocations refused in turn, and then with memory. Returns how many were refused.
fn refuse_to_apply<B: OrderBook>(
    rt: &impl Host,
    refusing: &Refusing<Global>,
    market: &mut Market<B>,
    message: &Message<'_>,
) -> Result<u64, AllocError> {
    let before = content_of(rt, market)?;
    for nth in 0..16 {
        if !refuse_one(rt, refusing, market, message, nth) {
            return Ok(nth);
        }
        holds(rt, market, &before)?;
    }
    panic!(rt; "more than 16 allocations")
}

// Applies forty messages in this way: that of `payload`, with the numbers at these places counting up from 1.
fn refuse_forty<B: OrderBook>(
    rt: &impl Host,
    refusing: &Refusing<Global>,
    market: &mut Market<B>,
    payload: &[u8],
    places: &[usize],
) -> Result<u64, Fail> {
    let mut refused = 0u64;
    for number in 1..41u8 {
        let mut payload = Vec::from_slice(rt.alloc(), payload)?;
        for place in places {
            if let Some(byte) = payload.get_mut(*place) {
                *byte = byte.wrapping_add(number);
            }
        }
        let message = decode(&payload)?;
        let one = refuse_to_apply(rt, refusing, market, &message)?;
        refused = refused.saturating_add(one);
    }
    Ok(refused)
}

// Orders 1 to 40 at 40 prices, and orders 65 to 104 with attribution.
const ADDS: &[u8] = b"A\0\x02\0\0\0\0\0\0\0\0\0\0\0\0\0\0\0\0B\0\0\0dAAPL    \0\x16\xe3\0";

const NAMES: &[u8] = b"F\0\x02\0\0\0\0\0\0\0\0\0\0\0\0\0\0\0\x40S\0\0\0dAAPL    \0\x26\xe3\0ABCD";

// Replacements of orders 1 to 40 by orders 256 apart, at other prices.
const REPLACES: &[u8] =
    b"U\0\x02\0\0\0\0\0\0\0\0\0\0\0\0\0\0\0\0\0\0\0\0\0\0\0\x80\0\0\0d\0\x17\xe3\0";

// Halts of forty market centers, and positions of forty market participants.
const HALTS: &[u8] = b"h\0\x02\0\0\0\0\0\0\0\0AAPL    \0H";

const POSITIONS: &[u8] = b"L\0\x02\0\0\0\0\0\0\0\0ABC\x40AAPL    NNA";

// Checks each growth of a market in this memory. Returns how many allocations of the replacements were refused.
fn refuse_growth<B: OrderBook>(
    rt: &impl Host,
    refusing: &Refusing<Global>,
    memory: B::Alloc,
) -> Result<u64, Fail> {
    let mut market: Market<B> = Market::new(memory);
    for (payload, places, grows) in [
        // Directory entries at locates 2 to 41.
        (AAPL, [2].as_slice(), true),
        (HALTS, &[19], true),
        // Existing data needs no memory.
        (HALTS, &[19], false),
        (POSITIONS, &[14], true),
        (POSITIONS, &[14], false),
        (ADDS, &[18, 35], true),
        (NAMES, &[18, 35], true),
    ] {
        let refused = refuse_forty(rt, refusing, &mut market, payload, places)?;
        same(rt, refused > 0, grows);
    }
    let refused = refuse_forty(rt, refusing, &mut market, REPLACES, &[18, 25, 34])?;
    has_len(rt, market.book(), 80);
    Ok(refused)
}

// The replaced order leaves room.
#[test]
fn a_market_of_a_list_stays_as_it_was(rt: HostRuntime) -> TestResult {
    let refusing = Refusing::new(rt.alloc(), 0);
    let refused = refuse_growth::<ListBook<RefusingMemory<'_>>>(&rt, &refusing, &refusing)?;
    same(&rt, refused, 0);
    Ok(())
}

#[test]
fn a_market_of_an_index_stays_as_it_was(rt: HostRuntime) -> TestResult {
    let refusing = Refusing::new(rt.alloc(), 0);
    let refused = refuse_growth::<IndexedBook<RefusingMemory<'_>>>(&rt, &refusing, &refusing)?;
    assert!(rt; refused > 0);
    Ok(())
}

// Inserts a locate with memory refused, then with memory, and once more. Returns whether it was refused.
fn insert_refused<A: Allocator + Copy>(
    rt: &impl Host,
    refusing: &Refusing<Global>,
    set: &mut LocateSet<A>,
    locate: u16,
) -> Result<bool, AllocError> {
    refusing.arm(0);
    let was_refused = set.insert(locate).is_err();
    if was_refused {
        assert!(rt; !set.contains(locate));
        assert!(rt; set.contains(locate.saturating_sub(1)) || locate == 1);
        set.insert(locate)?;
    }
    assert!(rt; set.contains(locate));
    refusing.arm(0);
    set.insert(locate)?;
    Ok(was_refused)
}

// A set of locates does not change if memory is refused, and a locate that it contains needs none.
#[test]
fn a_set_of_locates_stays_as_it_was(rt: HostRuntime) -> TestResult {
    let refusing = Refusing::new(rt.alloc(), 0);
    let mut set = LocateSet::new(&refusing);
    let mut was_refused = false;
    for locate in 1..41u16 {
        was_refused |= insert_refused(&rt, &refusing, &mut set, locate)?;
    }
    assert!(rt; was_refused);
    // The set of all locates allocates no memory.
    let mut all = LocateSet::all(&refusing);
    refusing.arm(0);
    all.insert(7)?;
    assert!(rt; all.contains(8));
    Ok(())
}

// Replays the day into an empty market whose memory is refused once, and checks that the replay stops there, with the message read and not
// counted. Returns whether memory was refused.
fn stops_at_the_message<B: OrderBook>(
    rt: &impl Host,
    refusing: &Refusing<Global>,
    reader: &mut Blocks<'_>,
    market: &mut Market<B>,
) -> Result<bool, FrameFault> {
    let (count, stop) = replayed(reader, market);
    if !refusing.has_refused() {
        assert!(rt; matches!(stop, Stop::End));
        same(rt, count, 4);
        return Ok(false);
    }
    assert!(rt; matches!(stop, Stop::Rule(Refusal::OutOfMemory)));
    has_len(rt, market.book(), count.saturating_sub(1) as usize);
    let next = (count as usize).saturating_add(1);
    gives(rt, reader, REPLACED.get(next).copied())?;
    Ok(true)
}

// Checks that the next block of a reader is this one.
fn gives(rt: &impl Host, reader: &mut Blocks<'_>, want: Option<&[u8]>) -> Result<(), FrameFault> {
    same(rt, reader.next_block()?, want);
    Ok(())
}

// Does this with a market in this memory.
fn refuse_to_replay<B: OrderBook>(
    rt: &impl Host,
    refusing: &Refusing<Global>,
    memory: B::Alloc,
) -> Result<bool, Fail> {
    let day = blocks(rt.alloc(), REPLACED)?;
    let mut reader = BlockReader::new(rt.alloc(), PieceReader::new(day.written(), 64, None))?;
    let mut market: Market<B> = Market::new(memory);
    Ok(stops_at_the_message(rt, refusing, &mut reader, &mut market)?)
}

// Refuses each allocation of a replay in turn.
fn refuse_each_replay<B: OrderBook>(
    rt: &impl Host,
    refusing: &Refusing<Global>,
    memory: B::Alloc,
) -> TestResult {
    for nth in 0..16 {
        refusing.arm(nth);
        if !refuse_to_replay::<B>(rt, refusing, memory)? {
            assert!(rt; nth > 1);
            return Ok(());
        }
    }
    panic!(rt; "more than 16 allocations")
}

#[test]
fn a_replay_stops_at_the_message(rt: HostRuntime) -> TestResult {
    let refusing = Refusing::new(rt.alloc(), 0);
    refuse_each_replay::<IndexedBook<RefusingMemory<'_>>>(&rt, &refusing, &refusing)
}

#[test]
fn a_replay_over_a_list_stops_at_the_message(rt: HostRuntime) -> TestResult {
    let refusing = Refusing::new(rt.alloc(), 0);
    refuse_each_replay::<ListBook<RefusingMemory<'_>>>(&rt, &refusing, &refusing)
}
