//! Reads a part of a day.
ghost use Rattle.std.specs.Prelude.{◌≡◌, ℕ, ◌+◌, ◌<◌, ◌≤◌, ◌-◌, ◌^◌, List, true, false, OnOk};
ghost use Rattle.itch_frame.specs.Blocks.{IsBlock};
ghost use Rattle.itch_frame.specs.Reading.{Reading};
ghost use Rattle.itch_day.specs.Limits.{IsLate, IsNotLate, IsBefore};
ghost use Rattle.itch_day.specs.Batches.{StepsAtHand};
ghost use Rattle.itch_day.specs.Parts.{GoesOnTo, ReadsPart, Steps, TakesHeld, TakesPayload, TakesSome, UnlessRefused};
ghost use Rattle.itch_day.specs.Sinks.{Decodes};
ghost use Rattle.itch_day.specs.declared.limit.Limit.{Limit as AnyLimit};
ghost use Rattle.itch_day.specs.declared.stop.PartStop.{PartStop as AnyStop};

use crate::batch::{Batch, first_look, look_ahead};
use crate::limit::Limit;
use crate::not_taken::{NotTaken, stop_of};
use crate::sink::Sink;
use crate::stop::PartStop;
use itch_codec::{CodecFault, MOST_MESSAGES, Message, decode};
use itch_frame::{BlockReader, CountedRead};
use std::alloc::Allocator;

/// Passes the next messages of a day to a sink, up to the first one that is not taken, and returns the reason.
///
/// `count` is the number of messages before the reader's position, and is updated. The message that is not taken, and all messages after it,
/// are left for the next call: to stop at several points of a day, call this once per point with the same reader. Nothing after that message
/// was read.
#[inline(always)]
pub fn read_part<R: CountedRead, A: Allocator, T: Sink>(
    reader: &mut BlockReader<R, A>,
    count: &mut u64,
    sink: &mut T,
    limit: Limit,
) -> PartStop<T::Fault>
    requires ready { T.is_ready sink.old (count.old + 1) }
    requires few { count.old ≤ 10 ^ 19 - 1 }
    ensures reads { ReadsPart R.remaining R.failures T.takes T.refuses limit reader.old reader.new count.old count.new sink.old result sink.new }
    ensures ready { UnlessRefused result (T.is_ready sink.new (count.new + 1)) }
    ensures few { count.new ≤ 10 ^ 19 - 1 }
{
    let mut seen = first_look(*count);
    while *count < limit.most() {
        take_at_hand(reader, count, sink, limit, &mut seen);
        if *count < limit.most() {
            match take_loaded(reader, count, sink, limit) {
                Ok(true) => {}
                Ok(false) => match take_from_input(reader, count, sink, limit) {
                    Ok(()) => {}
                    Err(stop) => return stop,
                },
                Err(why) => return stop_of(why),
            }
        }
    }
    PartStop::Full
}

/// Continues after an earlier part, up to the end of a part that is no smaller.
///
/// Together, the two readings do the same as one reading of this part from where the earlier one began. So several points of a day need only
/// one pass.
pub fn read_further<R: CountedRead, A: Allocator, T: Sink>(
    reader: &mut BlockReader<R, A>,
    count: &mut u64,
    sink: &mut T,
    limit: Limit,
) -> PartStop<T::Fault>
    requires ready { T.is_ready sink.old (count.old + 1) }
    requires few { count.old ≤ 10 ^ 19 - 1 }
    ensures part { ReadsPart R.remaining R.failures T.takes T.refuses limit reader.old reader.new count.old count.new sink.old result sink.new }
    ensures reads { (first : Reading R) → (begun : ℕ) → (t : T) → (before : AnyLimit) → (stop : AnyStop T.Fault)
        → ReadsPart R.remaining R.failures T.takes T.refuses before first reader.old begun count.old t stop sink.old → GoesOnTo before stop count.old limit
        → ReadsPart R.remaining R.failures T.takes T.refuses limit first reader.new begun count.new t result sink.new }
    ensures ready { UnlessRefused result (T.is_ready sink.new (count.new + 1)) }
    ensures few { count.new ≤ 10 ^ 19 - 1 }
{
    read_part(reader, count, sink, limit)
}

// Takes those of the next messages that are in memory and that the sink accepts undecoded, which may be none. The sink has looked at `seen`
// messages.
#[inline(always)]
fn take_at_hand<R: CountedRead, A: Allocator, T: Sink>(
    reader: &mut BlockReader<R, A>,
    count: &mut u64,
    sink: &mut T,
    limit: Limit,
    seen: &mut u64,
)
    requires ready { T.is_ready sink.old (count.old + 1) }
    requires few { count.old ≤ 10 ^ 19 - 1 }
    requires before { IsBefore limit count.old }
    ensures takes { TakesSome R.remaining R.failures T.takes limit reader.old reader.new count.old count.new sink.old sink.new }
    ensures ready { T.is_ready sink.new (count.new + 1) }
    ensures few { count.new ≤ 10 ^ 19 - 1 }
{
    // (only a decoded message shows whether it is late)
    if limit.until.is_some() {
        look_ahead(sink, *count, seen, reader.at_hand());
        return;
    }
    let most = limit.most().min(MOST_MESSAGES);
    let mut batch = Batch {
        sink,
        count: *count,
        most,
        seen: *seen,
    };
    let _used = reader.offer(&mut batch);
    *count = batch.count;
    *seen = batch.seen;
}

// Takes the next message if its block is in memory (true), or returns the reason why it is not taken. If no block is in memory, nothing
// changes.
#[inline(always)]
fn take_loaded<R: CountedRead, A: Allocator, T: Sink>(
    reader: &mut BlockReader<R, A>,
    count: &mut u64,
    sink: &mut T,
    limit: Limit,
) -> Result<bool, NotTaken<T::Fault>>
    requires ready { T.is_ready sink.old (count.old + 1) }
    requires few { count.old ≤ 10 ^ 19 - 1 }
    requires before { IsBefore limit count.old }
    ensures steps { StepsAtHand R.remaining R.failures T.takes T.refuses limit reader.old reader.new count.old count.new sink.old result sink.new }
    ensures ready { OnOk result (T.is_ready sink.new (count.new + 1)) }
{
    if !reader.load_at_hand() {
        return Ok(false);
    }
    match take_held(reader, count, sink, limit) {
        Ok(()) => Ok(true),
        Err(why) => Err(why),
    }
}

// Takes the next message, whose block may have to be read, or returns the reason why it is not taken. This is a separate function, so that
// the loop contains no code that only a few messages need.
#[cold]
#[inline(never)]
fn take_from_input<R: CountedRead, A: Allocator, T: Sink>(
    reader: &mut BlockReader<R, A>,
    count: &mut u64,
    sink: &mut T,
    limit: Limit,
) -> Result<(), PartStop<T::Fault>>
    requires ready { T.is_ready sink.old (count.old + 1) }
    requires few { count.old ≤ 10 ^ 19 - 1 }
    requires before { IsBefore limit count.old }
    ensures steps { Steps R.remaining R.failures T.takes T.refuses limit reader.old reader.new count.old count.new sink.old result sink.new }
    ensures ready { OnOk result (T.is_ready sink.new (count.new + 1)) }
{
    match reader.load() {
        Ok(true) => {}
        Ok(false) => return Err(PartStop::End),
        Err(fault) => return Err(PartStop::Frame(fault)),
    }
    match take_held(reader, count, sink, limit) {
        Ok(()) => Ok(()),
        Err(why) => Err(stop_of(why)),
    }
}

// Takes the message of the loaded block and passes the block, or returns the reason why the message is not taken.
#[inline(always)]
fn take_held<R: CountedRead, A: Allocator, T: Sink>(
    reader: &mut BlockReader<R, A>,
    count: &mut u64,
    sink: &mut T,
    limit: Limit,
) -> Result<(), NotTaken<T::Fault>>
    requires held { IsBlock reader.old.held }
    requires ready { T.is_ready sink.old (count.old + 1) }
    requires few { count.old ≤ 10 ^ 19 - 1 }
    ensures takes { TakesHeld T.takes T.refuses limit reader.old reader.new count.old count.new sink.old result sink.new }
    ensures ready { OnOk result (T.is_ready sink.new (count.new + 1)) }
{
    let payload = reader.payload();
    if payload.is_empty() {
        return Err(NotTaken::Ended);
    }
    match take(count, sink, payload, limit) {
        Ok(()) => {
            reader.pass();
            Ok(())
        }
        Err(why) => Err(why),
    }
}

// Takes the message of a payload, or returns the reason why it is not taken.
#[inline(always)]
fn take<T: Sink>(
    count: &mut u64,
    sink: &mut T,
    payload: &[u8],
    limit: Limit,
) -> Result<(), NotTaken<T::Fault>>
    requires ready { T.is_ready sink.old (count.old + 1) }
    requires few { count.old ≤ 10 ^ 19 - 1 }
    ensures takes { TakesPayload T.takes T.refuses limit payload.now count.old count.new sink.old result sink.new }
    ensures ready { OnOk result (T.is_ready sink.new (count.new + 1)) }
{
    if *count == MOST_MESSAGES {
        return Err(NotTaken::TooMany);
    }
    let message = decode(payload);
    if is_late(limit, &message) {
        return Err(NotTaken::Late);
    }
    match sink.take(*count + 1, payload, &message) {
        Ok(()) => {
            *count += 1;
            Ok(())
        }
        Err(why) => Err(NotTaken::Refused(why)),
    }
}

// Returns whether a decoded payload is a late message.
#[inline(always)]
fn is_late(limit: Limit, message: &Result<Message<'_>, CodecFault>) -> bool
    ensures late { result ≡ true → (payload : List ℕ) → Decodes payload message.now → IsLate limit payload }
    ensures early { result ≡ false → (payload : List ℕ) → Decodes payload message.now → IsNotLate limit payload }
{
    match message {
        Ok(message) => limit.is_late(message),
        Err(_fault) => false,
    }
}
