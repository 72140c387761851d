//! Reads snapshots from a reader.
ghost use Rattle.std.specs.Prelude.{◌≡◌, ℕ, ◌-◌, ◌^◌, List, [], IfSome, IfOk, IfErr, MatchResult};
ghost use Rattle.std.specs.Option.{option_copied};
ghost use Rattle.itch_codec.specs.declared.message.Message.{Message};
ghost use Rattle.itch_frame.specs.Blocks.{IsBlock, IsBlockOf};
ghost use Rattle.itch_frame.specs.Reading.{bytes_left};
ghost use Rattle.itch_frame.specs.declared.reader.BlockStage.TheVariants.{Given};
ghost use Rattle.itch_market.specs.Content.{empty, laid};
ghost use Rattle.itch_market.specs.Runs.{run};
ghost use Rattle.itch_snapshot.specs.Files.{IsSnapshotFile, IsMarketOf, IsFaultOf};
ghost use Rattle.itch_snapshot.specs.AsRead.{ReadsAs, ReadsMarket, read_by};
ghost use Rattle.itch_snapshot.specs.Reads.{ReadsEnd, ReadsSnapshot, CountsFault, IsDecidedFault};
ghost use Rattle.itch_snapshot.specs.SnapshotSinks.{end_of, last_of};
ghost use Rattle.itch_snapshot.specs.TakenMessages.{TakesFor};

use crate::fault::SnapFault;
use crate::sink::{SnapshotEnd, SnapshotSink};
use itch_book::OrderBook;
use itch_codec::{MOST_MESSAGES, Seq, decode};
use itch_day::{Limit, PartStop, pass_stop, read_part};
use itch_frame::{BlockReader, CountedRead};
use itch_market::{LocateSet, Market};
use std::alloc::Allocator;

/// Reads a snapshot file (GLIMPSE 5.0) into a new market, and returns it with the number of the first message that it does not contain. After
/// the End of Snapshot the input ends, or a block of length 0 follows, after which nothing is read.
///
/// # Errors
///
/// `NoEnd` if the blocks end before the End of Snapshot, `Codec` or `Rule` for the first message that is not taken, `TooManyMessages` after
/// 10^19 - 1 messages without an End of Snapshot, `AfterEnd` for a block after it, and `Frame` for a failed read or an unfinished block. If
/// memory runs out, the fault is `Rule` with the reason `OutOfMemory`. A fault returns no market.
pub fn read_snapshot<R: CountedRead, A: Allocator, B: OrderBook>(
    alloc: B::Alloc,
    reader: &mut BlockReader<R, A>,
) -> Result<(Market<B>, Seq), SnapFault>
    // The result depends only on the file, unless a read failed or memory ran out.
    ensures file { IfSome (bytes_left R.remaining reader.old) (λ bytes. (ms : List Message) → (next : ℕ) → IsSnapshotFile bytes ms next
        → MatchResult result (λ done. done ≡ (laid (run ms), next)) (λ fault. ¬ IsDecidedFault fault)) }
    ensures market { IfOk result (λ done. IfSome (bytes_left R.remaining reader.old) (λ bytes. IsMarketOf bytes done)) }
    ensures fault { IfErr result (λ fault. IfSome (bytes_left R.remaining reader.old) (λ bytes. IsDecidedFault fault → IsFaultOf bytes fault)) }
    // The bytes that were read and those that were not, and the meaning of each fault.
    ensures steps { ReadsSnapshot (bytes_left R.remaining reader.old) (bytes_left R.remaining reader.new) result }
    ensures failures { MatchResult result (λ _. R.failures reader.new.reader ≡ R.failures reader.old.reader)
        (λ fault. CountsFault fault (R.failures reader.old.reader) (R.failures reader.new.reader)) }
{
    let read = read_messages(alloc, reader, None)?;
    read_end(reader)?;
    Ok(read)
}

/// Reads the messages of a snapshot file into a new market, up to its End of Snapshot, and returns it with the number of the first message
/// that it does not contain. With a set of locates, messages at other locates change nothing. The bytes after the End of Snapshot are left in
/// the reader.
///
/// The faults are those of [`read_snapshot`], except for `AfterEnd`.
pub fn read_messages<'a, R: CountedRead, A: Allocator, B: OrderBook>(
    alloc: B::Alloc,
    reader: &'a mut BlockReader<R, A>,
    set: Option<&'a LocateSet<B::Alloc>>,
) -> Result<(Market<B>, Seq), SnapFault>
    ensures steps { ReadsMarket (read_by (option_copied set.entry)) (bytes_left R.remaining reader.old) (bytes_left R.remaining reader.new) result }
    ensures failures { MatchResult result (λ _. R.failures reader.new.reader ≡ R.failures reader.old.reader)
        (λ fault. CountsFault fault (R.failures reader.old.reader) (R.failures reader.new.reader)) }
{
    let market = Market::new(alloc);
    let mut sink = SnapshotSink { market, set };
    let next = read_all(reader, &mut sink)?;
    Ok((sink.market, next))
}

// Applies the messages of a file to an empty market.
fn read_all<R: CountedRead, A: Allocator, B: OrderBook>(
    reader: &mut BlockReader<R, A>,
    sink: &mut SnapshotSink<'_, B>,
) -> Result<Seq, SnapFault>
    requires { sink.old.market ≡ empty }
    ensures steps { ReadsAs (read_by (option_copied sink.old.set)) (bytes_left R.remaining reader.old) (bytes_left R.remaining reader.new) result sink.new.market }
    ensures failures { MatchResult result (λ _. R.failures reader.new.reader ≡ R.failures reader.old.reader)
        (λ fault. CountsFault fault (R.failures reader.old.reader) (R.failures reader.new.reader)) }
{
    let mut count = 0;
    let stop = read_part(reader, &mut count, sink, Limit::whole());
    if let PartStop::TooMany = stop {
        return read_last(reader, sink);
    }
    pass_stop(reader, &stop);
    end_of(&stop)
}

// Takes the message after the maximum number of others: an End of Snapshot, or one message too many.
fn read_last<R: CountedRead, A: Allocator, B: OrderBook>(
    reader: &mut BlockReader<R, A>,
    sink: &mut SnapshotSink<'_, B>,
) -> Result<Seq, SnapFault>
    requires { IsBlock reader.old.held }
    ensures reader { reader.new ≡ record { reader = reader.old.reader; held = []; stage = Given } }
    ensures takes { (payload : List ℕ) → IsBlockOf payload reader.old.held → TakesFor sink.old.set (10 ^ 19 - 1) sink.old.market payload (last_of result) sink.new.market }
{
    let last = sink.apply(&decode(reader.payload()), MOST_MESSAGES);
    reader.pass();
    match last? {
        Some(next) => Ok(next),
        None => unreachable!(),
    }
}

// Returns the result when the reading of the file stops.
fn end_of(stop: &PartStop<SnapshotEnd>) -> Result<Seq, SnapFault>
    ensures { result ≡ end_of stop.now }
{
    match stop {
        PartStop::Full | PartStop::Late | PartStop::End => Err(SnapFault::NoEnd),
        PartStop::Frame(fault) => Err(SnapFault::Frame(*fault)),
        PartStop::TooMany => Err(SnapFault::TooManyMessages),
        PartStop::Refused(SnapshotEnd::Closed(next)) => Ok(*next),
        PartStop::Refused(SnapshotEnd::Broken(fault)) => Err(*fault),
    }
}

// Reads the rest after an End of Snapshot: no bytes, or an empty block.
fn read_end<R: CountedRead, A: Allocator>(reader: &mut BlockReader<R, A>) -> Result<(), SnapFault>
    ensures step { ReadsEnd (bytes_left R.remaining reader.old) (bytes_left R.remaining reader.new) result }
    ensures failures { MatchResult result (λ _. R.failures reader.new.reader ≡ R.failures reader.old.reader)
        (λ fault. CountsFault fault (R.failures reader.old.reader) (R.failures reader.new.reader)) }
{
    match reader.next_message()? {
        Some(_) => Err(SnapFault::AfterEnd),
        None => Ok(()),
    }
}
