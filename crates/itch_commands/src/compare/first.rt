//! `compare --first`: finds the number of messages after which the markets of two files first differ.
ghost use Rattle.std.specs.Prelude.{◌≡◌, ◌<◌, ◌^◌, ◌↔◌, None, false, is_none, length, IsTrue};
ghost use Rattle.itch_market.specs.SameMarkets.{Same};
ghost use Rattle.itch_day.specs.Passing.{IsLeft, left_by};
ghost use Rattle.itch_market.specs.Takings.{reason_of};
ghost use Rattle.itch_snapshot.specs.Snapshot.{snap};
ghost use Rattle.itch_commands.specs.Changes.{plainest};
ghost use Rattle.itch_commands.specs.Commands.{ComparesFirst};
ghost use Rattle.itch_commands.specs.FirstDifferences.{FindsFirst, first_line, over};
ghost use Rattle.itch_day.specs.Limits.{counted};
ghost use Rattle.itch_commands.specs.Outputs.{WritesOutput};
ghost use Rattle.itch_commands.specs.Readings.{FromBlocks, FromReader};
ghost use Rattle.itch_commands.specs.declared.form.ReportForm.TheVariants.{Text, Json};

use super::tracked::TrackedMarket;
use crate::fault::{Source, ToolFault};
use crate::form::ReportForm;
use crate::line::Line;
use crate::order_book::Book;
use crate::reading::stopped;
use crate::writing::write_text;
use itch_book::OrderBook;
use itch_day::{Limit, PartStop, pass_stop, read_part};
use itch_frame::{BlockReader, CountedRead, CountedWrite};
use itch_market::{Market, Refused, reason_of};
use itch_snapshot::same_market;
use std::alloc::Allocator;

/// Writes `different after N` if the markets of two day files differ after N messages of each, and not after fewer, and returns false.
/// Otherwise it writes `same` and returns true. Once the shorter file ends, its final market is used.
///
/// The files are read side by side: message N of the first and then message N of the second. Nothing is read after the messages that make
/// the difference, so a file is refused only for a fault before them.
pub fn compare_first<
    R: CountedRead + Drop,
    S: CountedRead + Drop,
    A: Allocator + Copy,
    W: CountedWrite,
>(alloc: A, first: R, second: S, out: &mut W) -> Result<bool, ToolFault>
    ensures { ComparesFirst R.remaining R.failures S.remaining S.failures W.contents W.failures Text (counted None) (FromReader first) (FromReader second) out.old result out.new }
{
    let mut first = BlockReader::new(alloc, first)?;
    let mut second = BlockReader::new(alloc, second)?;
    compare_first_blocks::<_, _, _, _, Book<A>, _>(
        alloc,
        &mut first,
        &mut second,
        Limit::whole(),
        ReportForm::Text,
        out,
    )
}

/// Does the same over readers of blocks, for the same part of two day files, and in any form. The readers are left where the reading ended.
pub fn compare_first_blocks<
    R: CountedRead,
    S: CountedRead,
    A: Allocator,
    C: Allocator,
    B: OrderBook,
    W: CountedWrite,
>(
    alloc: B::Alloc,
    first: &mut BlockReader<R, A>,
    second: &mut BlockReader<S, C>,
    limit: Limit,
    form: ReportForm,
    out: &mut W,
) -> Result<bool, ToolFault>
    ensures { ComparesFirst R.remaining R.failures S.remaining S.failures W.contents W.failures form limit (FromBlocks first.old first.new) (FromBlocks second.old second.new)
        out.old result out.new }
{
    let count = first_difference::<R, S, A, C, B>(alloc, first, second, limit)?;
    write_first(count, form, out)
}

// Returns the least number of messages of each file after which their markets differ.
fn first_difference<R: CountedRead, S: CountedRead, A: Allocator, C: Allocator, B: OrderBook>(
    alloc: B::Alloc,
    first: &mut BlockReader<R, A>,
    second: &mut BlockReader<S, C>,
    limit: Limit,
) -> Result<Option<u64>, ToolFault>
    ensures { FindsFirst R.remaining R.failures S.remaining S.failures limit first.old first.new second.old second.new result }
{
    let mut one: TrackedMarket<B> = TrackedMarket::new(alloc);
    let mut other: TrackedMarket<B> = TrackedMarket::new(alloc);
    let mut one_goes = true;
    let mut other_goes = true;
    for count in 0..limit.most() {
        if !one_goes && !other_goes {
            return Ok(None);
        }
        let mut read = count;
        let mut also_read = count;
        let one_more = Limit {
            after: Some(count + 1),
            until: limit.until,
        };
        if one_goes {
            match read_part(first, &mut read, &mut one, one_more) {
                PartStop::Full => {}
                stop => {
                    one_goes = false;
                    over(
                        first,
                        stop,
                        limit,
                        Source::First,
                        count,
                        &mut one.has_change,
                    )?;
                }
            }
        }
        if other_goes {
            match read_part(second, &mut also_read, &mut other, one_more) {
                PartStop::Full => {}
                stop => {
                    other_goes = false;
                    over(
                        second,
                        stop,
                        limit,
                        Source::Second,
                        count,
                        &mut other.has_change,
                    )?;
                }
            }
        }
        if !still_same(&mut one, &mut other) {
            return Ok(Some(count + 1));
        }
    }
    Ok(None)
}

// Returns the end of the comparison if a file stops after that many messages: none, unless more messages were requested. From then on the
// file changes nothing.
#[cold]
#[inline(never)]
fn over<R: CountedRead, A: Allocator>(
    reader: &mut BlockReader<R, A>,
    stop: PartStop<Refused>,
    limit: Limit,
    file: Source,
    count: u64,
    has_change: &mut bool,
) -> Result<(), ToolFault>
    requires { IsLeft stop reader.old }
    ensures result { result ≡ over (reason_of stop) limit file count }
    ensures reader { reader.new ≡ left_by stop reader.old }
    ensures change { has_change.new ≡ false }
{
    *has_change = false;
    pass_stop(reader, &stop);
    let Some(stop) = reason_of(stop) else {
        return Ok(());
    };
    match stopped(stop, limit.after, file, count) {
        Ok(_count) => Ok(()),
        Err(fault) => Err(fault),
    }
}

// Returns whether two markets are still the same, given that they were before the last changes. They are settled and compared only if the
// changes do not decide it.
#[inline(always)]
fn still_same<B: OrderBook>(one: &mut TrackedMarket<B>, other: &mut TrackedMarket<B>) -> bool
    requires few { length (snap one.old.market) < 10 ^ 19 }
    requires alike { plainest one.old.has_change one.old.change ≡ plainest other.old.has_change other.old.change → Same one.old.market other.old.market }
    ensures same { IsTrue result ↔ Same one.old.market other.old.market }
    ensures one { one.new ≡ one.old }
    ensures other { other.new ≡ other.old }
{
    one.changed_as(other) || settled_same(&mut one.market, &mut other.market)
}

// Returns whether two markets are the same. This is a function of its own so that code for few messages stays out of the loop.
#[cold]
#[inline(never)]
fn settled_same<B: OrderBook>(one: &mut Market<B>, other: &mut Market<B>) -> bool
    requires { length (snap one.old) < 10 ^ 19 }
    ensures same { IsTrue result ↔ Same one.old other.old }
    ensures one { one.new ≡ one.old }
    ensures other { other.new ≡ other.old }
{
    one.settle();
    other.settle();
    same_market(one, other)
}

fn write_first<W: CountedWrite>(
    count: Option<u64>,
    form: ReportForm,
    out: &mut W,
) -> Result<bool, ToolFault>
    ensures { WritesOutput W.contents W.failures (first_line form count) (is_none count) out.old result out.new }
{
    let line = match form {
        ReportForm::Text => text_line(count),
        ReportForm::Json => json_line(count),
    };
    write_text(line.as_bytes(), out)?;
    Ok(count.is_none())
}

fn text_line(count: Option<u64>) -> Line
    ensures { result ≡ first_line Text count }
{
    let mut line = Line::new();
    match count {
        None => line.text(b"same\n"),
        Some(count) => {
            line.text(b"different after ");
            line.number(count);
            line.text(b"\n");
        }
    }
    line
}

fn json_line(count: Option<u64>) -> Line
    ensures { result ≡ first_line Json count }
{
    let mut line = Line::new();
    match count {
        None => line.text(b"{\"same\":true}\n"),
        Some(count) => {
            line.text(b"{\"same\":false,\"after\":");
            line.number(count);
            line.text(b"}\n");
        }
    }
    line
}
