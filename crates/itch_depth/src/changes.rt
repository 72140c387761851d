//! The best prices of one stock after each message that changes them.
ghost use Rattle.std.specs.Prelude.{◌≡◌};
ghost use Rattle.itch_market.specs.Content.{empty};
ghost use Rattle.itch_depth.specs.Following.{FollowsDay, FollowsPart, IsFollowing, answer_of};

mod best;
mod book;
mod changed_price;
mod lines;
mod request;
mod sink;

use book::{Followed, Unfollowed};
use itch_book::OrderBook;
use itch_commands::{Limit, Source, ToolFault};
use itch_day::{PartStop, pass_stop, read_part};
use itch_frame::{BlockReader, CountedRead, CountedWrite};
use itch_market::{Refused, ReplayEnd, Stop};
use lines::write_head;
pub use request::{ChangesRequest, OneStock};
use sink::ChangeLines;
use std::alloc::Allocator;

/// Writes the best prices of one stock after each message of a part of a day file that changes them, with the number of the message and its
/// time. They are those of `book` for the part of the file up to that message.
///
/// The messages are applied to a market with a book of type `B`. If one is refused, the lines before it have been written, and the fault is
/// that of `check`. `UnknownLocate` or `UnknownStock` if the directory at the end of the part lacks the stock: then there are no lines. If
/// several locates have the stock, it is the first of them.
pub fn book_changes<R: CountedRead + Drop, A: Allocator, B: OrderBook, W: CountedWrite>(
    alloc: B::Alloc,
    request: ChangesRequest<'_>,
    limit: Limit,
    reader: BlockReader<R, A>,
    out: &mut W,
) -> Result<bool, ToolFault>
    ensures { FollowsDay W.contents W.failures R.remaining R.failures limit request.entry reader out.old result out.new }
{
    write_head(request.form, request.depth, out)?;
    let mut reader = reader;
    follow_part::<R, A, B, W>(alloc, &mut reader, limit, request, out)
}

// Writes the lines below the heading.
fn follow_part<R: CountedRead, A: Allocator, B: OrderBook, W: CountedWrite>(
    alloc: B::Alloc,
    reader: &mut BlockReader<R, A>,
    limit: Limit,
    request: ChangesRequest<'_>,
    out: &mut W,
) -> Result<bool, ToolFault>
    ensures { FollowsPart W.contents W.failures R.remaining R.failures limit request.entry reader.old reader.new out.old result out.new }
{
    let mut followed: Followed<B> = Followed::new(alloc);
    write_changes(reader, limit, request, &mut followed, out)
}

// Does the same with the market before any message.
fn write_changes<R: CountedRead, A: Allocator, B: OrderBook, W: CountedWrite>(
    reader: &mut BlockReader<R, A>,
    limit: Limit,
    request: ChangesRequest<'_>,
    followed: &mut Followed<B>,
    out: &mut W,
) -> Result<bool, ToolFault>
    requires market { followed.old.market ≡ empty }
    requires following { IsFollowing request followed.old.market followed.old.own followed.old.locate followed.old.best }
    ensures { FollowsPart W.contents W.failures R.remaining R.failures limit request.entry reader.old reader.new out.old result out.new }
{
    let mut lines = ChangeLines {
        out,
        request: &request,
        followed,
    };
    follow_from(reader, limit, &mut lines)
}

// Does the same with the sink of its lines.
fn follow_from<R: CountedRead, A: Allocator, B: OrderBook, W: CountedWrite>(
    reader: &mut BlockReader<R, A>,
    limit: Limit,
    lines: &mut ChangeLines<'_, '_, '_, '_, B, W>,
) -> Result<bool, ToolFault>
    requires market { lines.old.followed.now.market ≡ empty }
    requires following { IsFollowing lines.old.request.now lines.old.followed.now.market lines.old.followed.now.own lines.old.followed.now.locate lines.old.followed.now.best }
    ensures follows { FollowsPart W.contents W.failures R.remaining R.failures limit lines.old.request.now reader.old reader.new lines.old.out.now result lines.new.out.now }
    ensures names { (lines.new.out.ghost_name ≡ lines.old.out.ghost_name) × (lines.new.followed.ghost_name ≡ lines.old.followed.ghost_name) }
    ensures request { lines.new.request.now ≡ lines.old.request.now }
{
    let mut count = 0;
    let stop = read_part(reader, &mut count, lines, limit);
    pass_stop(reader, &stop);
    let found = lines.found();
    answer(stop, limit.after, count, found)
}

// Returns the result if a part ends. The end of the file is not a fault, unless more messages were requested.
fn answer(
    stop: PartStop<Unfollowed>,
    wanted: Option<u64>,
    count: u64,
    found: Result<bool, ToolFault>,
) -> Result<bool, ToolFault>
    ensures { result ≡ answer_of wanted count found stop }
{
    match stop {
        PartStop::Full | PartStop::Late => found,
        PartStop::End => match wanted {
            None => found,
            Some(_) => Err(ToolFault::Short {
                file: Source::Only,
                count,
            }),
        },
        PartStop::Frame(fault) => Err(stopped(count, Stop::Frame(fault))),
        PartStop::TooMany => Err(stopped(count, Stop::TooManyMessages)),
        PartStop::Refused(Unfollowed::Refused(Refused::Codec(fault))) => {
            Err(stopped(count, Stop::Codec(fault)))
        }
        PartStop::Refused(Unfollowed::Refused(Refused::Rule(why))) => {
            Err(stopped(count, Stop::Rule(why)))
        }
        PartStop::Refused(Unfollowed::Write(error)) => Err(ToolFault::Write(error)),
        PartStop::Refused(Unfollowed::OutOfMemory) => Err(ToolFault::OutOfMemory),
    }
}

// Returns the fault of a file that stops after this many messages.
fn stopped(count: u64, stop: Stop) -> ToolFault
    ensures { result ≡ ToolFault.Stopped Source.Only (record { count = count; stop = stop }) }
{
    ToolFault::Stopped {
        file: Source::Only,
        end: ReplayEnd { count, stop },
    }
}
