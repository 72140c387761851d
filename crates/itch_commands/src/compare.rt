//! `compare`: checks whether two files leave the same market.
ghost use Rattle.std.specs.Prelude.{◌≡◌, None, is_none};
ghost use Rattle.itch_commands.specs.Commands.{Compares};
ghost use Rattle.itch_commands.specs.Comparing.{place_line};
ghost use Rattle.itch_commands.specs.Forms.{verdict_line};
ghost use Rattle.itch_day.specs.Limits.{counted};
ghost use Rattle.itch_commands.specs.Outputs.{WritesOutput};
ghost use Rattle.itch_commands.specs.Readings.{FromBlocks, FromReader};
ghost use Rattle.itch_commands.specs.declared.form.ReportForm.TheVariants.{Text, Json};
ghost use Rattle.itch_commands.specs.declared.kind.FileKind.TheVariants.{Day};

mod first;
mod tracked;

use crate::fault::{Source, ToolFault};
use crate::form::ReportForm;
use crate::kind::{FileKind, file_market};
use crate::line::Line;
use crate::order_book::Book;
use crate::writing::write_text;
pub use first::{compare_first, compare_first_blocks};
use itch_book::OrderBook;
use itch_codec::Seq;
use itch_day::Limit;
use itch_frame::{BlockReader, CountedRead, CountedWrite};
use itch_market::Market;
use itch_snapshot::part_place;
use std::alloc::Allocator;

/// Writes `same` if two day files leave the same market, and returns true. Otherwise it writes `different at N`, and returns false: N is
/// the place of the first message, counted from 1, in which the snapshots of the two markets differ; if one is a prefix of the other, it is
/// the length of that one plus 1.
///
/// The first file is read completely before the second.
pub fn compare<R: CountedRead + Drop, S: CountedRead + Drop, A: Allocator + Copy, W: CountedWrite>(
    alloc: A,
    first: R,
    second: S,
    out: &mut W,
) -> Result<bool, ToolFault>
    ensures { Compares R.remaining R.failures S.remaining S.failures W.contents W.failures Text (Day (counted None)) (FromReader first) (FromReader second) out.old result out.new }
{
    let mut first = BlockReader::new(alloc, first)?;
    let mut second = BlockReader::new(alloc, second)?;
    compare_blocks::<_, _, _, _, Book<A>, _>(
        alloc,
        &mut first,
        &mut second,
        FileKind::Day(Limit::whole()),
        ReportForm::Text,
        out,
    )
}

/// Does the same over readers of blocks, for two snapshot files or the same part of two day files, and in any form. The readers are left
/// where the reading ended. If the first file is refused, nothing is read of the second.
pub fn compare_blocks<
    R: CountedRead,
    S: CountedRead,
    A: Allocator,
    C: Allocator,
    B: OrderBook,
    W: CountedWrite,
>(
    alloc: B::Alloc,
    first: &mut BlockReader<R, A>,
    second: &mut BlockReader<S, C>,
    kind: FileKind,
    form: ReportForm,
    out: &mut W,
) -> Result<bool, ToolFault>
    ensures { Compares R.remaining R.failures S.remaining S.failures W.contents W.failures form kind (FromBlocks first.old first.new) (FromBlocks second.old second.new)
        out.old result out.new }
{
    let (one, _): (Market<B>, Seq) = file_market(alloc, first, kind, Source::First)?;
    let (other, _): (Market<B>, Seq) = file_market(alloc, second, kind, Source::Second)?;
    write_verdict(part_place(&one, &other), form, out)
}

fn write_verdict<W: CountedWrite>(
    place: Option<u64>,
    form: ReportForm,
    out: &mut W,
) -> Result<bool, ToolFault>
    ensures { WritesOutput W.contents W.failures (verdict_line form place) (is_none place) out.old result out.new }
{
    let line = match form {
        ReportForm::Text => place_line(place),
        ReportForm::Json => json_line(place),
    };
    write_text(line.as_bytes(), out)?;
    Ok(place.is_none())
}

fn json_line(place: Option<u64>) -> Line
    ensures { result ≡ verdict_line Json place }
{
    let mut line = Line::new();
    match place {
        None => line.text(b"{\"same\":true}\n"),
        Some(place) => {
            line.text(b"{\"same\":false,\"place\":");
            line.number(place);
            line.text(b"}\n");
        }
    }
    line
}

fn place_line(place: Option<u64>) -> Line
    ensures { result ≡ place_line place }
{
    let mut line = Line::new();
    match place {
        None => line.text(b"same\n"),
        Some(place) => {
            line.text(b"different at ");
            line.number(place);
            line.text(b"\n");
        }
    }
    line
}
