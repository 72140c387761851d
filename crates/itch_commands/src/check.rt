//! `check`: checks that a file follows the order rules.
ghost use Rattle.std.specs.Prelude.{◌≡◌, None, true};
ghost use Rattle.itch_commands.specs.Commands.{Checks};
ghost use Rattle.itch_commands.specs.Expectations.{nothing};
ghost use Rattle.itch_commands.specs.Forms.{count_line};
ghost use Rattle.itch_day.specs.Limits.{counted};
ghost use Rattle.itch_commands.specs.Outputs.{WritesOutput};
ghost use Rattle.itch_commands.specs.Readings.{FromBlocks, FromReader};
ghost use Rattle.itch_commands.specs.declared.form.ReportForm.TheVariants.{Text};

use crate::expected::Expectations;
use crate::fault::{Source, ToolFault};
use crate::form::ReportForm;
use crate::line::Line;
use crate::order_book::Book;
use crate::reading::read_market;
use crate::writing::write_text;
use itch_book::OrderBook;
use itch_day::Limit;
use itch_frame::{BlockReader, CountedRead, CountedWrite};
use itch_market::Market;
use std::alloc::Allocator;

/// Writes `ok N messages` if the file's N messages follow the order rules.
pub fn check<R: CountedRead + Drop, A: Allocator + Copy, W: CountedWrite>(
    alloc: A,
    reader: R,
    out: &mut W,
) -> Result<bool, ToolFault>
    ensures { Checks R.remaining R.failures W.contents W.failures Text (counted None) nothing (FromReader reader) out.old result out.new }
{
    let mut reader = BlockReader::new(alloc, reader)?;
    check_blocks::<_, _, Book<A>, _>(
        alloc,
        &mut reader,
        Limit::whole(),
        Expectations::nothing(),
        ReportForm::Text,
        out,
    )
}

/// Does the same over a reader of blocks, for any part of the file, and in any form. The reader is left where the reading ended.
///
/// The part must also meet the expectations: otherwise the fault is `Short` or `UnmetExpectation`, and nothing is written.
pub fn check_blocks<R: CountedRead, A: Allocator, B: OrderBook, W: CountedWrite>(
    alloc: B::Alloc,
    reader: &mut BlockReader<R, A>,
    limit: Limit,
    expected: Expectations,
    form: ReportForm,
    out: &mut W,
) -> Result<bool, ToolFault>
    ensures { Checks R.remaining R.failures W.contents W.failures form limit expected (FromBlocks reader.old reader.new) out.old result out.new }
{
    let mut market: Market<B> = Market::new(alloc);
    let count = read_market(reader, &mut market, limit, Source::Only)?;
    expected.check(count, market.phase())?;
    write_count(count, form, out)
}

fn write_count<W: CountedWrite>(
    count: u64,
    form: ReportForm,
    out: &mut W,
) -> Result<bool, ToolFault>
    ensures { WritesOutput W.contents W.failures (count_line form count) true out.old result out.new }
{
    write_text(count_line(count, form).as_bytes(), out)?;
    Ok(true)
}

fn count_line(count: u64, form: ReportForm) -> Line
    ensures { result ≡ count_line form count }
{
    let mut line = Line::new();
    match form {
        ReportForm::Text => {
            line.text(b"ok ");
            line.number(count);
            line.text(b" messages\n");
        }
        ReportForm::Json => {
            line.text(b"{\"messages\":");
            line.number(count);
            line.text(b"}\n");
        }
    }
    line
}
