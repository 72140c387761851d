//! Commands over files, with their own files, and their output.
use super::blocks::file;
use itch_commands::book::book;
use itch_commands::canon::canon;
use itch_commands::check::check;
use itch_commands::compare::{compare, compare_first};
use itch_commands::join::join;
use itch_commands::show::show;
use itch_commands::snap::snap;
use itch_commands::{
    Book, BookForm, Command, FeedPart, FileKind, Filters, Limit, OrderForm, PairCommand, Selection,
    ShowForm, Start, ToolFault, perform, perform_pair, read_locates,
};
use itch_frame::BlockReader;
use std::alloc::Global;
use std::test::Fail;
use test_doubles::{FuseWriter, PieceReader};

/// A command over one file.
#[derive(Clone, Copy)]
pub(super) enum Single {
    Check,
    Snap,
    Canon,
    CanonCheck,
    Show,
    ShowChosen,
    ShowColumns,
    ShowSnapshot,
    ShowOrders,
    Cut,
    Book,
    BookLocates,
    SnapStocks,
    BookStocks,
}

/// A command over two files.
#[derive(Clone, Copy)]
pub(super) enum Double {
    Compare,
    CompareFirst,
    Join,
    JoinStocks,
}

pub(super) const DAY: &str = "AAPL ATTRIBUTED_1 BUY_2_OF_200 REPLACE_1_BY_3";

pub(super) const SNAPSHOT: &str = "AAPL BUY_2_OF_200 ATTRIBUTED_3 END_5";

const LINES: &[u8] = b"1 R 1 0 0 [AAPL] 51 4e 100 4e 43 5a20 50 4e 4e 31 4e 0 4e\n\
    2 F 1 0 0 1 B 100 [AAPL] 150.0000 [ABCD]\n\
    3 A 1 0 0 2 B 200 [AAPL] 150.0000\n\
    4 U 1 0 0 1 3 100 150.0000\n";

const AS_CSV: &[u8] = b"locate,stock,side,price,shares,orders\n1,AAPL,B,150.0000,300,2\n";

const CHOSEN_LINES: &[u8] = b"2 F 1 0 00:00:00.000000000 1 B 100 [AAPL] 150.0000 [ABCD]\n\
    4 U 1 0 00:00:00.000000000 1 3 100 150.0000\n";

const COLUMNS: &[u8] =
    b"number,type,stock_locate,tracking_number,time,ns,original_order_reference_number,\
    new_order_reference_number,shares,price\n\
    4,U,1,0,00:00:00.000000000,0,1,3,100,150.0000\n";

const ORDERS_AS_CSV: &[u8] =
    b"number,type,stock_locate,tracking_number,time,ns,order_reference_number,\
    buy_sell_indicator,stock,order_price,shares_before,shares_after,attribution,executed_shares,match_number,\
    printable,execution_price,cancelled_shares,new_order_reference_number,shares,price\n\
    4,U,1,0,00:00:00.000000000,0,1,B,AAPL,150.0000,100,0,ABCD,,,,,,3,100,150.0000\n";

const SNAPSHOT_LINES: &[u8] =
    b"{\"number\":2,\"type\":\"A\",\"stock_locate\":1,\"tracking_number\":0,\
    \"time\":\"00:00:00.000000000\",\"ns\":0,\"order_reference_number\":2,\"buy_sell_indicator\":\"B\",\
    \"shares\":200,\"stock\":\"AAPL\",\"price\":\"150.0000\"}\n\
    {\"number\":4,\"type\":\"G\",\"sequence_number\":5}\n";

/// The result of a command.
pub(super) type CommandResult = Result<bool, ToolFault>;

// These call each command without its contract, so that their callers do not have to know it.
fn checked(alloc: Global, reader: PieceReader<'_>, out: &mut FuseWriter) -> CommandResult {
    check(alloc, reader, out)
}

fn snapped(alloc: Global, reader: PieceReader<'_>, out: &mut FuseWriter) -> CommandResult {
    snap(alloc, reader, None, None, out)
}

fn canonical(
    alloc: Global,
    reader: PieceReader<'_>,
    check: bool,
    out: &mut FuseWriter,
) -> CommandResult {
    canon(alloc, reader, check, out)
}

fn shown(alloc: Global, reader: PieceReader<'_>, out: &mut FuseWriter) -> CommandResult {
    show(alloc, reader, out)
}

fn booked(alloc: Global, reader: PieceReader<'_>, out: &mut FuseWriter) -> CommandResult {
    book(alloc, 1, reader, out)
}

// The readers for a command over two files.
type Files<'a> = (PieceReader<'a>, PieceReader<'a>);

fn compared(alloc: Global, (first, second): Files<'_>, out: &mut FuseWriter) -> CommandResult {
    compare(alloc, first, second, out)
}

fn compared_first(
    alloc: Global,
    (first, second): Files<'_>,
    out: &mut FuseWriter,
) -> CommandResult {
    compare_first(alloc, first, second, out)
}

fn joined(alloc: Global, (snapshot, feed): Files<'_>, out: &mut FuseWriter) -> CommandResult {
    join(alloc, snapshot, feed, None, out)
}

// Returns the result of a command, with the list of the requested locates, if it has one.
fn performed(
    alloc: Global,
    command: Command<'_>,
    list: Option<&str>,
    reader: PieceReader<'_>,
    out: &mut FuseWriter,
) -> CommandResult {
    let set = match list {
        Some(list) => Some(read_locates(alloc, list)?),
        None => None,
    };
    let mut reader = BlockReader::new(alloc, reader)?;
    perform::<_, _, Book<Global>, _>(alloc, command, set.as_ref(), &mut reader, out)
}

fn joined_of_stocks(
    alloc: Global,
    (snapshot, feed): Files<'_>,
    out: &mut FuseWriter,
) -> CommandResult {
    let command = PairCommand::Join {
        part: FeedPart::whole(),
        selection: Selection::Stocks("AAPL"),
    };
    let mut snapshot = BlockReader::new(alloc, snapshot)?;
    let mut feed = BlockReader::new(alloc, feed)?;
    perform_pair::<_, _, _, _, Book<Global>, _>(alloc, command, None, &mut snapshot, &mut feed, out)
}

// The first message.
const FIRST: Start = Start {
    before: 0,
    since: None,
};

// Shows the messages of order 1, of some locates, stocks and types, with names.
const SHOW_CHOSEN: Command<'static> = Command::Show {
    kind: WHOLE,
    form: ShowForm::Named,
    filters: Filters {
        start: FIRST,
        only: Some("1-3"),
        stocks: Some("AAPL"),
        types: Some("FU"),
        reference: Some(1),
    },
};

// The replacements of a stock's orders, as comma-separated values.
const SHOW_COLUMNS: Command<'static> = Command::Show {
    kind: WHOLE,
    form: ShowForm::Csv { kind: b'U' },
    filters: Filters {
        start: FIRST,
        only: None,
        stocks: Some("AAPL"),
        types: Some("U"),
        reference: None,
    },
};

// Shows the orders of a snapshot without attribution, and its End of Snapshot, as JSON.
const SHOW_SNAPSHOT: Command<'static> = Command::Show {
    kind: FileKind::Snapshot,
    form: ShowForm::Json,
    filters: Filters {
        start: FIRST,
        only: None,
        stocks: None,
        types: Some("AG"),
        reference: None,
    },
};

// Shows the orders of the messages of a stock.
const SHOW_ORDERS: Command<'static> = Command::ShowOrders {
    limit: WHOLE_DAY,
    form: OrderForm::Csv,
    filters: Filters {
        start: FIRST,
        only: None,
        stocks: Some("AAPL"),
        types: None,
        reference: None,
    },
};

// Writes the messages of two types unchanged.
const CUT_TYPES: Command<'static> = Command::Cut {
    limit: WHOLE_DAY,
    filters: Filters {
        start: FIRST,
        only: None,
        stocks: None,
        types: Some("FU"),
        reference: None,
    },
};

const BOOK_LOCATES: Command<'static> = Command::Book {
    selection: Selection::Locates("1"),
    depth: None,
    kind: WHOLE,
    form: BookForm::Csv,
};

const BOOK_STOCKS: Command<'static> = Command::Book {
    selection: Selection::Stocks("AAPL"),
    depth: None,
    kind: WHOLE,
    form: BookForm::Csv,
};

const SNAP_STOCKS: Command<'static> = Command::Snap {
    limit: WHOLE_DAY,
    selection: Selection::Stocks("AAPL"),
};

const WHOLE_DAY: Limit = Limit {
    after: None,
    until: None,
};

const WHOLE: FileKind = FileKind::Day(WHOLE_DAY);

/// Performs a command over this file.
pub(super) fn perform_single(
    command: Single,
    alloc: Global,
    bytes: &[u8],
    out: &mut FuseWriter,
) -> CommandResult {
    let reader = PieceReader::new(bytes, 64, None);
    match command {
        Single::Check => checked(alloc, reader, out),
        Single::Snap => snapped(alloc, reader, out),
        Single::Canon => canonical(alloc, reader, false, out),
        Single::CanonCheck => canonical(alloc, reader, true, out),
        Single::Show => shown(alloc, reader, out),
        Single::Book => booked(alloc, reader, out),
        Single::ShowChosen => performed(alloc, SHOW_CHOSEN, Some("1-3"), reader, out),
        Single::ShowColumns => performed(alloc, SHOW_COLUMNS, None, reader, out),
        Single::ShowSnapshot => performed(alloc, SHOW_SNAPSHOT, None, reader, out),
        Single::ShowOrders => performed(alloc, SHOW_ORDERS, None, reader, out),
        Single::Cut => performed(alloc, CUT_TYPES, None, reader, out),
        Single::BookLocates => performed(alloc, BOOK_LOCATES, Some("1"), reader, out),
        Single::SnapStocks => performed(alloc, SNAP_STOCKS, None, reader, out),
        Single::BookStocks => performed(alloc, BOOK_STOCKS, None, reader, out),
    }
}

/// Performs a command over these files.
pub(super) fn perform_double(
    command: Double,
    alloc: Global,
    (first, second): (&[u8], &[u8]),
    out: &mut FuseWriter,
) -> CommandResult {
    let first = PieceReader::new(first, 64, None);
    let files = (first, PieceReader::new(second, 64, None));
    match command {
        Double::Compare => compared(alloc, files, out),
        Double::CompareFirst => compared_first(alloc, files, out),
        Double::Join => joined(alloc, files, out),
        Double::JoinStocks => joined_of_stocks(alloc, files, out),
    }
}

/// Returns the output of a command for its file, which is the day or, for `canon` and `show --snapshot`, the snapshot.
pub(super) fn wanted(alloc: Global, command: Single) -> Result<Vec<u8>, Fail> {
    match command {
        Single::Check => Ok(Vec::from_slice(alloc, b"ok 4 messages\n")?),
        Single::CanonCheck => Ok(Vec::from_slice(alloc, b"canonical\n")?),
        Single::Show => Ok(Vec::from_slice(alloc, LINES)?),
        Single::ShowChosen => Ok(Vec::from_slice(alloc, CHOSEN_LINES)?),
        Single::ShowColumns => Ok(Vec::from_slice(alloc, COLUMNS)?),
        Single::ShowSnapshot => Ok(Vec::from_slice(alloc, SNAPSHOT_LINES)?),
        Single::ShowOrders => Ok(Vec::from_slice(alloc, ORDERS_AS_CSV)?),
        Single::Book => Ok(Vec::from_slice(alloc, b"1 AAPL\nB 150.0000 300 2\n")?),
        Single::BookLocates | Single::BookStocks => Ok(Vec::from_slice(alloc, AS_CSV)?),
        Single::Cut => file(alloc, "ATTRIBUTED_1 REPLACE_1_BY_3"),
        Single::Snap | Single::SnapStocks | Single::Canon => file(alloc, SNAPSHOT),
    }
}
