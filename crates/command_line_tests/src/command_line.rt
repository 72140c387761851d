//! The parsing of the command line.
mod live;
mod sessions;

use crate::equal::{Host, TestResult, holds_in, same_in};
use itchsnap_cli::command_line::{Job, read_job};
use std::alloc::{AllocError, Global};
use std::test::Fail;

// Returns the program's name, followed by these words.
pub(crate) fn arguments(alloc: Global, line: &str) -> Result<Vec<String>, AllocError> {
    let mut arguments: Vec<String> = vec![in alloc; String::from_str(alloc, "itchsnap")?]?;
    for word in line.split_whitespace() {
        arguments.push(String::from_str(alloc, word)?)?;
    }
    Ok(arguments)
}

// Returns the request of a command line, as `{:?}` shows it, or the reason why there is none: a job with all its types cannot be a value of
// a test.
pub(crate) fn asked(alloc: Global, arguments: &[String]) -> Result<String, Fail> {
    let job = read_job(alloc, arguments, false, None);
    match &job {
        Ok(job) => shown(alloc, job),
        Err(_) => Err(Fail::from("a usage fault")),
    }
}

fn shown(alloc: Global, job: &Job<'_>) -> Result<String, Fail> {
    Ok(format!(in alloc; "{job:?}")?)
}

// A command line has this request.
pub(crate) fn ask_for(rt: &impl Host, line: &str, wanted: &str) -> TestResult {
    let arguments = arguments(rt.alloc(), line)?;
    let found = asked(rt.alloc(), arguments.as_slice())?;
    same_in(rt, line, found.as_str(), wanted);
    Ok(())
}

// Splits a row of a table: the command line and, after an arrow, its request.
pub(crate) fn columns(row: &str) -> Result<(&str, &str), Fail> {
    Ok(row.split_once(" => ").ok_or("two columns")?)
}

// Command lines without the program's name, and their requests.
const REQUESTS: [&str; 51] = [
    "snap => One { file: None, command: Snap { limit: Limit { after: None, until: None }, selection: All } }",
    "snap day.itch => One { file: Some(\"day.itch\"), command: Snap { limit: Limit { after: None, until: None }, selection: All } }",
    "snap day.itch --after 0 => One { file: Some(\"day.itch\"), command: Snap { limit: Limit { after: Some(0), until: None }, selection: All } }",
    "snap --after 007 day.itch => One { file: Some(\"day.itch\"), command: Snap { limit: Limit { after: Some(7), until: None }, selection: All } }",
    "snap --after 999999999999 => One { file: None, command: Snap { limit: Limit { after: Some(999999999999), until: None }, selection: All } }",
    "snap day.itch --only 1,2 --after 3 => One { file: Some(\"day.itch\"), command: Snap { limit: Limit { after: Some(3), until: None }, selection: Locates(\"1,2\") } }",
    "check - => One { file: None, command: Check { limit: Limit { after: None, until: None }, expected: Expectations { count: None, end: false }, form: Text } }",
    "check day.itch => One { file: Some(\"day.itch\"), command: Check { limit: Limit { after: None, until: None }, expected: Expectations { count: None, end: false }, form: Text } }",
    "check --expect 007 --ended --after 5 => One { file: None, command: Check { limit: Limit { after: Some(5), until: None }, expected: Expectations { count: Some(7), end: true }, form: Text } }",
    "info day.itch => One { file: Some(\"day.itch\"), command: Info { limit: Limit { after: None, until: None }, form: Text } }",
    "info - --json --after 3 --until 9:30 => One { file: None, command: Info { limit: Limit { after: Some(3), until: Some(34200000000000) }, form: Json } }",
    "show day.itch => One { file: Some(\"day.itch\"), command: Show { kind: Day(Limit { after: None, until: None }), form: Text, filters: Filters { start: Start { before: 0, since: None }, only: None, stocks: None, types: None, reference: None } } }",
    "show --names --reference 18446744073709551615 => One { file: None, command: Show { kind: Day(Limit { after: None, until: None }), form: Named, filters: Filters { start: Start { before: 0, since: None }, only: None, stocks: None, types: None, reference: Some(18446744073709551615) } } }",
    "show - --json --snapshot => One { file: None, command: Show { kind: Snapshot, form: Json, filters: Filters { start: Start { before: 0, since: None }, only: None, stocks: None, types: None, reference: None } } }",
    "show --only 1-3 --stock MSFT,AAPL --types AEX --reference 007 => One { file: None, command: Show { kind: Day(Limit { after: None, until: None }), form: Text, filters: Filters { start: Start { before: 0, since: None }, only: Some(\"1-3\"), stocks: Some(\"MSFT,AAPL\"), types: Some(\"AEX\"), reference: Some(7) } } }",
    "show --orders day.itch => One { file: Some(\"day.itch\"), command: ShowOrders { limit: Limit { after: None, until: None }, form: Text, filters: Filters { start: Start { before: 0, since: None }, only: None, stocks: None, types: None, reference: None } } }",
    "show --orders --csv --after 2 --until 7 --stock AAPL => One { file: None, command: ShowOrders { limit: Limit { after: Some(2), until: Some(7) }, form: Csv, filters: Filters { start: Start { before: 0, since: None }, only: None, stocks: Some(\"AAPL\"), types: None, reference: None } } }",
    "show --csv --types A --after 2 --stock AAPL => One { file: None, command: Show { kind: Day(Limit { after: Some(2), until: None }), form: Csv { kind: 65 }, filters: Filters { start: Start { before: 0, since: None }, only: None, stocks: Some(\"AAPL\"), types: Some(\"A\"), reference: None } } }",
    "show --json --orders --reference 7 => One { file: None, command: ShowOrders { limit: Limit { after: None, until: None }, form: Json, filters: Filters { start: Start { before: 0, since: None }, only: None, stocks: None, types: None, reference: Some(7) } } }",
    "show --from 3 --since 9:30 --until 9:31 => One { file: None, command: Show { kind: Day(Limit { after: None, until: Some(34260000000000) }), form: Text, filters: Filters { start: Start { before: 2, since: Some(34200000000000) }, only: None, stocks: None, types: None, reference: None } } }",
    "show --orders --from 001 - => One { file: None, command: ShowOrders { limit: Limit { after: None, until: None }, form: Text, filters: Filters { start: Start { before: 0, since: None }, only: None, stocks: None, types: None, reference: None } } }",
    "cut day.itch => One { file: Some(\"day.itch\"), command: Cut { limit: Limit { after: None, until: None }, filters: Filters { start: Start { before: 0, since: None }, only: None, stocks: None, types: None, reference: None } } }",
    "cut --from 2 --after 5 --since 7 --until 9 --only 1-3 --stock AAPL --types AE => One { file: None, command: Cut { limit: Limit { after: Some(5), until: Some(9) }, filters: Filters { start: Start { before: 1, since: Some(7) }, only: Some(\"1-3\"), stocks: Some(\"AAPL\"), types: Some(\"AE\"), reference: None } } }",
    "canon => One { file: None, command: Canon { check: false } }",
    "canon day.itch => One { file: Some(\"day.itch\"), command: Canon { check: false } }",
    "canon --check => One { file: None, command: Canon { check: true } }",
    "canon day.itch --check => One { file: Some(\"day.itch\"), command: Canon { check: true } }",
    "canon --check day.itch => One { file: Some(\"day.itch\"), command: Canon { check: true } }",
    "compare a.itch day.itch => Two { first: Some(\"a.itch\"), second: Some(\"day.itch\"), command: Compare { kind: Day(Limit { after: None, until: None }), form: Text } }",
    "compare - day.itch => Two { first: None, second: Some(\"day.itch\"), command: Compare { kind: Day(Limit { after: None, until: None }), form: Text } }",
    "join a.snap day.itch => Two { first: Some(\"a.snap\"), second: Some(\"day.itch\"), command: Join { part: FeedPart { before: 0, limit: Limit { after: None, until: None } }, selection: All } }",
    "join a.snap rest.itch --from 0003 --after 9 --until 7 => Two { first: Some(\"a.snap\"), second: Some(\"rest.itch\"), command: Join { part: FeedPart { before: 2, limit: Limit { after: Some(9), until: Some(7) } }, selection: All } }",
    "join a.snap rest.itch --first-number 3 --after 9 --until 7 => Two { first: Some(\"a.snap\"), second: Some(\"rest.itch\"), command: Join { part: FeedPart { before: 2, limit: Limit { after: Some(9), until: Some(7) } }, selection: All } }",
    "at snapshots day.itch 007 => At { folder: \"snapshots\", feed: Some(\"day.itch\"), point: Limit { after: Some(7), until: None }, selection: All }",
    "at --stock AAPL . - 00:00:00.000000007 => At { folder: \".\", feed: None, point: Limit { after: None, until: Some(7) }, selection: Stocks(\"AAPL\") }",
    "join --only=40 a.snap - => Two { first: Some(\"a.snap\"), second: None, command: Join { part: FeedPart { before: 0, limit: Limit { after: None, until: None } }, selection: Locates(\"40\") } }",
    "book 0 => One { file: None, command: Book { selection: Locates(\"0\"), depth: None, kind: Day(Limit { after: None, until: None }), form: Text } }",
    "book 1 --depth 0 => One { file: None, command: Book { selection: Locates(\"1\"), depth: Some(0), kind: Day(Limit { after: None, until: None }), form: Text } }",
    "show --snapshot day.snap => One { file: Some(\"day.snap\"), command: Show { kind: Snapshot, form: Text, filters: Filters { start: Start { before: 0, since: None }, only: None, stocks: None, types: None, reference: None } } }",
    "compare a.snap - --snapshot --json => Two { first: Some(\"a.snap\"), second: None, command: Compare { kind: Snapshot, form: Json } }",
    "compare --first a.itch day.itch => Two { first: Some(\"a.itch\"), second: Some(\"day.itch\"), command: CompareFirst { limit: Limit { after: None, until: None }, form: Text } }",
    "compare a.itch - --json --after 5 --until 7 --first => Two { first: Some(\"a.itch\"), second: None, command: CompareFirst { limit: Limit { after: Some(5), until: Some(7) }, form: Json } }",
    "check --json => One { file: None, command: Check { limit: Limit { after: None, until: None }, expected: Expectations { count: None, end: false }, form: Json } }",
    "book 1 --json => One { file: None, command: Book { selection: Locates(\"1\"), depth: None, kind: Day(Limit { after: None, until: None }), form: Json } }",
    "book 1 --csv => One { file: None, command: Book { selection: Locates(\"1\"), depth: None, kind: Day(Limit { after: None, until: None }), form: Csv } }",
    "snap day.itch --stock AAPL,MSFT => One { file: Some(\"day.itch\"), command: Snap { limit: Limit { after: None, until: None }, selection: Stocks(\"AAPL,MSFT\") } }",
    "join --stock AAPL a.snap - => Two { first: Some(\"a.snap\"), second: None, command: Join { part: FeedPart { before: 0, limit: Limit { after: None, until: None } }, selection: Stocks(\"AAPL\") } }",
    "book --stock=AAPL --csv day.itch => One { file: Some(\"day.itch\"), command: Book { selection: Stocks(\"AAPL\"), depth: None, kind: Day(Limit { after: None, until: None }), form: Csv } }",
    "book --snapshot - --stock AAPL => One { file: None, command: Book { selection: Stocks(\"AAPL\"), depth: None, kind: Snapshot, form: Text } }",
    "book 1-3,7 --depth 2 => One { file: None, command: Book { selection: Locates(\"1-3,7\"), depth: Some(2), kind: Day(Limit { after: None, until: None }), form: Text } }",
    "book --depth=05 0065535 day.itch => One { file: Some(\"day.itch\"), command: Book { selection: Locates(\"0065535\"), depth: Some(5), kind: Day(Limit { after: None, until: None }), form: Text } }",
];

#[test]
fn requests_are_read(rt: HostRuntime) -> TestResult {
    for row in REQUESTS {
        let (line, request) = columns(row)?;
        let wanted = format!(in rt.alloc();
            "Files {{ request: {request}, progress: false, output: None }}"
        )?;
        ask_for(&rt, line, wanted.as_str())?;
    }
    Ok(())
}

const POINTS: [&str; 5] = [
    "snap --to out day.itch => file: Some(\"day.itch\"), points: At([Limit { after: None, until: None }]), selection: All, folder: \"out\", progress: false",
    "snap --to out --after 0,007,999999999999 => file: None, points: At([Limit { after: Some(0), until: None }, Limit { after: Some(7), until: None }, Limit { after: Some(999999999999), until: None }]), selection: All, folder: \"out\", progress: false",
    "snap - --to=out --until 9,10:30 --only 1-3 => file: None, points: At([Limit { after: None, until: Some(9) }, Limit { after: None, until: Some(37800000000000) }]), selection: Locates(\"1-3\"), folder: \"out\", progress: false",
    "snap --to out --stock AAPL day.itch => file: Some(\"day.itch\"), points: At([Limit { after: None, until: None }]), selection: Stocks(\"AAPL\"), folder: \"out\", progress: false",
    "snap day.itch --every 0010 --progress --to - => file: Some(\"day.itch\"), points: Every(10), selection: All, folder: \"-\", progress: true",
];

#[test]
fn points_are_read(rt: HostRuntime) -> TestResult {
    for row in POINTS {
        let (line, fields) = columns(row)?;
        let wanted = format!(in rt.alloc(); "Points(PointArguments {{ {fields} }})")?;
        ask_for(&rt, line, wanted.as_str())?;
    }
    Ok(())
}

// Returns where a command line sends a snapshot, unless it is a usage fault. Standard output is a terminal, where none is written.
fn sent_to(alloc: Global, line: &str) -> Result<Option<String>, Fail> {
    let arguments = arguments(alloc, line)?;
    match read_job(alloc, arguments.as_slice(), true, None) {
        Ok(job) => Ok(Some(String::from_str(alloc, job.output().unwrap_or("nowhere"))?)),
        Err(_) => Ok(None),
    }
}

#[test]
fn a_snapshot_is_sent_to_a_file(rt: HostRuntime) -> TestResult {
    for row in [
        "snap day.itch --output out.snap => out.snap",
        "canon --output=./- day.snap => ./-",
        "join a.snap day.itch --only 1 --output out.snap => out.snap",
        "fetch --port 1 --user u --pass p --output out.snap => out.snap",
        "cut day.itch --output part.itch => part.itch",
        "check day.itch => nowhere",
    ] {
        let (line, path) = columns(row)?;
        let found = sent_to(rt.alloc(), line)?;
        holds_in(&rt, line, found.is_some_and(|found| found.as_str() == path));
    }
    for line in [
        "snap day.itch",
        "snap --output - day.itch",
        "cut day.itch --from 2",
        "canon --check --output out.snap",
    ] {
        holds_in(&rt, line, sent_to(rt.alloc(), line)?.is_none());
    }
    Ok(())
}

#[test]
fn times_are_read(rt: HostRuntime) -> TestResult {
    let cases = [
        ("00:00", 0),
        ("10:30", 37_800_000_000_000),
        ("9:30", 34_200_000_000_000),
        ("09:30", 34_200_000_000_000),
        ("0:00:01", 1_000_000_000),
        ("23:59:59", 86_399_000_000_000),
        ("10:30:00.000000001", 37_800_000_000_001),
        ("10:30:00.5", 37_800_500_000_000),
        ("10:30:00.05", 37_800_050_000_000),
        ("10:30:00.005", 37_800_005_000_000),
        ("10:30:00.0005", 37_800_000_500_000),
        ("10:30:00.00005", 37_800_000_050_000),
        ("10:30:00.000005", 37_800_000_005_000),
        ("10:30:00.0000005", 37_800_000_000_500),
        ("10:30:00.00000005", 37_800_000_000_050),
        ("23:59:59.999999999", 86_399_999_999_999),
        ("0", 0),
        ("0037800000000000", 37_800_000_000_000),
        ("18446744073709551615", u64::MAX),
    ];
    for (time, nanoseconds) in cases {
        let line = format!(in rt.alloc(); "show --until {time} --after 5 day.itch")?;
        let wanted = format!(in rt.alloc();
            "Files {{ request: One {{ file: Some(\"day.itch\"), command: Show {{ kind: Day(Limit {{ after: Some(5), \
             until: Some({nanoseconds}) }}), form: Text, filters: Filters {{ start: Start {{ before: 0, since: None }}, only: None, stocks: None, types: None, reference: None }} }} }}, \
             progress: false, output: None }}"
        )?;
        ask_for(&rt, line.as_str(), wanted.as_str())?;
    }
    Ok(())
}

#[test]
fn completions_are_asked_for(rt: HostRuntime) -> TestResult {
    ask_for(&rt, "completions bash", "Completions(Bash)")?;
    ask_for(&rt, "completions zsh", "Completions(Zsh)")?;
    ask_for(&rt, "completions fish", "Completions(Fish)")
}

// Tests the example of the crate's page, without and with `--progress`.
#[test]
fn a_check_is_asked_for(rt: HostRuntime) -> TestResult {
    for (line, progress) in [
        ("check day.itch", false),
        ("check --progress day.itch", true),
    ] {
        let wanted = format!(in rt.alloc();
            "Files {{ request: One {{ file: Some(\"day.itch\"), command: Check {{ limit: Limit {{ after: None, until: None }}, \
             expected: Expectations {{ count: None, end: false }}, form: Text }} }}, progress: {progress}, output: None }}"
        )?;
        ask_for(&rt, line, wanted.as_str())?;
    }
    Ok(())
}
