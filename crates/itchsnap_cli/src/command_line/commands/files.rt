//! The commands that look into files.

use crate::command_line::argument::{Argument, Value};
use crate::command_line::arguments::{
    AFTER, FILE, FROM, INDEX, JSON, JSON_OR_CSV, MOST_COUNTED, NOT_AFTER, NOT_UNTIL, OUTPUT,
    PROGRESS, RECORDED, SINCE, TYPES, UNTIL,
};
use crate::command_line::commands::{Entry, Group, Rule, Topic};

pub const CHECK: Entry = Entry {
    name: "check",
    topic: Topic::Files,
    about: "Check that a file follows the order rules",
    details: "Check that a file follows the order rules

It prints `ok N messages`, or an error with the number of the first message that breaks a rule.",
    usage: None,
    arguments: &[FILE],
    groups: &[
        Group {
            heading: "Input",
            takes: &[AFTER, UNTIL],
        },
        Group {
            heading: "Expectations",
            takes: &[
                Argument::Optional {
                    long: "expect",
                    value: Value::Range("N", 0, MOST_COUNTED),
                    help: "Refuse a file that does not have exactly N messages",
                },
                Argument::Flag {
                    long: "ended",
                    help: "Refuse a file whose last system event is not End of Messages",
                },
            ],
        },
        Group {
            heading: "Output",
            takes: &[JSON, PROGRESS],
        },
    ],
    rules: &[],
    example: "Example: itchsnap check day.itch",
};

pub const INFO: Entry = Entry {
    name: "info",
    topic: Topic::Files,
    about: "Summarize a day file: messages by type, times, events, stocks and live orders",
    details: "Summarize a day file: messages by type, times, events, stocks and live orders

If a message breaks an order rule, the summary describes the messages before it, and an error follows.",
    usage: None,
    arguments: &[FILE],
    groups: &[
        Group {
            heading: "Input",
            takes: &[AFTER, UNTIL],
        },
        Group {
            heading: "Output",
            takes: &[JSON, PROGRESS],
        },
    ],
    rules: &[],
    example: "Example: itchsnap info day.itch",
};

pub const SHOW: Entry = Entry {
    name: "show",
    topic: Topic::Files,
    about: "Print the messages of a file, one per line",
    details: "Print the messages of a file, one per line

A line is the number of the message, the letter of its type, its locate, tracking number and timestamp,
and its other fields in the order of the ITCH specification. A message must satisfy all options that
select messages.",
    usage: None,
    arguments: &[FILE],
    groups: &[
        Group {
            heading: "Input",
            takes: &[FROM, SINCE, AFTER, UNTIL, INDEX, RECORDED],
        },
        Group {
            heading: "Selection",
            takes: &[
                Argument::Optional {
                    long: "only",
                    value: Value::Text("LIST"),
                    help: "Print only messages of these locates, such as 1-40,77",
                },
                Argument::Optional {
                    long: "stock",
                    value: Value::Text("LIST"),
                    help: "Print only messages of these stocks, such as AAPL,MSFT",
                },
                TYPES,
                Argument::Optional {
                    long: "reference",
                    value: Value::Number("N"),
                    help: "Print only messages of this order and of its replacements",
                },
                Argument::Flag {
                    long: "history",
                    help: "With --reference, also print the messages about the order's earlier numbers; FILE is read twice",
                },
                Argument::Flag {
                    long: "orders",
                    help: "Print only executions, cancels, deletes and replaces, each with its order as it was before",
                },
            ],
        },
        Group {
            heading: "Output",
            takes: &[
                Argument::Flag {
                    long: "names",
                    help: "Print codes as characters, and timestamps as times of day",
                },
                JSON,
                Argument::Flag {
                    long: "csv",
                    help: "With --orders or one type, print comma-separated values, after a line of column names",
                },
                PROGRESS,
            ],
        },
    ],
    rules: &[
        JSON_OR_CSV,
        Rule::Excludes("names", "json"),
        Rule::Excludes("names", "csv"),
        Rule::Excludes("orders", "snapshot"),
        Rule::Needs("history", "reference"),
        Rule::Excludes("history", "snapshot"),
        NOT_AFTER,
        NOT_UNTIL,
        Rule::Excludes("snapshot", "from"),
        Rule::Excludes("snapshot", "since"),
        Rule::Excludes("snapshot", "index"),
    ],
    example: "Example: itchsnap show day.itch --reference 7",
};

pub const BOOK: Entry = Entry {
    name: "book",
    topic: Topic::Files,
    about: "Print the price levels of the given locates",
    details: "Print the price levels of the given locates

Each locate has a line with its stock, and one for each price: side, price, shares and number of orders,
bids before asks, the best first.",
    // With `--stock` the first positional argument is the file, so LOCATE is not required.
    usage: Some(
        "itchsnap book [OPTIONS] <LOCATE> [FILE]
       itchsnap book [OPTIONS] --stock <LIST> [FILE]",
    ),
    arguments: &[
        Argument::Word {
            id: "LOCATE",
            help: "The locates, such as 1-40,77",
        },
        FILE,
    ],
    groups: &[
        Group {
            heading: "Input",
            takes: &[
                AFTER,
                UNTIL,
                Argument::Optional {
                    long: "at",
                    value: Value::Text("TIME,.."),
                    help: "Print the books at each of these times in ascending order, such as 9:30,10:30",
                },
                Argument::Optional {
                    long: "every",
                    value: Value::Text("DURATION"),
                    help: "Print the books at each multiple of DURATION since midnight, such as 1m or 500ms",
                },
                Argument::Flag {
                    long: "changes",
                    help: "Print the best prices of one stock after each message that changes them",
                },
                RECORDED,
            ],
        },
        Group {
            heading: "Selection",
            takes: &[
                Argument::Optional {
                    long: "stock",
                    value: Value::Text("LIST"),
                    help: "Print the locates with these stocks, such as AAPL,MSFT, instead of LOCATE",
                },
                Argument::Optional {
                    long: "depth",
                    value: Value::Range("N", 0, MOST_COUNTED),
                    help: "Print the best N prices of each side [default: all]",
                },
            ],
        },
        Group {
            heading: "Output",
            takes: &[
                JSON,
                Argument::Flag {
                    long: "csv",
                    help: "Print comma-separated values, after a line of column names",
                },
                PROGRESS,
            ],
        },
    ],
    rules: &[
        JSON_OR_CSV,
        NOT_AFTER,
        NOT_UNTIL,
        Rule::Excludes("at", "every"),
        Rule::Excludes("at", "after"),
        Rule::Excludes("at", "until"),
        Rule::Excludes("at", "snapshot"),
        Rule::Excludes("every", "after"),
        Rule::Excludes("every", "until"),
        Rule::Excludes("every", "snapshot"),
        Rule::Excludes("changes", "at"),
        Rule::Excludes("changes", "every"),
        Rule::Excludes("changes", "snapshot"),
    ],
    example: "Example: itchsnap book 1 day.itch --until 10:30 --depth 5",
};

pub const COMPARE: Entry = Entry {
    name: "compare",
    topic: Topic::Files,
    about: "Check whether two files lead to the same market",
    details: "Check whether two files lead to the same market

It prints `same`, or `different at N`: the first message in which the snapshots of the two markets differ.
Then the exit code is 1.",
    usage: None,
    arguments: &[
        Argument::RequiredWord {
            id: "A",
            help: "The first file; `-` for standard input",
        },
        Argument::RequiredWord {
            id: "B",
            help: "The second file, or `-`",
        },
    ],
    groups: &[
        Group {
            heading: "Input",
            takes: &[
                Argument::Flag {
                    long: "first",
                    help: "Find after how many messages the markets first differ",
                },
                AFTER,
                UNTIL,
                RECORDED,
            ],
        },
        Group {
            heading: "Output",
            takes: &[JSON, PROGRESS],
        },
    ],
    rules: &[NOT_AFTER, NOT_UNTIL, Rule::Excludes("first", "snapshot")],
    example: "Example: itchsnap compare day.itch other.itch",
};

pub const CUT: Entry = Entry {
    name: "cut",
    topic: Topic::Files,
    about: "Write the messages of a part of a day file, as a day file",
    details: "Write the messages of a part of a day file, as a day file

Messages are written byte for byte, and no order rule is applied. A message must satisfy all options that
select messages.",
    usage: None,
    arguments: &[FILE],
    groups: &[
        Group {
            heading: "Input",
            takes: &[FROM, SINCE, AFTER, UNTIL, INDEX],
        },
        Group {
            heading: "Selection",
            takes: &[
                Argument::Optional {
                    long: "only",
                    value: Value::Text("LIST"),
                    help: "Keep only messages of these locates, such as 1-40,77, and those of no stock",
                },
                Argument::Optional {
                    long: "stock",
                    value: Value::Text("LIST"),
                    help: "Keep only messages of these stocks, such as AAPL,MSFT, and those of no stock",
                },
                TYPES,
            ],
        },
        Group {
            heading: "Output",
            takes: &[OUTPUT, PROGRESS],
        },
    ],
    rules: &[],
    example: "Example: itchsnap cut day.itch --stock AAPL --since 9:30 > aapl.itch",
};

pub const INDEX_COMMAND: Entry = Entry {
    name: "index",
    topic: Topic::Files,
    about: "Write the index of a day file, with which `show` and `cut` start at a range",
    details: "Write the index of a day file, with which `show` and `cut` start at a range

It contains a row for every 65,536 messages, and the stocks of the day. A file that `show` refuses is refused.",
    usage: None,
    arguments: &[FILE],
    groups: &[
        Group {
            heading: "Input",
            takes: &[AFTER, UNTIL],
        },
        Group {
            heading: "Output",
            takes: &[OUTPUT, PROGRESS],
        },
    ],
    rules: &[],
    example: "Example: itchsnap index day.itch --output day.idx",
};
