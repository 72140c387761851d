//! The commands that make and use snapshots.

use crate::command_line::argument::{Argument, Value};
use crate::command_line::arguments::{
    AFTER, FEED_FILE, FILE, MOST_COUNTED, ONE_SELECTION, ONLY, OUTPUT, PROGRESS, STOCK, UNTIL,
};
use crate::command_line::commands::{Entry, Group, Rule, Topic};

// The options of a command that writes a part of a market as a snapshot.
const SELECTION: Group = Group {
    heading: "Selection",
    takes: &[ONLY, STOCK],
};

const ONE_OUTPUT: Group = Group {
    heading: "Output",
    takes: &[OUTPUT, PROGRESS],
};

pub const SNAP: Entry = Entry {
    name: "snap",
    topic: Topic::Snapshots,
    about: "Write the snapshot of a day file's final market",
    details: "Write the snapshot of a day file's final market

With --to, it writes the snapshots of several points of the day in one pass.",
    usage: None,
    arguments: &[FILE],
    groups: &[
        Group {
            heading: "Input",
            takes: &[
                Argument::Optional {
                    long: "after",
                    value: Value::Text("N"),
                    help: "Stop after the first N messages; with --to, take a snapshot after each of N,..",
                },
                Argument::Optional {
                    long: "until",
                    value: Value::Text("TIME"),
                    help: "Stop before the first message at TIME or later, such as 10:30; with --to, take a snapshot before each of TIME,..",
                },
            ],
        },
        SELECTION,
        Group {
            heading: "Output",
            takes: &[
                Argument::Optional {
                    long: "to",
                    value: Value::Path("DIR"),
                    help: "Write each snapshot to DIR/N.snap, for its N messages, and list them in DIR/index.jsonl; create DIR if it is missing",
                },
                Argument::Optional {
                    long: "every",
                    value: Value::Range("N", 1, MOST_COUNTED),
                    help: "With --to, take a snapshot after every N messages, and one at the end",
                },
                OUTPUT,
                PROGRESS,
            ],
        },
    ],
    rules: &[
        ONE_SELECTION,
        Rule::Excludes("to", "output"),
        Rule::Excludes("every", "after"),
        Rule::Excludes("every", "until"),
        Rule::Needs("every", "to"),
    ],
    example: "Example: itchsnap snap day.itch --only 1-40,77 > day.snap",
};

pub const JOIN: Entry = Entry {
    name: "join",
    topic: Topic::Snapshots,
    about: "Join a feed to a snapshot, and write the snapshot after both",
    details: "Join a feed to a snapshot, and write the snapshot after both

Messages of the feed that the snapshot already contains are skipped. The feed is refused if a message
between the two is missing.",
    usage: None,
    arguments: &[
        Argument::RequiredWord {
            id: "SNAP",
            help: "The snapshot, read up to its End of Snapshot; `-` for standard input",
        },
        FEED_FILE,
    ],
    groups: &[
        Group {
            heading: "Input",
            takes: &[
                Argument::Optional {
                    long: "first-number",
                    value: Value::Range("M", 1, MOST_COUNTED),
                    help: "Number the messages of FEED from M on [default: 1]",
                },
                AFTER,
                UNTIL,
            ],
        },
        SELECTION,
        ONE_OUTPUT,
    ],
    rules: &[ONE_SELECTION, Rule::Alias("first-number", "from")],
    example: "Example: itchsnap join early.snap day.itch > day.snap",
};

pub const AT: Entry = Entry {
    name: "at",
    topic: Topic::Snapshots,
    about: "Write the snapshot at a point of the day, starting from the nearest saved one",
    details: "Write the snapshot at a point of the day, starting from the nearest saved one

DIR is the folder of `snap --to` or of `live --to`, with its index.jsonl. Only the part of FEED after the
nearest snapshot is read.",
    usage: None,
    arguments: &[
        Argument::RequiredWord {
            id: "DIR",
            help: "The folder with snapshots of the day and their index",
        },
        FEED_FILE,
        Argument::RequiredWord {
            id: "POINT",
            help: "A number of messages, or a time such as 10:30",
        },
    ],
    groups: &[SELECTION, ONE_OUTPUT],
    rules: &[ONE_SELECTION],
    example: "Example: itchsnap at snapshots day.itch 10:30 > day.snap",
};

pub const CANON: Entry = Entry {
    name: "canon",
    topic: Topic::Snapshots,
    about: "Write a snapshot in canonical form",
    details: "Write a snapshot in canonical form

Two snapshots of the same market have the same canonical form, byte for byte.",
    usage: None,
    arguments: &[Argument::Word {
        id: "SNAP",
        help: "The snapshot to read; standard input if it is `-` or left out",
    }],
    groups: &[Group {
        heading: "Output",
        takes: &[
            Argument::Flag {
                long: "check",
                help: "Only report whether the snapshot is in canonical form",
            },
            OUTPUT,
            PROGRESS,
        ],
    }],
    rules: &[Rule::Excludes("check", "output")],
    example: "Example: itchsnap canon other.snap > day.snap",
};
