//! The commands that serve and follow over SoupBinTCP.

use crate::command_line::argument::{Argument, Value};
use crate::command_line::arguments::{
    AFTER, BIND, FEED, FEED_SESSION, FOLLOWED_SESSION, GLIMPSE_SESSION, JSON, MOST_COUNTED,
    NOT_AFTER, NOT_UNTIL, ONE_PASSWORD, OUTPUT, PASSWORD, PASSWORD_FILE, PORT, PROGRESS, RECORDED,
    SESSION, UNTIL, USERS,
};
use crate::command_line::commands::{Entry, Group, Rule, Topic};

pub const SERVE: Entry = Entry {
    name: "serve",
    topic: Topic::Sessions,
    about: "Serve the snapshot of a file",
    details: "Serve the snapshot of a file

It serves one client after another, and prints a line for each. It reports on standard error when it
listens.",
    usage: None,
    arguments: &[Argument::RequiredWord {
        id: "FILE",
        help: "The file whose market is served; `-` for standard input",
    }],
    groups: &[
        Group {
            heading: "Input",
            takes: &[AFTER, UNTIL, RECORDED, PROGRESS],
        },
        Group {
            heading: "Server",
            takes: &[
                BIND,
                PORT,
                SESSION,
                Argument::Required {
                    long: "count",
                    value: Value::Range("N", 1, 1_000_000),
                    help: "Serve N connections, one after another [1..1000000]",
                },
            ],
        },
        Group {
            heading: "Clients",
            takes: &[
                Argument::Required {
                    long: "user",
                    value: Value::Text("USER"),
                    help: "Accept this user, a name of 1 to 6 printable characters",
                },
                PASSWORD,
                PASSWORD_FILE,
            ],
        },
    ],
    rules: &[ONE_PASSWORD, NOT_AFTER, NOT_UNTIL],
    example: "Example: itchsnap serve day.itch --port 5100 --user desk --pass-file pass --count 1",
};

pub const FETCH: Entry = Entry {
    name: "fetch",
    topic: Topic::Sessions,
    about: "Fetch the snapshot of a server",
    details: "Fetch the snapshot of a server

The server is one of GLIMPSE, `serve` or `live`. If the connection is lost, nothing is written.",
    usage: Some("itchsnap fetch [OPTIONS] --user <USER> <HOST:PORT>"),
    arguments: &[Argument::WordUnless {
        id: "HOST:PORT",
        other: "port",
        help: "The server; an IPv6 address is written in brackets",
    }],
    groups: &[
        Group {
            heading: "Server",
            takes: &[
                Argument::Hidden {
                    long: "host",
                    value: Value::Text("HOST"),
                },
                Argument::Hidden {
                    long: "port",
                    value: Value::Range("PORT", 1, 65_535),
                },
                Argument::Optional {
                    long: "session",
                    value: Value::Text("SESSION"),
                    help: "Request this session, a name of 1 to 10 printable characters [default: the current one]",
                },
                Argument::Optional {
                    long: "timeout",
                    value: Value::Range("SECONDS", 1, 86_400),
                    help: "Give up if the server is silent for this long [1..86400] [default: wait forever]",
                },
                Argument::Optional {
                    long: "from",
                    value: Value::Text("N"),
                    help: "Fetch only messages N and later, and write them as received",
                },
            ],
        },
        Group {
            heading: "Login",
            takes: &[
                Argument::Required {
                    long: "user",
                    value: Value::Text("USER"),
                    help: "Log in as this user, a name of 1 to 6 printable characters",
                },
                PASSWORD,
                PASSWORD_FILE,
            ],
        },
        Group {
            heading: "Output",
            takes: &[OUTPUT],
        },
    ],
    rules: &[
        ONE_PASSWORD,
        Rule::Excludes("HOST:PORT", "host"),
        Rule::Excludes("HOST:PORT", "port"),
    ],
    example: "Example: itchsnap fetch 127.0.0.1:5100 --user desk --pass-file pass > day.snap",
};

pub const LIVE: Entry = Entry {
    name: "live",
    topic: Topic::Sessions,
    about: "Follow a live feed, and serve snapshots of its current market",
    details: "Follow a live feed, and serve snapshots of its current market

It prints a line for each client that has left, and reports the state of the feed on standard error. It
exits when the feed has ended its session and the clients have left, unless --stay is given.",
    usage: Some(
        "itchsnap live [OPTIONS] --feed <HOST:PORT> --port <PORT> --user <USER>
       itchsnap live [OPTIONS] --feed <HOST:PORT> --port <PORT> --users <FILE> --feed-user <USER>",
    ),
    arguments: &[],
    groups: &[
        Group {
            heading: "Feed",
            takes: &[
                FEED,
                FEED_SESSION,
                Argument::Optional {
                    long: "feed-user",
                    value: Value::Text("USER"),
                    help: "Log in to the feed as this user [default: the clients' user]",
                },
                Argument::Optional {
                    long: "feed-pass-file",
                    value: Value::Path("FILE"),
                    help: "Read the password for the feed from the first line of FILE [default: the clients' password]",
                },
                Argument::Optional {
                    long: "glimpse",
                    value: Value::Text("HOST:PORT"),
                    help: "Start from a snapshot of this server, instead of the feed's first message",
                },
                GLIMPSE_SESSION,
                Argument::Flag {
                    long: "stay",
                    help: "Continue to serve after the feed has ended its session",
                },
            ],
        },
        Group {
            heading: "Server",
            takes: &[
                BIND,
                PORT,
                Argument::Optional {
                    long: "ready",
                    value: Value::Choice("WHEN", &["first", "caught-up"]),
                    help: "Serve clients from the first market on, or once the server has caught up [default: first]",
                },
                Argument::Optional {
                    long: "status",
                    value: Value::Text("HOST:PORT"),
                    help: "Serve metrics and a status page over HTTP; a port alone is on 127.0.0.1",
                },
                Argument::Optional {
                    long: "log",
                    value: Value::Choice("FORM", &["text", "json"]),
                    help: "Log every event with its time on standard error",
                },
            ],
        },
        Group {
            heading: "Clients",
            takes: &[
                Argument::RequiredUnless {
                    long: "user",
                    other: "users",
                    value: Value::Text("USER"),
                    help: "Accept this user, a name of 1 to 6 printable characters, and log in to the feed as this user too",
                },
                PASSWORD,
                PASSWORD_FILE,
                USERS,
                Argument::Optional {
                    long: "clients",
                    value: Value::Range("N", 1, 1_000),
                    help: "Serve at most N clients at a time [1..1000] [default: 64]",
                },
                Argument::Optional {
                    long: "clients-per-address",
                    value: Value::Range("N", 1, 1_000),
                    help: "Serve at most N clients from one address [1..1000] [default: no limit]",
                },
                Argument::Optional {
                    long: "snapshot-memory",
                    value: Value::Text("BYTES"),
                    help: "Use at most this much memory for snapshots, such as 512M or 2G [default: 256M or more]",
                },
            ],
        },
        Group {
            heading: "Recording",
            takes: &[
                Argument::Optional {
                    long: "record",
                    value: Value::Path("FILE"),
                    help: "Append each message to a day file, which is replayed at start-up",
                },
                Argument::Optional {
                    long: "records",
                    value: Value::Path("DIR"),
                    help: "Record each session of the feed in a day file of its own in a folder",
                },
                Argument::Optional {
                    long: "sync",
                    value: Value::Choice("WHEN", &["no", "second", "message"]),
                    help: "Sync the record to disk never, every second, or before each message is sent [default: second]",
                },
                Argument::Flag {
                    long: "record-optional",
                    help: "Continue without the record if it cannot be written",
                },
                Argument::Optional {
                    long: "to",
                    value: Value::Path("DIR"),
                    help: "Write snapshots to DIR/N.snap, for their N messages",
                },
                Argument::Optional {
                    long: "every",
                    value: Value::Range("N", 1, MOST_COUNTED),
                    help: "With --to, write a snapshot after every N messages",
                },
                Argument::Optional {
                    long: "keep",
                    value: Value::Range("N", 1, MOST_COUNTED),
                    help: "With --to, keep the last N snapshots [default: all]",
                },
            ],
        },
    ],
    rules: &[
        ONE_PASSWORD,
        Rule::Excludes("users", "user"),
        Rule::Excludes("users", "pass"),
        Rule::Excludes("users", "pass-file"),
        Rule::Excludes("record", "records"),
        Rule::Excludes("glimpse", "record"),
        Rule::Excludes("glimpse", "records"),
        Rule::Needs("glimpse-session", "glimpse"),
        Rule::Alias("to", "snapshots"),
        Rule::Needs("to", "every"),
        Rule::Needs("every", "to"),
        Rule::Needs("keep", "to"),
    ],
    example: "Example: itchsnap live --feed feed.example:5000 --port 5100 --user desk --pass-file pass",
};

pub const FOLLOW: Entry = Entry {
    name: "follow",
    topic: Topic::Sessions,
    about: "Fetch a snapshot, join a live feed, and write each message from there on",
    details: "Fetch a snapshot, join a live feed, and write each message from there on

The output is a part of a day file, or with --whole a complete one. It exits when the feed ends its
session.",
    usage: None,
    arguments: &[],
    groups: &[
        Group {
            heading: "Feed",
            takes: &[
                FEED,
                FOLLOWED_SESSION,
                Argument::Required {
                    long: "glimpse",
                    value: Value::Text("HOST:PORT"),
                    help: "Start from a snapshot of this server",
                },
                GLIMPSE_SESSION,
            ],
        },
        Group {
            heading: "Login",
            takes: &[
                Argument::Required {
                    long: "user",
                    value: Value::Text("USER"),
                    help: "Log in to both servers as this user, a name of 1 to 6 printable characters",
                },
                PASSWORD,
                PASSWORD_FILE,
            ],
        },
        Group {
            heading: "Output",
            takes: &[
                Argument::Flag {
                    long: "whole",
                    help: "Write the messages of the snapshot first, without its End of Snapshot",
                },
                JSON,
            ],
        },
    ],
    rules: &[ONE_PASSWORD, Rule::Excludes("whole", "json")],
    example: "Example: itchsnap follow --feed host:5000 --glimpse host:5100 --user desk --pass-file pass --json",
};

pub const FEED_COMMAND: Entry = Entry {
    name: "feed",
    topic: Topic::Sessions,
    about: "Play a day file as a live feed",
    details: "Play a day file as a live feed

Each client receives the messages from the number that it requests on. It prints a line for each client
that has left.",
    usage: Some(
        "itchsnap feed [OPTIONS] --port <PORT> --user <USER> <FILE>
       itchsnap feed [OPTIONS] --port <PORT> --users <FILE> <FILE>",
    ),
    arguments: &[Argument::RequiredWord {
        id: "FILE",
        help: "The day file to play",
    }],
    groups: &[
        Group {
            heading: "Pace",
            takes: &[
                Argument::Optional {
                    long: "rate",
                    value: Value::Range("N", 1, MOST_COUNTED),
                    help: "Play N messages per second",
                },
                Argument::Optional {
                    long: "clock",
                    value: Value::Range("FACTOR", 1, MOST_COUNTED),
                    help: "Play by the messages' timestamps, FACTOR times as fast",
                },
                Argument::Flag {
                    long: "stay",
                    help: "Send heartbeats after the last message instead of ending the session",
                },
            ],
        },
        Group {
            heading: "Server",
            takes: &[
                BIND,
                PORT,
                SESSION,
                Argument::Optional {
                    long: "count",
                    value: Value::Range("N", 1, MOST_COUNTED),
                    help: "Exit after N connections have ended [default: never]",
                },
            ],
        },
        Group {
            heading: "Clients",
            takes: &[
                Argument::RequiredUnless {
                    long: "user",
                    other: "users",
                    value: Value::Text("USER"),
                    help: "Accept this user, a name of 1 to 6 printable characters",
                },
                PASSWORD,
                PASSWORD_FILE,
                USERS,
            ],
        },
    ],
    rules: &[
        ONE_PASSWORD,
        Rule::Excludes("rate", "clock"),
        Rule::Excludes("users", "user"),
        Rule::Excludes("users", "pass"),
        Rule::Excludes("users", "pass-file"),
    ],
    example: "Example: itchsnap feed day.itch --port 5000 --user desk --pass-file pass --rate 1000",
};

pub const STATUS: Entry = Entry {
    name: "status",
    topic: Topic::Sessions,
    about: "Print the status of a live server",
    details: "Print the status of a live server

The exit code is 0 if the server is ready, 1 if it is not, and 3 if it does not answer.",
    usage: None,
    arguments: &[Argument::RequiredWord {
        id: "SERVER",
        help: "The status port, HOST:PORT, or a port of this machine",
    }],
    groups: &[
        Group {
            heading: "Server",
            takes: &[Argument::Optional {
                long: "wait",
                value: Value::Range("SECONDS", 1, 86_400),
                help: "Wait up to this long until the server is ready [1..86400]",
            }],
        },
        Group {
            heading: "Output",
            takes: &[JSON],
        },
    ],
    rules: &[],
    example: "Example: itchsnap status 127.0.0.1:9100 --wait 60",
};
