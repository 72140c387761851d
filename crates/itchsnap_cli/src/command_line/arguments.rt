//! The arguments that several commands take.

use crate::command_line::argument::{Argument, Value};
use crate::command_line::commands::Rule;

/// The greatest number for `--after`, `--every` and `--depth`.
pub const MOST_COUNTED: i64 = 999_999_999_999;

pub const FILE: Argument = Argument::Word {
    id: "FILE",
    help: "The file to read; standard input if it is `-` or left out",
};

pub const FEED_FILE: Argument = Argument::RequiredWord {
    id: "FEED",
    help: "The feed, from its first message on, or `-`",
};

pub const AFTER: Argument = Argument::Optional {
    long: "after",
    value: Value::Range("N", 0, MOST_COUNTED),
    help: "Stop after the first N messages",
};

pub const UNTIL: Argument = Argument::Optional {
    long: "until",
    value: Value::Text("TIME"),
    help: "Stop before the first message at TIME or later, such as 10:30",
};

pub const FROM: Argument = Argument::Optional {
    long: "from",
    value: Value::Range("N", 1, MOST_COUNTED),
    help: "Start with message N",
};

pub const SINCE: Argument = Argument::Optional {
    long: "since",
    value: Value::Text("TIME"),
    help: "Start with the first message at TIME or later, such as 9:30",
};

pub const INDEX: Argument = Argument::Optional {
    long: "index",
    value: Value::Path("PATH"),
    help: "Start reading just before the range, with this index of the file; the output is the same",
};

pub const RECORDED: Argument = Argument::Flag {
    long: "snapshot",
    help: "Read the input as a snapshot instead of a day file",
};

pub const ONLY: Argument = Argument::Optional {
    long: "only",
    value: Value::Text("LIST"),
    help: "Keep only these locates, such as 1-40,77, or those that a file lists, such as @FILE",
};

pub const STOCK: Argument = Argument::Optional {
    long: "stock",
    value: Value::Text("LIST"),
    help: "Keep only the locates with these stocks, such as AAPL,MSFT",
};

pub const TYPES: Argument = Argument::Optional {
    long: "types",
    value: Value::Text("LETTERS"),
    help: "Select only messages of these types, such as AEX",
};

pub const JSON: Argument = Argument::Flag {
    long: "json",
    help: "Print JSON, one object per line",
};

pub const OUTPUT: Argument = Argument::Optional {
    long: "output",
    value: Value::Path("PATH"),
    help: "Write to this file instead of standard output; it appears when it is complete",
};

pub const PROGRESS: Argument = Argument::Flag {
    long: "progress",
    help: "Report progress on standard error, every 64 MiB",
};

// The feed to follow, and the snapshot server.
pub const FEED: Argument = Argument::Repeated {
    long: "feed",
    value: Value::Text("HOST:PORT"),
    help: "Follow the feed of this server; repeat the option to name standby servers, 8 in all",
};

pub const FEED_SESSION: Argument = Argument::Optional {
    long: "session",
    value: Value::Text("SESSION"),
    help: "Request this session of the feed [default: the record's, or the first that the feed names]",
};

pub const FOLLOWED_SESSION: Argument = Argument::Optional {
    long: "session",
    value: Value::Text("SESSION"),
    help: "Request this session of the feed [default: the first that the feed names]",
};

pub const GLIMPSE_SESSION: Argument = Argument::Optional {
    long: "glimpse-session",
    value: Value::Text("SESSION"),
    help: "Request this session of the snapshot server [default: the feed's]",
};

// The address on which a server listens, and its session.
pub const BIND: Argument = Argument::Optional {
    long: "bind",
    value: Value::Text("ADDRESS"),
    help: "Listen on this IPv4 or IPv6 address [default: 127.0.0.1]",
};

pub const PORT: Argument = Argument::Required {
    long: "port",
    value: Value::Range("PORT", 0, 65_535),
    help: "Listen on this port; 0 chooses a free one [0..65535]",
};

pub const SESSION: Argument = Argument::Optional {
    long: "session",
    value: Value::Text("SESSION"),
    help: "Accept logins to this session, a name of 1 to 10 printable characters",
};

// The login of a server and of its client.
pub const PASSWORD: Argument = Argument::Optional {
    long: "pass",
    value: Value::Text("PASSWORD"),
    help: "Use this password, 1 to 10 printable characters, which everyone on the machine can see",
};

pub const PASSWORD_FILE: Argument = Argument::Optional {
    long: "pass-file",
    value: Value::Path("FILE"),
    help: "Read the password from the first line of FILE [env: ITCHSNAP_PASS]",
};

pub const USERS: Argument = Argument::Optional {
    long: "users",
    value: Value::Path("FILE"),
    help: "Accept the users of FILE, with a line USER:PASSWORD for each, instead of --user and its password",
};

// Rules of several commands.
pub const ONE_PASSWORD: Rule = Rule::Excludes("pass", "pass-file");

pub const ONE_SELECTION: Rule = Rule::Excludes("only", "stock");

pub const JSON_OR_CSV: Rule = Rule::Excludes("json", "csv");

// A snapshot is read to its end.
pub const NOT_AFTER: Rule = Rule::Excludes("snapshot", "after");

pub const NOT_UNTIL: Rule = Rule::Excludes("snapshot", "until");
