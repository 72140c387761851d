//! The table of figures: their names, their descriptions and their values.
ghost use Rattle.std.specs.Prelude.{◌≡◌, ◌≤◌, length};
ghost use Rattle.itch_status.specs.FigureTables.{figure_key, figure_label, figure_help, figure_kind, figure_value, counted, in_thousandths, as_clock, as_cause, as_session};

use crate::cause::LossCause;
use crate::figures::Figures;
use crate::shown::Shown;
use itch_codec::Alpha;

/// A figure.
#[derive(Clone, Copy, Debug, PartialEq, Eq)]
pub(crate) enum Figure {
    Ready,
    State,
    Cause,
    Session,
    Server,
    Losses,
    Next,
    Messages,
    Rate,
    MarketTime,
    Silence,
    Connections,
    Opening,
    Waiting,
    Served,
    Slots,
    Encoded,
    Kept,
    Sent,
    RecordLength,
    RecordUnsynced,
    Saved,
    Missed,
    LinesLost,
    Uptime,
}

impl Figure {
    /// All figures, in the order of the output.
    pub(crate) const ALL: [Figure; 25] = [
        Figure::Ready,
        Figure::State,
        Figure::Cause,
        Figure::Session,
        Figure::Server,
        Figure::Losses,
        Figure::Next,
        Figure::Messages,
        Figure::Rate,
        Figure::MarketTime,
        Figure::Silence,
        Figure::Connections,
        Figure::Opening,
        Figure::Waiting,
        Figure::Served,
        Figure::Slots,
        Figure::Encoded,
        Figure::Kept,
        Figure::Sent,
        Figure::RecordLength,
        Figure::RecordUnsynced,
        Figure::Saved,
        Figure::Missed,
        Figure::LinesLost,
        Figure::Uptime,
    ];

    /// Returns the key in JSON, which is also the name of the metric after `itchsnap_`.
    pub(crate) fn key(self) -> &'static str
        ensures key { result.now ≡ figure_key self }
        ensures short { length result.now ≤ 32 }
    {
        match self {
            Figure::Ready => "ready",
            Figure::State => "feed_state",
            Figure::Cause => "feed_cause",
            Figure::Session => "feed_session",
            Figure::Server => "feed_server",
            Figure::Losses => "feed_losses_total",
            Figure::Next => "next_message",
            Figure::Messages => "messages_total",
            Figure::Rate => "messages_per_second",
            Figure::MarketTime => "market_time_seconds",
            Figure::Silence => "silence_seconds",
            Figure::Connections => "connections_total",
            Figure::Opening => "connections_opening",
            Figure::Waiting => "clients_waiting",
            Figure::Served => "clients_served",
            Figure::Slots => "client_slots",
            Figure::Encoded => "snapshots_encoded_total",
            Figure::Kept => "snapshot_bytes",
            Figure::Sent => "sent_bytes_total",
            Figure::RecordLength => "record_bytes",
            Figure::RecordUnsynced => "record_unsynced_bytes",
            Figure::Saved => "snapshot_file_message",
            Figure::Missed => "snapshot_files_missed_total",
            Figure::LinesLost => "log_lines_lost_total",
            Figure::Uptime => "uptime_seconds",
        }
    }

    /// Returns the label on the page for people.
    pub(crate) fn label(self) -> &'static str
        ensures label { result.now ≡ figure_label self }
        ensures short { length result.now ≤ 40 }
    {
        match self {
            Figure::Ready => "Ready",
            Figure::State => "Feed",
            Figure::Cause => "Why it is not followed",
            Figure::Session => "Session",
            Figure::Server => "Server of the feed",
            Figure::Losses => "Losses of the feed",
            Figure::Next => "Next message",
            Figure::Messages => "Messages received",
            Figure::Rate => "Messages per second, last minute",
            Figure::MarketTime => "Time of the last message",
            Figure::Silence => "Seconds since the last message",
            Figure::Connections => "Connections",
            Figure::Opening => "Connections not logged in",
            Figure::Waiting => "Clients waiting for a snapshot",
            Figure::Served => "Clients being sent a snapshot",
            Figure::Slots => "Client slots",
            Figure::Encoded => "Snapshots encoded",
            Figure::Kept => "Bytes of snapshots in use",
            Figure::Sent => "Bytes sent to clients",
            Figure::RecordLength => "Bytes of the record",
            Figure::RecordUnsynced => "Bytes of the record not synced",
            Figure::Saved => "Messages in the newest snapshot file",
            Figure::Missed => "Snapshot files not written",
            Figure::LinesLost => "Lines of the log lost",
            Figure::Uptime => "Seconds since the start",
        }
    }

    /// Returns the description of the metric.
    pub(crate) fn help(self) -> &'static str
        ensures help { result.now ≡ figure_help self }
        ensures short { length result.now ≤ 90 }
    {
        match self {
            Figure::Ready => "Whether clients are served the current market.",
            Figure::State => "The state of the feed.",
            Figure::Cause => "Why the feed is not followed.",
            Figure::Session => "The session of the feed.",
            Figure::Server => "Which --feed is used, from 1.",
            Figure::Losses => "Connections to the feed that were lost or not made.",
            Figure::Next => "The number of the feed's next message.",
            Figure::Messages => "Messages received since the start.",
            Figure::Rate => "Messages per second over the last 60 complete seconds.",
            Figure::MarketTime => "The timestamp of the last message, in seconds since midnight.",
            Figure::Silence => "Seconds since the last message was received.",
            Figure::Connections => "Connections of clients since the start.",
            Figure::Opening => "Connections that have not logged in yet.",
            Figure::Waiting => "Clients that wait for a snapshot.",
            Figure::Served => "Clients that are being sent a snapshot.",
            Figure::Slots => "The most clients at a time.",
            Figure::Encoded => "Snapshots encoded for clients since the start.",
            Figure::Kept => "Bytes of encoded snapshots in use.",
            Figure::Sent => "Bytes sent to clients since the start.",
            Figure::RecordLength => "Bytes of the record.",
            Figure::RecordUnsynced => "Bytes of the record that are not known to be on disk.",
            Figure::Saved => "The number of messages in the newest snapshot file of this run.",
            Figure::Missed => "Snapshot files that could not be written.",
            Figure::LinesLost => "Lines of the log that could not be written.",
            Figure::Uptime => "Seconds since the start.",
        }
    }

    /// Returns the type of the metric: a figure that never decreases is a counter.
    pub(crate) fn kind(self) -> &'static str
        ensures kind { result.now ≡ figure_kind self }
        ensures short { length result.now ≤ 7 }
    {
        match self {
            Figure::Losses
            | Figure::Messages
            | Figure::Connections
            | Figure::Encoded
            | Figure::Sent
            | Figure::Missed
            | Figure::LinesLost => "counter",
            _ => "gauge",
        }
    }

    /// Returns the value.
    pub(crate) fn value(self, figures: &Figures) -> Shown
        ensures { result ≡ figure_value self figures.now }
    {
        match self {
            Figure::Ready => Shown::Yes(figures.is_ready()),
            Figure::State => Shown::State(figures.state),
            Figure::Cause => cause(figures.cause),
            Figure::Session => session(figures.session),
            Figure::Server => Shown::Count(figures.server),
            Figure::Losses => Shown::Count(figures.losses),
            Figure::Next => count(figures.next),
            Figure::Messages => Shown::Count(figures.messages),
            Figure::Rate => Shown::Thousandths(figures.minute.thousandths()),
            Figure::MarketTime => clock(figures.market_ns),
            Figure::Silence => thousandths(figures.silence_ms),
            Figure::Connections => Shown::Count(figures.connections),
            Figure::Opening => Shown::Count(figures.opening),
            Figure::Waiting => Shown::Count(figures.waiting),
            Figure::Served => Shown::Count(figures.served),
            Figure::Slots => Shown::Count(figures.slots),
            Figure::Encoded => Shown::Count(figures.encoded),
            Figure::Kept => Shown::Count(figures.kept),
            Figure::Sent => Shown::Count(figures.sent),
            Figure::RecordLength => count(figures.record_length()),
            Figure::RecordUnsynced => count(figures.record_unsynced()),
            Figure::Saved => count(figures.saved),
            Figure::Missed => Shown::Count(figures.missed),
            Figure::LinesLost => Shown::Count(figures.lines_lost),
            Figure::Uptime => Shown::Thousandths(figures.uptime_ms),
        }
    }
}

fn count(number: Option<u64>) -> Shown
    ensures { result ≡ counted number }
{
    match number {
        Some(number) => Shown::Count(number),
        None => Shown::Nothing,
    }
}

fn thousandths(number: Option<u64>) -> Shown
    ensures { result ≡ in_thousandths number }
{
    match number {
        Some(number) => Shown::Thousandths(number),
        None => Shown::Nothing,
    }
}

fn clock(nanoseconds: Option<u64>) -> Shown
    ensures { result ≡ as_clock nanoseconds }
{
    match nanoseconds {
        Some(nanoseconds) => Shown::Clock(nanoseconds),
        None => Shown::Nothing,
    }
}

fn cause(cause: Option<LossCause>) -> Shown
    ensures { result ≡ as_cause cause }
{
    match cause {
        Some(cause) => Shown::Cause(cause),
        None => Shown::Nothing,
    }
}

fn session(session: Option<Alpha<10>>) -> Shown
    ensures { result ≡ as_session session }
{
    match session {
        Some(session) => Shown::Session(session),
        None => Shown::Nothing,
    }
}
