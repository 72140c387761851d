//! The progress of a command in reading its files, shown on standard error.
ghost use Rattle.std.specs.Prelude.{◌≡◌, ◌↔◌, [], take, IsNone, IfSome, IfOk};
ghost use Rattle.std.specs.Io.{ReadsAtMost};
ghost use Rattle.std.specs.Io.KnownBytes.{ReadConsumes};
ghost use Rattle.itchsnap_cli.specs.Tallies.{Counts, CountsOn};
ghost use Rattle.itchsnap_cli.specs.Watches.{Notes};

use crate::input::messages::BlockCounter;
use std::cell::Cell;
use std::fmt;
use std::io::{self, Read};
use std::rt::Clock;
use std::time::{Duration, Instant};

/// The line is updated whenever this many more bytes have been read: 64 MiB.
const STEP: u64 = 1 << 26;

/// The bytes and messages read, and the time taken. `Display` writes the progress line.
#[derive(Clone, Copy, Debug)]
pub struct Amount {
    pub bytes: u64,
    pub messages: u64,
    pub elapsed: Duration,
    /// The length of the files in bytes, if all are known.
    pub total: Option<u64>,
}

impl fmt::Display for Amount {
    fn fmt<W: fmt::Write>(&self, f: &mut fmt::Formatter<W>) -> fmt::Result {
        let Amount {
            bytes,
            messages,
            ..
        } = self;
        // Bytes per microsecond are megabytes per second.
        let rate = u128::from(*bytes) / self.elapsed.as_micros().max(1);
        write!(f, "{bytes} bytes, {messages} messages, {rate:>5} MB/s")?;
        match self.left() {
            Some((share, seconds)) => write!(f, ", {share:>3} %, {seconds} s left"),
            None => Ok(()),
        }
    }
}

impl Amount {
    // Returns the percentage that was read, and the seconds for the rest at the same rate, if there is a rest.
    fn left(&self) -> Option<(u128, u128)> {
        let total = self.total?;
        let (bytes, rest) = (u128::from(self.bytes), total.checked_sub(self.bytes)?);
        let share = bytes * 100 / u128::from(total).max(1);
        let micros = self.elapsed.as_micros().saturating_mul(u128::from(rest)) / bytes.max(1);
        Some((share, micros / 1_000_000))
    }
}

/// The progress of a command over all its files, since its start.
///
/// A line on standard error is updated every 64 MiB, and ends when a file has been read to its end, or with the command. If standard error
/// cannot be written, the line is left out.
pub struct ProgressLine<'a, R: Eprint> {
    rt: &'a R,
    begun: Instant,
    bytes: Cell<u64>,
    messages: Cell<u64>,
    total: Cell<Option<u64>>,
    is_open: Cell<bool>,
}

impl<'a, R: Eprint + Clock> ProgressLine<'a, R> {
    /// Starts now; returns `None` if the clock fails.
    pub fn begin(rt: &'a R) -> Option<ProgressLine<'a, R>> {
        let begun = Instant::now(rt).ok()?;
        Some(ProgressLine {
            rt,
            begun,
            bytes: Cell::new(0),
            messages: Cell::new(0),
            total: Cell::new(Some(0)),
            is_open: Cell::new(false),
        })
    }

    // Adds these bytes, and the messages that they complete.
    fn add(&self, bytes: u64, messages: u64) {
        let before = self.bytes.get();
        let now = before.saturating_add(bytes);
        self.bytes.set(now);
        self.messages
            .set(self.messages.get().saturating_add(messages));
        if now / STEP > before / STEP {
            self.show();
        }
    }

    // Updates the line.
    fn show(&self) {
        let Ok(elapsed) = self.begun.elapsed(self.rt) else {
            return;
        };
        let amount = Amount {
            bytes: self.bytes.get(),
            messages: self.messages.get(),
            elapsed,
            total: self.total.get(),
        };
        let _ = eprint!(self.rt; "\r{amount}");
        self.is_open.set(true);
    }
}

impl<R: Eprint> ProgressLine<'_, R> {
    /// Adds another file to read, with its size, if it is known.
    pub fn add_file(&self, size: Option<u64>) {
        let total = match (self.total.get(), size) {
            (Some(total), Some(size)) => total.checked_add(size),
            _ => None,
        };
        self.total.set(total);
    }
}

impl<R: Eprint> Drop for ProgressLine<'_, R> {
    fn drop(self) {
        let ProgressLine {
            rt,
            begun: _,
            bytes: _,
            messages: _,
            total: _,
            is_open,
        } = self;
        end_line(rt, &is_open);
    }
}

// Ends the line, if one was printed.
fn end_line(rt: &impl Eprint, is_open: &Cell<bool>) {
    if is_open.replace(false) {
        let _ = rt.eprint("\n");
    }
}

/// A reader of one of a command's files. It reads as its inner reader does, and counts bytes if there is a progress line.
#[derive(Drop)]
pub struct ProgressReader<'a, T, R: Eprint> {
    inner: T,
    watch: Option<Watch<'a, R>>,
}

impl<'a, T, R: Eprint> ProgressReader<'a, T, R> {
    /// Creates a reader at the beginning of its file.
    pub fn new(inner: T, progress: Option<&'a ProgressLine<'a, R>>) -> ProgressReader<'a, T, R>
        ensures inner { result.inner ≡ inner }
        ensures off { IsNone result.watch ↔ IsNone progress.entry }
        ensures nothing { IfSome result.watch (λ watch. Counts watch.tally []) }
    {
        let watch = progress.map(|progress| Watch {
            progress,
            tally: BlockCounter::new(),
        });
        ProgressReader { inner, watch }
    }
}

impl<T: Read, R: Eprint + Clock> Read for ProgressReader<'_, T, R> {
    ghost remaining = { λ w. T.remaining w.inner };

    fn read(&mut self, buf: &mut [u8]) -> io::Result<usize>
        ensures bound { ReadsAtMost result buf.new }
        ensures bytes { ReadConsumes (T.remaining self.old.inner) (T.remaining self.new.inner) result buf.new }
        ensures watch { IfOk result (λ count. Notes self.old.watch (take count buf.new) self.new.watch) }
    {
        let count = self.inner.read(buf)?;
        self.note(&buf[..count]);
        Ok(count)
    }
}

impl<T, R: Eprint + Clock> ProgressReader<'_, T, R> {
    // Passes the bytes read to the watch.
    fn note(&mut self, piece: &[u8])
        ensures inner { self.new.inner ≡ self.old.inner }
        ensures watch { Notes self.old.watch piece.now self.new.watch }
    {
        if let Some(watch) = &mut self.watch {
            watch.pass(piece);
        }
    }
}

// Watches the bytes that pass through a reader.
#[derive(Drop)]
struct Watch<'a, R: Eprint> {
    progress: &'a ProgressLine<'a, R>,
    tally: BlockCounter,
}

impl<R: Eprint + Clock> Watch<'_, R> {
    // Counts the bytes read. An empty piece is the end of the file.
    fn pass(&mut self, piece: &[u8])
        ensures { CountsOn self.old.tally piece.now self.new.tally }
    {
        let before = self.tally.messages();
        self.tally.pass(piece);
        let whole = self.tally.messages().saturating_sub(before);
        self.progress.add(piece.len() as u64, whole);
        if piece.is_empty() {
            end_line(self.progress.rt, &self.progress.is_open);
        }
    }
}
