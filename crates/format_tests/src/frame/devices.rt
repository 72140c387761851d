//! Readers and writers of the standard library whose device fails.
ghost use Rattle.std.specs.Prelude.{None, IsErr};

use crate::equal::{Host, TestResult, same};
use itch_frame::{
    BlockReader, Buffered, Counted, CountedRead, CountedWrite, FrameFault, write_block,
};
use std::alloc::Allocator;
use std::io::{self, BufReader, ErrorKind, Read, Write};
use test_doubles::PieceReader;

// Checks behaviour that no clause can state: the failure of a standard reader or writer is not retried, and its own error is passed on.
fn fails_once<R: CountedRead>(rt: &impl Host, reader: &mut R) -> TestResult {
    let mut byte = [0];
    let error = reader.read_some(&mut byte).err().ok_or("an error")?;
    same(rt, error.kind(), ErrorKind::Other);
    same(rt, reader.read_some(&mut byte)?, 1);
    same(rt, byte, *b"z");
    Ok(())
}

#[test]
fn a_failed_read_is_returned_at_once(rt: HostRuntime) -> TestResult {
    let mut reader = Counted::new(PieceReader::new(b"z", 1, Some(1)));
    fails_once(&rt, &mut reader)?;
    same(&rt, reader.failures().count(), 1);
    let source = BufReader::with_capacity(rt.alloc(), 8, PieceReader::new(b"z", 1, Some(1)))?;
    let mut reader = Buffered::new(source);
    fails_once(&rt, &mut reader)?;
    same(&rt, reader.failures().count(), 1);
    Ok(())
}

// A device that fails each call, and counts them.
#[derive(Drop)]
struct Broken {
    calls: u64,
}

impl Broken {
    fn fail(&mut self) -> io::Result<usize>
        ensures { IsErr result }
    {
        self.calls = self.calls.saturating_add(1);
        Err(io::Error::from(ErrorKind::ConnectionReset))
    }
}

impl Read for Broken {
    ghost remaining = { λ _. None };

    fn read(&mut self, _buf: &mut [u8]) -> io::Result<usize> {
        self.fail()
    }
}

impl Write for Broken {
    ghost contents = { λ _. None };

    fn write(&mut self, _buf: &[u8]) -> io::Result<usize> {
        self.fail()
    }

    fn flush(&mut self) -> io::Result<()> {
        Ok(())
    }
}

fn is_reset(error: Option<io::Error>) -> bool {
    error.is_some_and(|error| error.kind() == ErrorKind::ConnectionReset)
}

// Returns a reader that failed once with the error of its device.
fn broken_reader(rt: &impl Host) -> Counted<Broken> {
    let mut reader = Counted::new(Broken { calls: 0 });
    assert!(rt; is_reset(reader.read_some(&mut [0]).err()));
    assert!(rt; is_reset(reader.failures().last()));
    same(rt, reader.get().calls, 1);
    reader
}

// Returns a writer that failed once with the error of its device.
fn broken_writer(rt: &impl Host) -> Counted<Broken> {
    let mut writer = Counted::new(Broken { calls: 0 });
    assert!(rt; is_reset(writer.write_some(b"z").err()));
    assert!(rt; is_reset(writer.failures().last()));
    same(rt, writer.get().calls, 1);
    writer
}

fn cannot_read<R: CountedRead, A: Allocator>(rt: &impl Host, blocks: &mut BlockReader<R, A>) {
    assert!(rt;
        matches!(blocks.next_block(), Err(FrameFault::Read(error)) if is_reset(Some(error)))
    );
}

fn cannot_write<W: CountedWrite>(rt: &impl Host, writer: &mut W) {
    let written = write_block(writer, b"z");
    assert!(rt;
        matches!(written, Err(FrameFault::Write { sent: 0, error }) if is_reset(Some(error)))
    );
}

#[test]
fn the_very_error_of_a_device_is_kept(rt: HostRuntime) -> TestResult {
    let mut blocks = BlockReader::new(rt.alloc(), broken_reader(&rt))?;
    cannot_read(&rt, &mut blocks);
    let mut writer = broken_writer(&rt);
    cannot_write(&rt, &mut writer);
    same(&rt, writer.failures().count(), 2);
    Ok(())
}
