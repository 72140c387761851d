//! The Stock Directory messages of a day.
ghost use Rattle.std.specs.Prelude.{◌≡◌, ◌<◌, ◌++◌, ℕ, List, [], length, OnOk};
ghost use Rattle.itch_codec.specs.Messages.{message_of};
ghost use Rattle.itch_commands.specs.Showing.{IsClean};
ghost use Rattle.itch_commands.specs.declared.fault.Source.TheVariants.{Only};
ghost use Rattle.itch_commands.specs.declared.fault.ToolFault.TheVariants.{Stopped};
ghost use Rattle.itch_frame.specs.Blocks.{Blocks, block};
ghost use Rattle.itch_offsets.specs.Passes.{kept_block};
ghost use Rattle.itch_offsets.specs.Rows.{directory_line, directory_lines};

use itch_codec::{CodecFault, Message};
use itch_commands::{Source, ToolFault};
use itch_day::Sink;
use itch_frame::split_first_block;
use itch_market::{ReplayEnd, Stop};
use std::alloc::{AllocError, Allocator};
use std::marker::Model;

/// The number of bytes in the payload of a Stock Directory message.
const PAYLOAD: usize = 39;

/// Appends a line for each of these blocks of Stock Directory messages.
pub(crate) fn push_directory<A: Allocator + Copy>(
    alloc: A,
    lines: &mut Vec<u8, A>,
    directory: &[u8],
) -> Result<(), AllocError>
    ensures { (payloads : List (List ℕ)) → (rest : List ℕ) → Blocks directory.now payloads rest
        → OnOk result (lines.new.items ≡ lines.old.items ++ directory_lines payloads) }
{
    let mut rest = directory;
    while let Some((payload, after)) = split_first_block(rest) {
        push_payload(alloc, lines, payload)?;
        rest = after;
    }
    Ok(())
}

// Appends the line of the payload of a Stock Directory message.
fn push_payload<A: Allocator + Copy>(
    alloc: A,
    lines: &mut Vec<u8, A>,
    payload: &[u8],
) -> Result<(), AllocError>
    ensures { OnOk result (lines.new.items ≡ lines.old.items ++ directory_line payload.now) }
{
    let digits = hex::encode(alloc, payload)?;
    lines.extend_from_slice(b"{\"directory\":\"")?;
    lines.extend_from_slice(digits.as_bytes())?;
    lines.extend_from_slice(b"\"}\n")?;
    Ok(())
}

/// Returns the block of the Stock Directory message of a line, if it is such a line.
pub(crate) fn block_of(line: &[u8]) -> Option<[u8; PAYLOAD + 2]> {
    let digits = line
        .strip_prefix(b"{\"directory\":\"".as_slice())?
        .strip_suffix(b"\"}".as_slice())?;
    let mut block = [0; PAYLOAD + 2];
    block[1] = PAYLOAD as u8;
    hex::decode_to_slice(digits, &mut block[2..]).ok()?;
    Some(block)
}

/// The blocks of the Stock Directory messages that passed, one after another.
#[derive(Drop)]
pub(crate) struct DirectoryBlocks<A: Allocator> {
    blocks: Vec<u8, A>,
}

impl<A: Allocator> Model for DirectoryBlocks<A> {
    ghost use Rattle.std.specs.Prelude.{ℕ, List};

    ghost Value = { List ℕ };

    ghost view = { λ d. d.blocks.items };
}

impl<A: Allocator> DirectoryBlocks<A> {
    pub(crate) fn new(alloc: A) -> DirectoryBlocks<A>
        ensures { result ≡ [] }
    {
        DirectoryBlocks {
            blocks: Vec::new(alloc),
        }
    }

    /// Returns the blocks.
    pub(crate) fn blocks(&self) -> &[u8]
        ensures { result.now ≡ self.now }
    {
        &self.blocks
    }

    pub(crate) fn clear(&mut self)
        ensures { self.new ≡ [] }
    {
        self.blocks.clear();
    }

    // Keeps the block of a message if it is a Stock Directory message.
    fn keep(&mut self, payload: &[u8], message: &Message<'_>) -> Result<(), AllocError>
        requires clean { IsClean payload.now }
        requires message { message.now ≡ message_of payload.now }
        ensures { OnOk result (self.new ≡ self.old ++ kept_block payload.now) }
    {
        match message {
            Message::StockDirectory(_) => self.push(payload),
            _ => Ok(()),
        }
    }

    // Appends the block of a payload.
    fn push(&mut self, payload: &[u8]) -> Result<(), AllocError>
        requires { length payload.now < 65536 }
        ensures { OnOk result (self.new ≡ self.old ++ block payload.now) }
    {
        let len = payload.len() as u16;
        self.blocks.extend_from_slice(&len.to_be_bytes())?;
        self.blocks.extend_from_slice(payload)
    }
}

impl<A: Allocator> Sink for DirectoryBlocks<A> {
    ghost use Rattle.itch_offsets.specs.Passes.{RefusesEntry, TakesEntry};

    type Fault = ToolFault;

    ghost is_ready = { λ _ _. Unit {0} };

    ghost takes = { TakesEntry };

    ghost refuses = { RefusesEntry };

    #[inline(always)]
    fn take(
        &mut self,
        number: u64,
        payload: &[u8],
        message: &Result<Message<'_>, CodecFault>,
    ) -> Result<(), ToolFault> {
        match message {
            Ok(message) => Ok(self.keep(payload, message)?),
            Err(fault) => Err(stopped(number - 1, Stop::Codec(*fault))),
        }
    }
}

/// Returns the fault of the only file, which stops after this many messages.
pub(crate) fn stopped(count: u64, stop: Stop) -> ToolFault
    ensures { result ≡ Stopped Only (record { count = count; stop = stop }) }
{
    ToolFault::Stopped {
        file: Source::Only,
        end: ReplayEnd { count, stop },
    }
}
