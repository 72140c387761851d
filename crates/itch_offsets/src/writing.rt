//! Writes the lines of an index.
ghost use Rattle.std.specs.Prelude.{◌≡◌, ◌++◌, ℕ, List, [], IfOk, OnOk};
ghost use Rattle.itch_checkpoints.specs.Fingerprints.{digits_of};
ghost use Rattle.itch_frame.specs.Blocks.{Blocks};
ghost use Rattle.itch_offsets.specs.Rows.{end_line, row_line, row_lines};
ghost use Rattle.sha2.specs.Hashers.{Holds256};

use crate::directory::push_directory;
use itch_checkpoints::{Fingerprint, first_digits, push_fingerprint, push_place};
use itch_day::DayCursor;
use sha2::{Digest, Sha256};
use std::alloc::{AllocError, Allocator, Global};

/// The lines of an index, one row after another, and the digest of those of all rows so far.
#[derive(Drop)]
pub struct IndexWriter {
    alloc: Global,
    // The lines of the last row.
    lines: Vec<u8, Global>,
    hasher: Sha256,
}

impl IndexWriter {
    pub fn new(alloc: Global) -> IndexWriter
        ensures { Holds256 result.hasher [] }
    {
        IndexWriter {
            alloc,
            lines: Vec::new(alloc),
            hasher: Sha256::new(),
        }
    }

    /// Adds the row at a cursor, with the blocks of the Stock Directory messages since the row before. Its lines are one for each of these
    /// messages, and that of the row.
    pub fn add(
        &mut self,
        directory: &[u8],
        cursor: DayCursor,
        fingerprint: Fingerprint,
    ) -> Result<(), AllocError>
        ensures lines { (payloads : List (List ℕ)) → (rest : List ℕ) → Blocks directory.now payloads rest
            → OnOk result (self.new.lines.items ≡ row_lines payloads cursor fingerprint) }
        ensures digest { (before : List ℕ) → Holds256 self.old.hasher before → OnOk result (Holds256 self.new.hasher (before ++ self.new.lines.items)) }
    {
        self.lines.clear();
        push_directory(self.alloc, &mut self.lines, directory)?;
        push_row(&mut self.lines, cursor, fingerprint)?;
        self.hasher.update(&self.lines);
        Ok(())
    }

    /// Returns the lines of the last row.
    pub fn lines(&self) -> &[u8]
        ensures { result.now ≡ self.now.lines.items }
    {
        &self.lines
    }

    /// Returns the last line of the index, which follows the lines of all rows.
    pub fn end(self) -> Result<Vec<u8, Global>, AllocError>
        ensures { (before : List ℕ) → Holds256 self.hasher before → IfOk result (λ line. line.items ≡ end_line (digits_of before)) }
    {
        let mut line = Vec::new(self.alloc);
        push_end(&mut line, &first_digits(self.hasher))?;
        Ok(line)
    }
}

// Appends the line of the row at a cursor: a JSON object with the members of a checkpoint, other than the name of a snapshot file.
fn push_row<A: Allocator>(
    lines: &mut Vec<u8, A>,
    cursor: DayCursor,
    fingerprint: Fingerprint,
) -> Result<(), AllocError>
    ensures { OnOk result (lines.new.items ≡ lines.old.items ++ row_line cursor fingerprint) }
{
    push_place(lines, cursor)?;
    push_fingerprint(lines, fingerprint)?;
    lines.extend_from_slice(b"}\n")
}

// Appends the last line, with these digits of the digest of the lines before.
fn push_end<A: Allocator>(lines: &mut Vec<u8, A>, digits: &[u8]) -> Result<(), AllocError>
    ensures { OnOk result (lines.new.items ≡ lines.old.items ++ end_line digits.now) }
{
    lines.extend_from_slice(b"{\"end\":\"")?;
    lines.extend_from_slice(digits)?;
    lines.extend_from_slice(b"\"}\n")
}
