//! Lists of locates, as text.
ghost use Rattle.std.specs.Prelude.{◌≡◌, ◌≤◌, ◌||◌, ◌⊎◌, ℕ, IfOk, IfErr, MatchResult, option_map};
ghost use Rattle.itch_market.specs.Wanted.{has};
ghost use Rattle.itch_commands.specs.Locates.{IsLocate, IsRange, is_in, list_file, ReadsLocates};

use crate::fault::ToolFault;
use itch_market::LocateSet;
use std::alloc::Allocator;

/// Reads a list of locates: one or more of them, or of ranges of them such as `1-40`, separated by commas. A locate is a decimal number
/// from 0 to 65535, and the second one of a range is not lower than the first.
///
/// # Faults
///
/// `BadLocates` if the text is not such a list, and `OutOfMemory` if memory runs out before that is known.
pub fn read_locates<A: Allocator + Copy>(alloc: A, text: &str) -> Result<LocateSet<A>, ToolFault>
    ensures { ReadsLocates text.now result }
{
    let mut set = LocateSet::new(alloc);
    let mut rest = text;
    while let Some((first, more)) = rest.split_once(',') {
        insert_locates(&mut set, first)?;
        rest = more;
    }
    insert_locates(&mut set, rest)?;
    Ok(set)
}

/// Returns the path of the file with a list, if the argument for it is `@` and this path.
pub fn list_file(words: &str) -> Option<&str>
    ensures { option_map (λ path. path.now) result ≡ list_file words.now }
{
    let (before, path) = words.split_once('@')?;
    if before.is_empty() { Some(path) } else { None }
}

/// Reads a locate or a range, and inserts its locates.
///
/// # Faults
///
/// The same as those of `read_locates`.
pub fn insert_locates<A: Allocator + Copy>(
    set: &mut LocateSet<A>,
    text: &str,
) -> Result<(), ToolFault>
    ensures inserted { IfOk result (λ _. (range : ℕ × ℕ) × IsRange text.now range
        × ((locate : ℕ) → has set.new locate ≡ (is_in locate range || has set.old locate))) }
    ensures refused { IfErr result (λ fault. (fault ≡ ToolFault.OutOfMemory)
        ⊎ ((fault ≡ ToolFault.BadLocates) × ((range : ℕ × ℕ) → ¬ (IsRange text.now range)))) }
{
    let (first, last) = read_range(text)?;
    insert_range(set, first, last)
}

// Inserts the locates from the first to the last.
fn insert_range<A: Allocator + Copy>(
    set: &mut LocateSet<A>,
    first: u16,
    last: u16,
) -> Result<(), ToolFault>
    requires { first ≤ last }
    ensures inserted { IfOk result (λ _. (locate : ℕ) → has set.new locate ≡ (is_in locate (first, last) || has set.old locate)) }
    ensures refused { IfErr result (λ fault. fault ≡ ToolFault.OutOfMemory) }
{
    for locate in first..=last {
        set.insert(locate)?;
    }
    Ok(())
}

// Reads a locate, or a range of them. Returns the first and the last.
fn read_range(text: &str) -> Result<(u16, u16), ToolFault>
    ensures { MatchResult result (λ range. IsRange text.now range)
        (λ fault. (fault ≡ ToolFault.BadLocates) × ((range : ℕ × ℕ) → ¬ (IsRange text.now range))) }
{
    let Some((low, high)) = text.split_once('-') else {
        let locate = read_locate(text)?;
        return Ok((locate, locate));
    };
    let first = read_locate(low)?;
    let last = read_locate(high)?;
    if first > last {
        return Err(ToolFault::BadLocates);
    }
    Ok((first, last))
}

// Reads a locate. It checks the bytes first, since `parse` also accepts a leading plus sign.
fn read_locate(text: &str) -> Result<u16, ToolFault>
    ensures { MatchResult result (λ locate. IsLocate text.now locate)
        (λ fault. (fault ≡ ToolFault.BadLocates) × ((locate : ℕ) → ¬ (IsLocate text.now locate))) }
{
    if !text.bytes().all(|byte| byte.is_ascii_digit()) {
        return Err(ToolFault::BadLocates);
    }
    text.parse::<u16>().map_err(|_| ToolFault::BadLocates)
}
