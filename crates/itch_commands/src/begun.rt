//! The first messages of a day file, which are not read again.
ghost use Rattle.std.specs.Prelude.{◌≡◌, ℕ, List, IfErr, IfOk, IsSome, map};
ghost use Rattle.std.specs.Option.{option_copied};
ghost use Rattle.itch_codec.specs.Messages.{message_of};
ghost use Rattle.itch_commands.specs.Choices.{chosen_listing, chosen_listing_all};
ghost use Rattle.itch_commands.specs.Further.{AreListed, chosen_from, count_of};
ghost use Rattle.itch_commands.specs.Showing.{IsClean};

use crate::choice::Choice;
use crate::fault::ToolFault;
use crate::filters::Filters;
use itch_codec::{MOST_MESSAGES, decode};
use itch_day::DayCursor;
use itch_frame::split_first_block;
use itch_market::LocateSet;
use std::alloc::Allocator;

/// The first messages of a day file, all of which are before a range: their cursor, and the blocks of the Stock Directory messages among them.
#[derive(Clone, Copy, Debug, PartialEq, Eq)]
pub struct Begun<'a> {
    pub cursor: DayCursor,
    pub directory: &'a [u8],
}

impl Begun<'_> {
    /// Returns the number of messages.
    pub(crate) fn count(&self) -> u64
        ensures { result ≡ count_of self.now.cursor }
    {
        self.cursor.count.min(MOST_MESSAGES)
    }

    /// Returns the choice of the messages after these. No filter may follow an order: a replacement among these is not known.
    pub(crate) fn choice<'b, A: Allocator + Copy>(
        &self,
        alloc: A,
        only: Option<&'b LocateSet<A>>,
        filters: Filters<'b>,
    ) -> Result<Choice<'b, A>, ToolFault>
        ensures choice { (payloads : List (List ℕ)) → AreListed payloads self.now.directory.now
            → IfOk result (λ choice. choice ≡ chosen_from (option_copied only.entry) filters.entry self.now.cursor payloads) }
        ensures memory { IfErr result (λ fault. (fault ≡ ToolFault.OutOfMemory) × IsSome filters.entry.stocks) }
    {
        let mut choice = Choice::new(alloc, only, filters)?;
        choice.pass_cursor(self.cursor);
        list_all(&mut choice, self.directory);
        Ok(choice)
    }
}

// Looks up stocks in the messages of these blocks.
fn list_all<A: Allocator>(choice: &mut Choice<'_, A>, directory: &[u8])
    ensures { (payloads : List (List ℕ)) → AreListed payloads directory.now → choice.new ≡ chosen_listing_all choice.old (map message_of payloads) }
{
    let mut rest = directory;
    while let Some((payload, after)) = split_first_block(rest) {
        list_payload(choice, payload);
        rest = after;
    }
}

// Looks up stocks in the message of a payload.
fn list_payload<A: Allocator>(choice: &mut Choice<'_, A>, payload: &[u8])
    ensures { IsClean payload.now → choice.new ≡ chosen_listing choice.old (message_of payload.now) }
{
    if let Ok(message) = decode(payload) {
        choice.list(&message);
    }
}
