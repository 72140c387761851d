//! Writes the lines of a day's messages with the orders behind them, one after another.
ghost use Rattle.std.specs.Prelude.{◌≡◌};
ghost use Rattle.itch_commands.specs.Choices.{Chosen};
ghost use Rattle.itch_commands.specs.OrdersBehind.{chosen_behind, line_behind};
ghost use Rattle.itch_commands.specs.ListedOrders.{WritesLine};
ghost use Rattle.itch_commands.specs.Lookup.{are_found};

use super::behind::Behind;
use super::lines::write_order;
use crate::choice::Choice;
use crate::fault::ToolFault;
use crate::form::OrderForm;
use itch_book::OrderBook;
use itch_codec::{CodecFault, Message};
use itch_day::Sink;
use itch_frame::CountedWrite;
use itch_market::{Market, Refused};
use std::io::Error;

/// A market, and the choice of its messages.
#[derive(Drop)]
pub struct ChosenMarket<'a, B: OrderBook> {
    pub market: Market<B>,
    pub choice: Choice<'a, B::Alloc>,
}

/// Applies the messages of a day to a market, and writes the lines of those that are chosen and have an order behind them.
#[derive(Drop)]
pub struct OrderLines<'a, 'b, 'c, B: OrderBook, W: CountedWrite> {
    pub out: &'b mut W,
    pub form: OrderForm,
    pub chosen: &'c mut ChosenMarket<'a, B>,
}

/// The reason why a message is not listed.
#[derive(Drop)]
pub enum Unlisted {
    /// The market refuses it.
    Refused(Refused),
    /// The market took it, and its line could not be written.
    Write(Error),
}

impl<'a, 'b, 'c, B: OrderBook, W: CountedWrite> OrderLines<'a, 'b, 'c, B, W> {
    /// Returns whether each of the stocks searched for has come.
    pub fn has_found_all(&self) -> bool
        ensures { result ≡ are_found (Chosen.stocks self.now.chosen.now.choice) }
    {
        self.chosen.choice.has_found_all()
    }

    // Returns the order behind a message, if the message is chosen.
    #[inline(always)]
    fn chosen_behind(&self, message: &Message<'_>) -> Option<Behind>
        ensures { result ≡ chosen_behind self.now.chosen.now.choice self.now.chosen.now.market message.now }
    {
        if self.chosen.choice.is_chosen(message) {
            Behind::of(&self.chosen.market, message)
        } else {
            None
        }
    }
}

impl<'a, 'b, 'c, B: OrderBook, W: CountedWrite> Sink for OrderLines<'a, 'b, 'c, B, W> {
    ghost use Rattle.std.specs.Prelude.{◌≡◌};
    ghost use Rattle.itch_commands.specs.ListedOrders.{ListsMessage, LeavesMessage};

    type Fault = Unlisted;

    ghost is_ready = { λ _ _. Unit {0} };

    ghost takes = { λ s number payload t. (t.out.ghost_name ≡ s.out.ghost_name) × (t.chosen.ghost_name ≡ s.chosen.ghost_name) × (t.form ≡ s.form)
        × ListsMessage W.contents W.failures s.form number payload s.chosen.now.market s.chosen.now.choice s.out.now t.chosen.now.market t.chosen.now.choice t.out.now };

    ghost refuses = { λ s number payload why t. (t.out.ghost_name ≡ s.out.ghost_name) × (t.chosen.ghost_name ≡ s.chosen.ghost_name)
        × LeavesMessage W.contents W.failures s.form number payload s.chosen.now.market s.chosen.now.choice s.out.now why t.chosen.now.market t.out.now };

    #[inline(always)]
    fn take(
        &mut self,
        number: u64,
        payload: &[u8],
        message: &Result<Message<'_>, CodecFault>,
    ) -> Result<(), Unlisted> {
        match message {
            Ok(decoded) => {
                let behind = self.chosen_behind(decoded);
                match self.chosen.market.take(number, payload, message) {
                    Ok(()) => {
                        self.chosen.choice.follow(decoded);
                        write_behind(self.form, number, decoded, behind, self.out)
                    }
                    Err(why) => Err(Unlisted::Refused(why)),
                }
            }
            Err(fault) => Err(Unlisted::Refused(Refused::Codec(*fault))),
        }
    }

    #[inline(always)]
    fn look_ahead(&mut self, blocks: &[u8]) -> u64 {
        self.chosen.market.look_ahead(blocks)
    }
}

// Writes the line of a message, if it has an order behind it.
#[inline(always)]
fn write_behind<W: CountedWrite>(
    form: OrderForm,
    number: u64,
    message: &Message<'_>,
    behind: Option<Behind>,
    out: &mut W,
) -> Result<(), Unlisted>
    ensures { WritesLine W.contents W.failures (line_behind form number message.now behind) out.old result out.new }
{
    match behind {
        None => Ok(()),
        Some(behind) => match write_order(form, number, message, &behind, out) {
            Ok(()) => Ok(()),
            Err(ToolFault::Write(error)) => Err(Unlisted::Write(error)),
            Err(_) => unreachable!(),
        },
    }
}
