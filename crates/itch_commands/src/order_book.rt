//! The book of orders that the commands use.

use itch_book::SettledBook;

/// The book for a market that is only looked at once all messages are read, or seldom. It is settled first.
pub type Book<A> = SettledBook<A>;
