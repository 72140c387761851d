//! Messages of TotalView-ITCH 5.0, and the End of Snapshot of GLIMPSE 5.0.
//!
//! [`decode`] converts a payload into a [`Message`], or returns the payload's first fault. [`encode`] returns the bytes of a message, and an
//! [`Encoder`] encodes many messages in the same place. Decoding a payload and encoding the message again gives the same bytes, except for
//! the padding of End of Snapshot. A message of a type that is not decoded keeps its complete payload, as [`Undecoded`]. [`show`] converts a
//! message into a line of text, [`show_named`] into a line with codes as characters, and [`json`] into a line of JSON. Only [`line`], which
//! returns a string, allocates.
//!
//! Every value is valid: an [`Alpha`] is printable, a [`Seq`] is from 1 to 10^19, a [`Stamp`] fits into its six bytes.
//! `laws` states the properties of all payloads and messages.
//!
//! ```
//! let message = decode(b"A\0\x01\0\0\0\0\0\0\0\0\0\0\0\0\0\0\0\x01B\0\0\0dAAPL    \0\x16\xe3\x60")?;
//! if let Message::AddOrder(order) = &message {
//!     assert_eq!((order.side, order.shares), (Side::Buy, 100));
//!     assert_eq!((order.stock.text(), order.price), ("AAPL", 1_500_000));
//! }
//! ```
#![tactic(auto)]

mod conversions;
mod decoding;
mod encoded;
mod encoding;
mod fault;
mod fields;
mod glance;
mod header;
mod json_lines;
pub mod laws;
mod message;
mod named;
mod names;
mod number;
mod orders;
mod pieces;
mod showing;
mod sink;
mod sizes;
pub mod spaces;
mod stocks;
mod text;
mod trades;
mod typed;
mod undecoded;
mod words;

pub use conversions::{OutOfRange, UnknownSide};
pub use decoding::decode;
pub use encoded::Encoded;
pub use encoding::{Encoder, encode};
pub use fault::CodecFault;
pub use glance::reference_in;
pub use header::{Header, Stamp};
pub use json_lines::{JsonText, json};
pub use message::Message;
pub use named::show_named;
pub use number::{GREATEST_SEQ, MOST_MESSAGES, Seq, number20, read_number20};
pub use orders::{
    AddOrder, AttributedAddOrder, OrderCancel, OrderDelete, OrderExecuted, OrderExecutedWithPrice,
    OrderReplace, Side,
};
pub use showing::{LineText, line, show};
pub use stocks::{
    Directory, OperationalHalt, ParticipantPosition, RegSho, StockDirectory, SystemEvent,
    TradingAction,
};
pub use text::{Alpha, AlphaFault};
pub use trades::{BrokenTrade, CrossTrade, Trade};
pub use undecoded::Undecoded;
