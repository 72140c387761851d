//! The filters for messages, as given on the command line.
ghost use Rattle.std.specs.Prelude.{◌≡◌, None};
ghost use Rattle.itch_commands.specs.Starts.{first};

use crate::start::Start;

/// The filters for the messages that are shown. A message is shown if it meets all filters that are given.
#[derive(Clone, Copy, Debug, PartialEq, Eq)]
pub struct Filters<'a> {
    /// The beginning of the range of messages.
    pub start: Start,
    /// A list of locates: messages whose header has one of them.
    pub only: Option<&'a str>,
    /// Names of stocks, separated by commas: messages whose locate has one of them, by the Stock Directory messages so far.
    pub stocks: Option<&'a str>,
    /// Letters of message types: messages of these types.
    pub types: Option<&'a str>,
    /// The reference number of an order: messages about it.
    pub reference: Option<u64>,
}

impl Filters<'_> {
    /// Returns no filters, so that every message is shown.
    pub fn none() -> Self
        ensures { result ≡ record { start = first; only = None; stocks = None; types = None; reference = None } }
    {
        Filters {
            start: Start::first(),
            only: None,
            stocks: None,
            types: None,
            reference: None,
        }
    }
}
