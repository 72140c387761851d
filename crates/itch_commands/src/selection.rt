//! A selection of locates of a market.
ghost use Rattle.std.specs.Prelude.{◌≡◌, option_map};
ghost use Rattle.itch_commands.specs.Requests.{list_of};

/// A selection of locates of a market, as given on the command line.
#[derive(Clone, Copy, Debug, PartialEq, Eq)]
pub enum Selection<'a> {
    /// All locates.
    All,
    /// The locates of a list, such as `1-40,77`.
    Locates(&'a str),
    /// The locates that have one of these stocks in the directory, such as `AAPL,MSFT`.
    Stocks(&'a str),
}

impl<'a> Selection<'a> {
    /// Returns the list of the locates, if they are selected by one.
    pub fn list(&self) -> Option<&'a str>
        ensures { option_map (λ list. list.now) result ≡ list_of self.now }
    {
        match *self {
            Selection::Locates(list) => Some(list),
            Selection::All | Selection::Stocks(_) => None,
        }
    }
}
