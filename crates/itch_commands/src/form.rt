//! The forms of output: for people, and for programs.

/// The form of a verdict or a count.
#[derive(Clone, Copy, Debug, PartialEq, Eq)]
pub enum ReportForm {
    /// A line of text.
    Text,
    /// A line with a JSON object (RFC 8259).
    Json,
}

/// The form of a book.
#[derive(Clone, Copy, Debug, PartialEq, Eq)]
pub enum BookForm {
    /// A line `LOCATE STOCK`, and then a line for each price.
    Text,
    /// A line with a JSON object (RFC 8259) for each price.
    Json,
    /// Comma-separated values (RFC 4180): a line with the names of the columns, and then a line for each price.
    Csv,
}

/// The form in which messages are shown.
#[derive(Clone, Copy, Debug, PartialEq, Eq)]
pub enum ShowForm {
    /// A line of text.
    Text,
    /// A line of text with codes as characters, and timestamps as times of the day.
    Named,
    /// A line with a JSON object (RFC 8259).
    Json,
    /// Comma-separated values (RFC 4180) of the messages of one type alone, whose letter this is: a line with the names of the columns,
    /// and then a line for each message.
    Csv { kind: u8 },
}

/// The form in which messages are shown with the orders behind them.
#[derive(Clone, Copy, Debug, PartialEq, Eq)]
pub enum OrderForm {
    /// A line of text.
    Text,
    /// A line of text with codes as characters, and timestamps as times of the day.
    Named,
    /// A line with a JSON object (RFC 8259).
    Json,
    /// Comma-separated values (RFC 4180): a line with the names of the columns, and then a line for each message.
    Csv,
}
