//! The servers that a live server or a follower connects to.

/// The most servers of one feed.
pub const MOST_FEEDS: usize = 8;

/// A server: its host name or address, and its port.
#[derive(Clone, Copy, Debug, PartialEq, Eq)]
pub struct ServerAddress<'a> {
    /// Both as given on the command line.
    pub text: &'a str,
    pub host: &'a str,
    pub port: u16,
}

/// The servers of one feed, in the order in which they are tried.
#[derive(Clone, Copy, Debug, PartialEq, Eq)]
pub struct Feeds<'a> {
    pub first: ServerAddress<'a>,
    /// The servers after the first one, without gaps.
    pub others: [Option<ServerAddress<'a>>; MOST_FEEDS - 1],
}

impl<'a> Feeds<'a> {
    /// Creates a list of a single server.
    pub fn one(first: ServerAddress<'a>) -> Feeds<'a> {
        Feeds {
            first,
            others: [None; MOST_FEEDS - 1],
        }
    }

    /// Returns the server with this index, starting at 0.
    pub fn get(&self, place: usize) -> Option<ServerAddress<'a>> {
        if place == 0 {
            return Some(self.first);
        }
        match self.others.get(place - 1) {
            Some(other) => *other,
            None => None,
        }
    }

    /// Returns whether there is only one server.
    pub fn is_one(&self) -> bool {
        self.get(1).is_none()
    }
}
