//! The servers of a feed and of snapshots: which of their addresses is tried next, and when.

use crate::places::{Feeds, ServerAddress};
use crate::spot::{Spot, pause_after, spot_after};
use std::alloc::Global;
use std::net::{Net, SocketAddr, ToSocketAddrs};

/// The servers of a feed, and the snapshot server. If a name has several addresses, they are tried in turn.
#[derive(Clone, Copy)]
pub struct Servers<'a> {
    pub feeds: Feeds<'a>,
    /// `None` to start with the feed's first message.
    pub glimpse: Option<ServerAddress<'a>>,
}

impl<'a> Servers<'a> {
    // Returns a server of the feed, or the snapshot server.
    fn get(&self, live: bool, server: usize) -> Option<ServerAddress<'a>> {
        if live {
            return self.feeds.get(server);
        }
        if server == 0 { self.glimpse } else { None }
    }
}

/// The address to try next.
#[derive(Drop)]
pub struct Route<'a> {
    servers: Servers<'a>,
    spot: Spot,
    // The addresses found for the name of the current server.
    found: Vec<SocketAddr>,
    // The only address to try, if it is fixed.
    only: Option<SocketAddr>,
    // The length of the last wait, and the time at which a login was accepted since.
    wait_ms: u64,
    accepted_ms: Option<u64>,
}

impl<'a> Route<'a> {
    /// Creates a route that begins with the first address.
    pub fn new(alloc: Global, servers: Servers<'a>) -> Route<'a> {
        Route {
            servers,
            spot: Spot::FIRST,
            found: Vec::new(alloc),
            only: None,
            wait_ms: 0,
            accepted_ms: None,
        }
    }

    /// Restricts the route to this address.
    pub fn keep_to(&mut self, address: SocketAddr) {
        self.only = Some(address);
    }

    pub fn servers(&self) -> Servers<'a> {
        self.servers
    }

    /// Returns the index of the current or next server among those of the feed.
    pub fn server(&self) -> usize {
        self.spot.server
    }

    /// Returns the name of that server on the command line.
    pub fn name(&self, live: bool) -> Option<&'a str> {
        match self.servers.get(live, self.spot.server) {
            Some(place) => Some(place.text),
            None => None,
        }
    }

    /// Returns the address to connect to, if one is found. The name of a server is resolved each time its turn comes.
    pub fn next<N: Net>(&mut self, net: &N, live: bool) -> Option<SocketAddr> {
        if self.only.is_some() {
            return self.only;
        }
        if self.spot.address == 0 {
            self.look_up(net, live);
        }
        self.found.get(self.spot.address).copied()
    }

    fn look_up<N: Net>(&mut self, net: &N, live: bool) {
        self.found.clear();
        let Some(place) = self.servers.get(live, self.spot.server) else {
            return;
        };
        let Ok(addresses) = (place.host, place.port).to_socket_addrs(net) else {
            return;
        };
        for address in addresses {
            if self.found.push(address).is_err() {
                break;
            }
        }
    }

    /// Records that a login was accepted there at this time.
    pub fn accept(&mut self, now_ms: u64) {
        self.accepted_ms = Some(now_ms);
    }

    /// Starts again with the first address, of another kind of server.
    pub fn begin(&mut self) {
        self.spot = Spot::FIRST;
    }

    /// Records that the connection is lost, or could not be made. Returns how many milliseconds to wait before the next one.
    pub fn lose(&mut self, live: bool, now_ms: u64) -> u64 {
        let stayed_ms = match self.accepted_ms.take() {
            Some(accepted_ms) => now_ms.saturating_sub(accepted_ms),
            None => 0,
        };
        let has_another = self
            .servers
            .get(live, self.spot.server.saturating_add(1))
            .is_some();
        self.spot = spot_after(self.spot, self.found.len(), has_another);
        let pause = pause_after(self.wait_ms, stayed_ms, self.spot.is_first());
        self.wait_ms = pause.counts_ms;
        pause.wait_ms
    }
}
