//! Which server is connected to next, and when.
ghost use Rattle.std.specs.Prelude.{◌≡◌, ◌==◌, ◌&&◌};
ghost use Rattle.itch_sessions.specs.Routes.{pause_after, spot_after, wait_after};

/// The wait of a follower before it connects again, after the first failure and at most; and how long a server must stay connected for the
/// next failure to count as the first one. All in milliseconds.
const FIRST_WAIT_MS: u64 = 100;

const LONGEST_WAIT_MS: u64 = 5_000;

const STEADY_MS: u64 = 60_000;

/// A server, and one of the addresses found for its name. Both are counted from 0.
#[derive(Clone, Copy, Debug, PartialEq, Eq)]
pub struct Spot {
    pub server: usize,
    pub address: usize,
}

impl Spot {
    /// The first address of the first server.
    pub const FIRST: Spot = Spot {
        server: 0,
        address: 0,
    };

    pub fn is_first(&self) -> bool
        ensures { result ≡ (self.now.server == 0 && self.now.address == 0) }
    {
        self.server == 0 && self.address == 0
    }
}

/// Returns the next spot: the server's next address, of the `found` ones, then the first address of the next server, and after the last
/// server the first one.
pub fn spot_after(spot: Spot, found: usize, has_another: bool) -> Spot
    ensures { result ≡ spot_after spot found has_another }
{
    if spot.address < found.saturating_sub(1) {
        return Spot {
            server: spot.server,
            address: spot.address + 1,
        };
    }
    if !has_another {
        return Spot::FIRST;
    }
    Spot {
        server: spot.server.saturating_add(1),
        address: 0,
    }
}

/// The wait before the next connection, and the wait that the one after it is computed from.
#[derive(Clone, Copy, Debug, PartialEq, Eq)]
pub struct Pause {
    pub wait_ms: u64,
    pub counts_ms: u64,
}

/// Returns the wait before the next connection, from the last wait and the time for which a server stayed connected since. There is no wait
/// before another address, so that each is tried before the first one's turn comes again.
pub fn pause_after(last_ms: u64, stayed_ms: u64, is_first: bool) -> Pause
    ensures { result ≡ pause_after last_ms stayed_ms is_first }
{
    if is_first {
        let wait_ms = wait_after(last_ms, stayed_ms);
        return Pause {
            wait_ms,
            counts_ms: wait_ms,
        };
    }
    Pause {
        wait_ms: 0,
        counts_ms: if stayed_ms >= STEADY_MS { 0 } else { last_ms },
    }
}

/// Returns the wait before the first server's turn comes again: twice the last one, from a tenth of a second to five seconds. After a server
/// that stayed connected for a minute, it is that of a first failure.
pub fn wait_after(last_ms: u64, stayed_ms: u64) -> u64
    ensures { result ≡ wait_after last_ms stayed_ms }
{
    if stayed_ms >= STEADY_MS {
        return FIRST_WAIT_MS;
    }
    last_ms
        .saturating_mul(2)
        .clamp(FIRST_WAIT_MS, LONGEST_WAIT_MS)
}
