//! The delay of rejections: each further guess of a password from the same address is answered later than the one before.

use crate::spot::wait_after;
use std::alloc::{AllocError, Global};
use std::net::IpAddr;

/// The number of addresses that are remembered. After that, the address with the oldest rejection is forgotten.
const MOST: usize = 256;

// An address with rejected logins: the delay of the last rejection, and the time of that login.
#[derive(Clone, Copy)]
struct RejectedAddress {
    address: IpAddr,
    wait_ms: u64,
    at_ms: u64,
}

/// The addresses with rejected logins.
#[derive(Drop)]
pub struct Refusals {
    known: Vec<RejectedAddress>,
}

impl Refusals {
    /// Creates an empty one. It allocates all its memory here.
    ///
    /// # Errors
    ///
    /// [`AllocError`] if memory is refused.
    pub fn new(alloc: Global) -> Result<Refusals, AllocError> {
        Ok(Refusals {
            known: Vec::with_capacity(alloc, MOST)?,
        })
    }

    /// Returns the delay in milliseconds of the rejection of a login from this address, and remembers it.
    pub fn delay_of(&mut self, address: IpAddr, now_ms: u64) -> u64 {
        let (last_ms, passed_ms) = match self.known.iter().find(|it| it.address == address) {
            Some(last) => (last.wait_ms, now_ms.saturating_sub(last.at_ms)),
            None => (0, 0),
        };
        let wait_ms = wait_after(last_ms, passed_ms);
        self.remember(RejectedAddress {
            address,
            wait_ms,
            at_ms: now_ms,
        });
        wait_ms
    }

    fn remember(&mut self, refusal: RejectedAddress) {
        let known = self
            .known
            .iter()
            .position(|it| it.address == refusal.address);
        let place = known.or_else(|| self.oldest_if_full());
        match place {
            Some(place) => {
                if let Some(slot) = self.known.get_mut(place) {
                    *slot = refusal;
                }
            }
            None => {
                let _ = self.known.push(refusal);
            }
        }
    }

    // Returns the place of the address with the oldest rejection, if there is no room for another one.
    fn oldest_if_full(&self) -> Option<usize> {
        if self.known.len() < MOST {
            return None;
        }
        let mut oldest: Option<(usize, u64)> = None;
        for (place, refusal) in self.known.iter().enumerate() {
            if oldest.is_none_or(|(_, at_ms)| refusal.at_ms < at_ms) {
                oldest = Some((place, refusal.at_ms));
            }
        }
        Some(oldest?.0)
    }
}
