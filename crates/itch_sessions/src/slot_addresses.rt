//! The addresses of the clients with a place.

use std::alloc::{AllocError, Global};
use std::net::IpAddr;

/// The address of the client at each place.
#[derive(Drop)]
pub struct SlotAddresses {
    addresses: Vec<Option<IpAddr>>,
}

impl SlotAddresses {
    /// Creates this number of free places.
    ///
    /// # Errors
    ///
    /// [`AllocError`] if memory is refused.
    pub fn new(alloc: Global, places: usize) -> Result<SlotAddresses, AllocError> {
        let mut addresses = Vec::with_capacity(alloc, places)?;
        for _place in 0..places {
            addresses.push(None)?;
        }
        Ok(SlotAddresses { addresses })
    }

    /// Records the address of the client at a place, or that the place is free.
    pub fn set(&mut self, place: usize, address: Option<IpAddr>) {
        if let Some(slot) = self.addresses.get_mut(place) {
            *slot = address;
        }
    }

    /// Returns the address of the client at a place, if there is one.
    pub fn at(&self, place: usize) -> Option<IpAddr> {
        *self.addresses.get(place)?
    }

    /// Returns the number of places with clients from this address.
    pub fn of(&self, address: IpAddr) -> usize {
        self.addresses
            .iter()
            .filter(|slot| **slot == Some(address))
            .count()
    }
}
