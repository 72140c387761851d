//! The data of a security.
ghost use Rattle.std.specs.Prelude.{◌≡◌, ◌<◌, ◌^◌, None, IsErr, OnOk, OnErr};
ghost use Rattle.std.specs.FinMap as map;
ghost use Rattle.itch_market.specs.Effects.{entered, with_action, with_sho, with_halt, with_position};

use crate::halts::Halts;
use crate::positions::Positions;
use itch_codec::{Alpha, Directory};
use std::alloc::{AllocError, Allocator};
use std::collections::BTreeMap;
use std::marker::Model;

/// A security's trading action: the last Stock Trading Action without its reserved byte.
#[derive(Clone, Copy, Debug, PartialEq, Eq)]
pub struct Action {
    /// The trading state, such as `T` for trading.
    pub state: u8,
    /// The reason for the state.
    pub reason: [u8; 4],
}

/// The data of a security without its orders.
#[derive(Drop)]
pub struct Security<A: Allocator> {
    /// Its last entry in the directory.
    pub entry: Directory,
    /// Its last trading action, if there was one.
    pub action: Option<Action>,
    /// Its last Reg SHO restriction, if there was one.
    pub sho: Option<u8>,
    // the last action at each market code
    halts: BTreeMap<u8, u8, A>,
    // each market participant's primary market maker, mode and state
    positions: BTreeMap<Alpha<4>, [u8; 3], A>,
}

impl<A: Allocator> Model for Security<A> {
    ghost use Rattle.std.specs.FinMap as map;
    ghost use Rattle.std.specs.Coded.{codes};
    ghost use Rattle.itch_market.specs.Content.{Listing};

    ghost Value = { Listing };

    ghost coded = { Prim.hlevel (codes, map.code) };

    ghost view = { λ s. record {
      entry = s.entry;
      action = s.action;
      sho = s.sho;
      halts = map.from_entries s.halts.entries;
      positions = map.from_entries s.positions.entries;
    } };
}

impl<A: Allocator> Security<A> {
    /// Creates the security of a new directory entry, without allocating.
    pub(crate) fn new(alloc: A, entry: Directory) -> Self
    where
        A: Copy,
        ensures { result ≡ entered None entry }
    {
        Security {
            entry,
            action: None,
            sho: None,
            halts: BTreeMap::new(alloc),
            positions: BTreeMap::new(alloc),
        }
    }

    /// Stores a further directory entry.
    pub(crate) fn set_entry(&mut self, entry: Directory)
        ensures { self.new ≡ record self.old { entry = entry } }
    {
        self.entry = entry;
    }

    /// Stores a trading action.
    pub(crate) fn set_action(&mut self, action: Action)
        ensures { self.new ≡ with_action action self.old }
    {
        self.action = Some(action);
    }

    /// Stores a Reg SHO restriction.
    pub(crate) fn set_sho(&mut self, sho: u8)
        ensures { self.new ≡ with_sho sho self.old }
    {
        self.sho = Some(sho);
    }

    /// Stores the action at a market code.
    pub(crate) fn set_halt(&mut self, market_code: u8, action: u8) -> Result<(), AllocError>
    where
        A: Clone,
        ensures ok { OnOk result (self.new ≡ with_halt market_code action self.old) }
        ensures err { OnErr result (self.new ≡ self.old) }
        ensures memory { IsErr result → map.get self.old.halts market_code ≡ None }
    {
        self.halts.insert(market_code, action)?;
        Ok(())
    }

    /// Stores the position of a market participant.
    pub(crate) fn set_position(
        &mut self,
        mpid: Alpha<4>,
        position: [u8; 3],
    ) -> Result<(), AllocError>
    where
        A: Clone,
        ensures ok { OnOk result (self.new ≡ with_position mpid position self.old) }
        ensures err { OnErr result (self.new ≡ self.old) }
        ensures memory { IsErr result → map.get self.old.positions mpid ≡ None }
    {
        self.positions.insert(mpid, position)?;
        Ok(())
    }

    /// Returns the last action of an operational halt at each market code, by ascending code.
    pub fn halts(&self) -> Halts<'_>
        ensures { result ≡ map.entries self.now.halts }
    {
        Halts {
            entries: self.halts.iter(),
        }
    }

    /// Returns the last action of an operational halt at a market code, if there was one.
    pub fn halt(&self, market_code: u8) -> Option<u8>
        ensures { result ≡ map.get self.now.halts market_code }
    {
        self.halts.get(&market_code).copied()
    }

    /// Returns the last position of a market participant, if there was one: primary market maker, mode and state.
    pub fn position(&self, mpid: &Alpha<4>) -> Option<[u8; 3]>
        ensures { result ≡ map.get self.now.positions mpid.now }
    {
        self.positions.get(mpid).copied()
    }

    /// Returns the number of market codes with an action.
    pub fn halts_len(&self) -> usize
        ensures len { result ≡ map.len self.now.halts }
        ensures small { result < 2 ^ 63 }
    {
        self.halts.len()
    }

    /// Returns the number of market participants with a position.
    pub fn positions_len(&self) -> usize
        ensures len { result ≡ map.len self.now.positions }
        ensures small { result < 2 ^ 63 }
    {
        self.positions.len()
    }

    /// Returns the last position of each market participant, in ascending order of their bytes.
    pub fn positions(&self) -> Positions<'_>
        ensures { result ≡ map.entries self.now.positions }
    {
        Positions {
            entries: self.positions.iter(),
        }
    }
}
