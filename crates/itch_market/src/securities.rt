//! The securities of the directory by locate.
ghost use Rattle.std.specs.Prelude.{◌≡◌, None, IsTrue, OnOk, OnErr, IsErr};
ghost use Rattle.std.specs.FinMap as map;
ghost use Rattle.std.specs.Option.{option_copied};
ghost use Rattle.itch_market.specs.Effects.{entered, changed, with_action, with_sho, with_halt, with_position, lacks_halt, lacks_position};
ghost use Rattle.itch_market.specs.Slots.{has_stock};

use crate::locates::Locates;
use crate::named_slots::NamedSlots;
use crate::security::{Action, Security};
use itch_codec::{Alpha, Directory};
use std::alloc::{AllocError, Allocator, Global};
use std::marker::Model;

/// The data of the securities, by locate.
///
/// A look-up is one step. An entry at a locate beyond all others allocates a slot and eight bytes for each locate up to it, and up to the
/// same amount again, so that entries with ascending locates seldom copy the slots. The first halt at a market code and the first position of
/// a market participant allocate; nothing else does.
#[derive(Drop)]
pub(crate) struct Securities<A: Allocator = Global> {
    slots: NamedSlots<A>,
}

impl<A: Allocator> Model for Securities<A> {
    ghost use Rattle.std.specs.Prelude.{◌≤◌, length};
    ghost use Rattle.std.specs.FinMap as map;
    ghost use Rattle.std.specs.Coded.{codes};
    ghost use Rattle.itch_market.specs.Content.{Securities};

    ghost Value = { Securities };

    ghost coded = { Prim.hlevel (codes, map.code) };

    ghost use Rattle.itch_market.specs.Slots.{directory};

    ghost view = { λ s. directory s.slots };

    ghost invariant = { λ s. length s.slots ≤ 65536 };
}

impl<A: Allocator + Copy> Securities<A> {
    /// Creates an empty collection, without allocating.
    pub(crate) fn new(alloc: A) -> Self
        ensures { result ≡ map.empty }
    {
        Securities {
            slots: NamedSlots::new(alloc),
        }
    }

    /// Returns the security at a locate.
    pub(crate) fn get(&self, locate: u16) -> Option<&Security<A>>
        ensures { option_copied result ≡ map.get self.now locate }
    {
        match self.slots.all().get(usize::from(locate)) {
            Some(slot) => slot.as_ref(),
            None => None,
        }
    }

    /// Returns whether a locate has a security with this stock.
    #[inline(always)]
    pub(crate) fn has_stock(&self, locate: u16, stock: Alpha<8>) -> bool
        ensures { result ≡ has_stock (map.get self.now locate) stock }
    {
        self.slots.has_stock(usize::from(locate), stock)
    }

    /// Stores a directory entry at a locate. All other data of a security there remains. If an allocation fails, nothing changes.
    pub(crate) fn enter(&mut self, locate: u16, entry: Directory) -> Result<(), AllocError>
        ensures ok { OnOk result (self.new ≡ map.insert self.old locate (entered (map.get self.old locate) entry)) }
        ensures err { OnErr result (self.new ≡ self.old) }
        ensures memory { IsErr result → map.get self.old locate ≡ None }
    {
        let at = usize::from(locate);
        if let Some(mut security) = self.slots.take(at) {
            security.set_entry(entry);
            self.slots.put(at, security);
            return Ok(());
        }
        self.slots.grow_to(at + 1)?;
        let alloc = self.slots.allocator();
        self.slots.put(at, Security::new(alloc, entry));
        Ok(())
    }

    /// Changes the trading action at a locate, if there is a security.
    pub(crate) fn set_action(&mut self, locate: u16, action: Action)
        ensures { self.new ≡ changed (with_action action) locate self.old }
    {
        let at = usize::from(locate);
        if let Some(mut security) = self.slots.take(at) {
            security.set_action(action);
            self.slots.put(at, security);
        }
    }

    /// Changes the Reg SHO restriction at a locate, if there is a security.
    pub(crate) fn set_sho(&mut self, locate: u16, sho: u8)
        ensures { self.new ≡ changed (with_sho sho) locate self.old }
    {
        let at = usize::from(locate);
        if let Some(mut security) = self.slots.take(at) {
            security.set_sho(sho);
            self.slots.put(at, security);
        }
    }

    /// Changes the action at a market code of a locate, if there is a security. If an allocation fails, nothing changes.
    pub(crate) fn set_halt(
        &mut self,
        locate: u16,
        market_code: u8,
        action: u8,
    ) -> Result<(), AllocError>
        ensures ok { OnOk result (self.new ≡ changed (with_halt market_code action) locate self.old) }
        ensures err { OnErr result (self.new ≡ self.old) }
        ensures memory { IsErr result → IsTrue (lacks_halt (map.get self.old locate) market_code) }
    {
        let at = usize::from(locate);
        let Some(mut security) = self.slots.take(at) else {
            return Ok(());
        };
        let kept = security.set_halt(market_code, action);
        self.slots.put(at, security);
        kept
    }

    /// Changes a market participant's position at a locate, if there is a security. If an allocation fails, nothing changes.
    pub(crate) fn set_position(
        &mut self,
        locate: u16,
        mpid: Alpha<4>,
        position: [u8; 3],
    ) -> Result<(), AllocError>
        ensures ok { OnOk result (self.new ≡ changed (with_position mpid position) locate self.old) }
        ensures err { OnErr result (self.new ≡ self.old) }
        ensures memory { IsErr result → IsTrue (lacks_position (map.get self.old locate) mpid) }
    {
        let at = usize::from(locate);
        let Some(mut security) = self.slots.take(at) else {
            return Ok(());
        };
        let kept = security.set_position(mpid, position);
        self.slots.put(at, security);
        kept
    }

    /// Returns the locates, in ascending order.
    pub(crate) fn locates(&self) -> Locates<'_, A>
        ensures { result ≡ map.keys self.now }
    {
        Locates::new(self.slots.all())
    }
}
