//! An index of orders: a table of references, and queues under ordered prices.
ghost use Rattle.std.specs.Prelude.{◌≡◌, ℕ, ◌<◌, ◌≤◌, ◌-◌, List, [], length, Some, None, eqb, true, find, OnOk, OnErr, IfOk, IsSome, IsSomeAnd, IfSome, Option, option_map};
ghost use Rattle.std.specs.List.{list_any};
ghost use Rattle.itch_book.specs.Table.{at, Updates, IsSame};
ghost use Rattle.itch_codec.specs.declared.orders.Side.{Side};
ghost use Rattle.itch_codec.specs.declared.orders.Side.TheVariants.{Buy, Sell};
ghost use Rattle.itch_book.specs.Links.{at_key};
ghost use Rattle.itch_book.specs.Queued.{seen, keys_at, order_at, found};
ghost use Rattle.std.specs.Option.{option_copied};
ghost use Rattle.itch_book.specs.Orders.{get, is_in, is_of, first, after, next_price, level_total, lay, added, taken, without, replaced, IsBook};
ghost use Rattle.itch_book.specs.TakenShares.{IsLeft};
ghost use Rattle.itch_book.specs.Indexed.{queue_of_side, Place, indexed, IsIndexed, IsBusy, IsBusyBut, IsWhole};

use crate::ahead::{MANY, links_of};
use crate::order::{Order, Placed, Taken, order_of};
use crate::prices::Prices;
use crate::queues::Queues;
use crate::table::Table;
use itch_codec::Side;
use std::alloc::{AllocError, Allocator, Global};
use std::cell::Cell;
use std::marker::Model;

/// The live orders as one queue per price, which contracts describe as the list in snapshot order.
#[derive(Drop)]
pub(crate) struct Index<A: Allocator = Global> {
    // The node of each reference.
    references: Table<A>,
    prices: Prices<A>,
    queues: Queues<A>,
    // The data last read ahead. Nothing uses it, but the compiler may omit a read whose result is not stored.
    touched: Cell<u64>,
}

impl<A: Allocator> Model for Index<A> {
    ghost use Rattle.std.specs.Prelude.{List};
    ghost use Rattle.itch_book.specs.Table.{at};
    ghost use Rattle.itch_book.specs.declared.order.Order.{Order};
    ghost use Rattle.itch_book.specs.Queued.{seen};
    ghost use Rattle.itch_book.specs.Indexed.{indexed, IsWhole};

    ghost Value = { List Order };

    ghost view = { λ b. indexed (seen b.queues) b.prices.bids b.prices.asks };

    ghost invariant = { λ b. IsWhole (at b.references) b.prices.bids b.prices.asks (seen b.queues) };
}

impl<A: Allocator + Copy> Index<A> {
    /// Creates an empty index.
    pub(crate) fn new(alloc: A) -> Self
        ensures { result ≡ [] }
    {
        Index {
            references: Table::new(alloc),
            prices: Prices::new(alloc),
            queues: Queues::new(alloc),
            touched: Cell::new(0),
        }
    }

    /// Returns the number of orders.
    pub(crate) fn len(&self) -> usize
        ensures { result ≡ length self.now }
    {
        self.references.len()
    }

    /// Returns the order with a reference.
    pub(crate) fn get(&self, reference: u64) -> Option<&Order>
        ensures order { option_copied result ≡ get self.now reference }
        ensures book { IsBook self.now }
    {
        let key = node_at(&self.references, reference)?;
        Some(self.queues.order(key))
    }

    /// Adds an order, last at its price. If an allocation fails, nothing changes.
    pub(crate) fn add(&mut self, order: Order) -> Result<(), AllocError>
        requires some_shares { 0 < order.shares }
        requires new_reference { get self.old order.reference ≡ None }
        ensures ok { OnOk result (self.new ≡ lay (added order self.old)) }
        ensures err { OnErr result (self.new ≡ self.old) }
    {
        self.queues.reserve()?;
        let key = self.queues.next_key();
        refer(&mut self.references, order.reference, key)?;
        let level = level_for(
            &mut self.prices,
            &mut self.queues,
            order.locate,
            order.side,
            order.price,
        );
        match level {
            Ok(queue) => {
                put_last(&mut self.queues, queue, order);
                Ok(())
            }
            Err(error) => {
                self.references.remove(order.reference);
                Err(error)
            }
        }
    }

    /// Takes shares from an order, which keeps its place, and removes it if no shares remain.
    pub(crate) fn take(&mut self, reference: u64, shares: u32) -> Taken
        requires { IsSomeAnd (get self.old reference) (λ x. shares ≤ x.shares) }
        ensures orders { self.new ≡ lay (taken reference shares self.old) }
        ensures left { IfSome (get self.old reference) (λ x. IsLeft (x.shares - shares) result) }
    {
        let key = known_node(&self.references, reference);
        let left = self.queues.order(key).shares - shares;
        if left == 0 {
            take_out(
                &mut self.references,
                &mut self.prices,
                &mut self.queues,
                reference,
            );
            return Taken::Gone;
        }
        self.queues.set_shares(key, left);
        Taken::Left(left)
    }

    /// Removes an order, and returns it.
    pub(crate) fn delete(&mut self, reference: u64) -> Order
        requires { IsSome (get self.old reference) }
        ensures orders { self.new ≡ lay (without reference self.old) }
        ensures order { get self.old reference ≡ Some result }
    {
        take_out(
            &mut self.references,
            &mut self.prices,
            &mut self.queues,
            reference,
        )
    }

    /// Replaces an order by a new one, last at its price, with the side, locate and attribution of the original.
    /// If an allocation fails, nothing changes.
    pub(crate) fn replace(
        &mut self,
        original: u64,
        reference: u64,
        shares: u32,
        price: u32,
    ) -> Result<(), AllocError>
        requires live { IsSome (get self.old original) }
        requires some_shares { 0 < shares }
        requires new_reference { get self.old reference ≡ None }
        ensures ok { OnOk result (self.new ≡ lay (replaced original reference shares price self.old)) }
        ensures err { OnErr result (self.new ≡ self.old) }
    {
        let old = *self.get(original).unwrap();
        let order = Order {
            reference,
            shares,
            price,
            ..old
        };
        self.add(order)?;
        self.delete(original);
        Ok(())
    }

    /// Returns the order after the one with a reference, among those of its locate. That order is not searched for if it is at this node.
    pub(crate) fn after(&self, reference: u64, node: usize) -> Option<Placed<'_>>
        requires { IsSome (get self.now reference) }
        ensures { option_map (λ p. p.order.now) result ≡ after self.now reference }
    {
        let key = node_from(&self.references, &self.queues, reference, node);
        if let Some(next) = self.queues.next(key) {
            return Some(Placed {
                order: self.queues.order(next),
                place: next,
            });
        }
        let order = self.queues.order(key);
        let level = self
            .prices
            .next_level(order.locate, order.side, Some(order.price));
        if let Some((_, queue)) = level {
            return head_of(&self.queues, queue);
        }
        match order.side {
            Side::Buy => self.best(order.locate, Side::Sell),
            Side::Sell => None,
        }
    }

    /// Reads the orders of the first of these references into the processor's cache, with the data that changes together with them.
    pub(crate) fn look_ahead(&self, references: &[u64]) {
        if self.len() >= MANY {
            let (nodes, seen) = links_of(&self.references, references);
            self.touched
                .set(self.queues.read_around(&nodes) ^ seen as u64);
        }
    }

    /// Reads the first orders at each price of a locate into the processor's cache.
    pub(crate) fn walk_ahead(&self, locate: u16) {
        let bids = self.queues.read_ahead(self.prices.line(locate, Side::Buy));
        let asks = self.queues.read_ahead(self.prices.line(locate, Side::Sell));
        self.touched.set(bids ^ asks);
    }

    /// Returns the first order of a locate.
    pub(crate) fn first(&self, locate: u16) -> Option<Placed<'_>>
        ensures { option_map (λ p. p.order.now) result ≡ find (is_in locate) self.now }
    {
        match self.best(locate, Side::Buy) {
            Some(placed) => Some(placed),
            None => self.best(locate, Side::Sell),
        }
    }

    /// Returns the order of a locate and side with the highest priority.
    pub(crate) fn front(&self, locate: u16, side: Side) -> Option<&Order>
        ensures { option_copied result ≡ find (is_of locate side) self.now }
    {
        order_of(self.best(locate, side))
    }

    // Returns the same order with its node.
    fn best(&self, locate: u16, side: Side) -> Option<Placed<'_>>
        ensures front { option_map (λ p. p.order.now) result ≡ find (is_of locate side) self.now }
        ensures book { IsBook self.now }
    {
        let (_price, queue) = self.prices.next_level(locate, side, None)?;
        head_of(&self.queues, queue)
    }

    /// Returns the best price of a side, or the best one worse than the last.
    pub(crate) fn next_price(&self, locate: u16, side: Side, last: Option<u32>) -> Option<u32>
        ensures { result ≡ next_price self.now locate side last }
    {
        let (price, _queue) = self.prices.next_level(locate, side, last)?;
        Some(price)
    }

    /// Returns the total shares at a price, and the number of orders.
    pub(crate) fn level_total(&self, locate: u16, side: Side, price: u32) -> (u128, u64)
        ensures { result ≡ level_total self.now locate side price }
    {
        match self.prices.queue_at(locate, side, price) {
            Some(queue) => self.queues.totals(queue),
            None => (0, 0),
        }
    }
}

// Returns the node of a reference.
fn node_at<A: Allocator>(references: &Table<A>, reference: u64) -> Option<usize>
    ensures { result ≡ at references.now reference }
{
    match references.get(reference) {
        Some(link) => Some(link as usize),
        None => None,
    }
}

// Returns the node of a reference that is in the table.
fn known_node<A: Allocator>(references: &Table<A>, reference: u64) -> usize
    requires { IsSome (at references.now reference) }
    ensures { at references.now reference ≡ Some result }
{
    node_at(references, reference).unwrap()
}

// Returns the node of a reference that is in the table: this node, if it holds the order.
fn node_from<A: Allocator>(
    references: &Table<A>,
    queues: &Queues<A>,
    reference: u64,
    node: usize,
) -> usize
    requires there { IsSome (at references.now reference) }
    requires named { (k : ℕ) → (x : Order) → order_at queues.now k ≡ Some x → at references.now x.reference ≡ Some k }
    ensures { at references.now reference ≡ Some result }
{
    if queues.has_at(node, reference) {
        return node;
    }
    known_node(references, reference)
}

// Links a new reference to the next node. If the allocation fails, or if no link can hold the node's key, nothing changes.
fn refer<A: Allocator + Copy>(
    references: &mut Table<A>,
    reference: u64,
    node: usize,
) -> Result<(), AllocError>
    requires { at references.old reference ≡ None }
    ensures ok { OnOk result (Updates references.old references.new reference (Some node)) }
    ensures few { OnOk result (node < 4294967295) }
    ensures err { OnErr result (IsSame references.old references.new) }
{
    if node >= u32::MAX as usize {
        return Err(AllocError);
    }
    references.insert(reference, node as u32)
}

// Returns the queue at a price of a side, and opens it if there is none. If an allocation fails, nothing changes.
fn level_for<A: Allocator + Copy>(
    prices: &mut Prices<A>,
    queues: &mut Queues<A>,
    locate: u16,
    side: Side,
    price: u32,
) -> Result<usize, AllocError>
    requires { 0 < queues.old.queue_room }
    ensures index { (references : ℕ → Option ℕ) → IsIndexed references prices.old.bids prices.old.asks (seen queues.old) → IsIndexed references prices.new.bids prices.new.asks (seen queues.new) }
    ensures view { (references : ℕ → Option ℕ) → IsIndexed references prices.old.bids prices.old.asks (seen queues.old) → indexed (seen queues.new) prices.new.bids prices.new.asks ≡ indexed (seen queues.old) prices.old.bids prices.old.asks }
    ensures queue { IfOk result (λ q. queue_of_side side prices.new.bids prices.new.asks locate price ≡ Some q) }
    ensures room { queues.new.node_room ≡ queues.old.node_room }
    ensures next { queues.new.next_key ≡ queues.old.next_key }
    ensures busy { IfOk result (λ q. (references : ℕ → Option ℕ) → IsIndexed references prices.old.bids prices.old.asks (seen queues.old) → IsBusy (seen queues.old) prices.old.bids prices.old.asks → IsBusyBut (seen queues.new) prices.new.bids prices.new.asks q) }
    ensures kept { OnErr result (IsBusy (seen queues.old) prices.old.bids prices.old.asks → IsBusy (seen queues.new) prices.new.bids prices.new.asks) }
{
    prices.level(queues, locate, side, price)
}

// Closes the queue at a price, if it is empty.
fn close_empty<A: Allocator + Copy>(
    prices: &mut Prices<A>,
    queues: &mut Queues<A>,
    queue: usize,
    locate: u16,
    side: Side,
    price: u32,
)
    requires { IsSome (keys_at queues.old queue) }
    ensures index { (references : ℕ → Option ℕ) → IsIndexed references prices.old.bids prices.old.asks (seen queues.old) → queue_of_side side prices.old.bids prices.old.asks locate price ≡ Some queue → IsIndexed references prices.new.bids prices.new.asks (seen queues.new) }
    ensures view { (references : ℕ → Option ℕ) → IsIndexed references prices.old.bids prices.old.asks (seen queues.old) → queue_of_side side prices.old.bids prices.old.asks locate price ≡ Some queue → indexed (seen queues.new) prices.new.bids prices.new.asks ≡ indexed (seen queues.old) prices.old.bids prices.old.asks }
    ensures busy { (references : ℕ → Option ℕ) → IsIndexed references prices.old.bids prices.old.asks (seen queues.old) → queue_of_side side prices.old.bids prices.old.asks locate price ≡ Some queue → IsBusyBut (seen queues.old) prices.old.bids prices.old.asks queue → IsBusy (seen queues.new) prices.new.bids prices.new.asks }
{
    if queues.first(queue).is_some() {
        return;
    }
    prices.close_level(queues, queue, locate, side, price);
}

// Removes the order with a reference, and then its queue if that is empty.
fn take_out<A: Allocator + Copy>(
    references: &mut Table<A>,
    prices: &mut Prices<A>,
    queues: &mut Queues<A>,
    reference: u64,
) -> Order
    requires { IsSomeAnd (at references.old reference) (λ k. IsSome (order_at queues.old k)) }
    ensures order { IfSome (at references.old reference) (λ k. order_at queues.old k ≡ Some result) }
    ensures whole { IsWhole (at references.old) prices.old.bids prices.old.asks (seen queues.old) → IsWhole (at references.new) prices.new.bids prices.new.asks (seen queues.new) }
    ensures view { IsWhole (at references.old) prices.old.bids prices.old.asks (seen queues.old) → indexed (seen queues.new) prices.new.bids prices.new.asks ≡ lay (without reference (indexed (seen queues.old) prices.old.bids prices.old.asks)) }
{
    let key = references.remove(reference) as usize;
    let queue = queues.queue_of(key);
    let order = queues.unlink(key);
    close_empty(prices, queues, queue, order.locate, order.side, order.price);
    order
}

// Returns the first order of a queue.
fn head_of<A: Allocator>(queues: &Queues<A>, queue: usize) -> Option<Placed<'_>>
    requires there { IsSome (keys_at queues.now queue) }
    requires live { (ks : List ℕ) → (k : ℕ) → keys_at queues.now queue ≡ Some ks → list_any (eqb k) ks ≡ true → IsSome (order_at queues.now k) }
    ensures { (ks : List ℕ) → keys_at queues.now queue ≡ Some ks → option_map (λ p. p.order.now) result ≡ first (found (order_at queues.now) ks) }
{
    let key = queues.first(queue)?;
    Some(Placed {
        order: queues.order(key),
        place: key,
    })
}

// Puts an order last in the queue of its price. The caller has reserved room, and the order's reference already links to its node.
fn put_last<A: Allocator + Copy>(queues: &mut Queues<A>, queue: usize, order: Order)
    requires there { IsSome (keys_at queues.old queue) }
    requires room { 0 < queues.old.node_room }
    requires few { queues.old.next_key < 4294967295 }
    requires some_shares { 0 < order.shares }
    ensures index { (references references' : ℕ → Option ℕ) → (bids asks : List (Place × ℕ)) → IsIndexed references bids asks (seen queues.old) → queue_of_side order.side bids asks order.locate order.price ≡ Some queue → get (indexed (seen queues.old) bids asks) order.reference ≡ None → ((r : ℕ) → references' r ≡ at_key order.reference (Some queues.old.next_key) references r) → IsIndexed references' bids asks (seen queues.new) }
    ensures view { (references : ℕ → Option ℕ) → (bids asks : List (Place × ℕ)) → IsIndexed references bids asks (seen queues.old) → queue_of_side order.side bids asks order.locate order.price ≡ Some queue → get (indexed (seen queues.old) bids asks) order.reference ≡ None → indexed (seen queues.new) bids asks ≡ lay (added order (indexed (seen queues.old) bids asks)) }
    ensures busy { (bids asks : List (Place × ℕ)) → IsBusyBut (seen queues.old) bids asks queue → IsBusy (seen queues.new) bids asks }
{
    queues.push_last(queue, order);
}
