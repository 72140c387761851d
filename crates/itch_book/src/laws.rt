//! Laws of orders and of all books, of any size.
//!
//! Each function of this module has an empty body: its clauses state the laws.
ghost use Rattle.std.specs.Prelude.{◌≡◌, ℕ, ◌<◌, ◌⊎◌, ◌↔◌, true, false, List, Some, Option, IsPermutation, IfSome, IfNone, Contains, slice_get, find};
ghost use Rattle.std.specs.List.{filter, AllByRecursion};
ghost use Rattle.itch_codec.specs.declared.orders.Side.{Side};
ghost use Rattle.itch_book.specs.declared.order.Order.{Order};
ghost use Rattle.itch_book.specs.Orders.{is_better, is_of, is_in, queue, sides, level, is_next, next_price, lay, get, first, added, taken, without, replaced, IsDistinct, AllFit, IsLive, IsBook};
ghost use Rattle.itch_book.specs.Priority.{arrival, IsLine};

use crate::book::OrderBook;

/// A queue contains the orders of its locate and side, each as often as it arrived. For any two positions in it, one is before the other if
/// and only if its order has the better price, or the same price and arrived earlier. No other list has these two properties.
#[tactic(auto, using(crate::proofs::QueueLemmas::queue_members))]
pub fn queues()
    ensures members { (orders : List Order) → (locate : ℕ) → (side : Side)
        → IsPermutation (filter (is_of locate side) orders) (queue orders locate side) }
    ensures priority { (orders : List Order) → (locate : ℕ) → (side : Side) → IsDistinct orders
        → (i j : ℕ) → (x y : Order) → slice_get (queue orders locate side) i ≡ Some x → slice_get (queue orders locate side) j ≡ Some y
        → ((i < j) ↔ ((is_better side x.price y.price ≡ true) ⊎ ((x.price ≡ y.price) × (arrival orders x < arrival orders y)))) }
    ensures line { (orders : List Order) → (locate : ℕ) → (side : Side) → IsDistinct orders
        → IsLine orders locate side (queue orders locate side) }
    ensures only { (orders : List Order) → (locate : ℕ) → (side : Side) → (line : List Order) → IsDistinct orders
        → IsLine orders locate side line → line ≡ queue orders locate side }
{}

/// A laid list, that is, a list sorted into snapshot order, does not change if it is laid again, and has the same queues and the same orders
/// as the original list.
#[tactic(auto, using(crate::proofs::LawRules::laid_laws))]
pub fn laid_lists()
    ensures laid { (orders : List Order) → lay (lay orders) ≡ lay orders }
    ensures queues { (orders : List Order) → (locate : ℕ) → (side : Side) → AllFit orders
        → queue (lay orders) locate side ≡ queue orders locate side }
    ensures get { (orders : List Order) → (reference : ℕ) → IsDistinct orders → AllFit orders
        → get (lay orders) reference ≡ get orders reference }
{}

/// A change has the same effect on a list and on the laid list, after both results are laid.
#[tactic(auto, using(crate::proofs::LawRules::effect_laws))]
pub fn changes()
    ensures added { (x : Order) → (orders : List Order) → lay (added x (lay orders)) ≡ lay (added x orders) }
    ensures taken { (reference shares : ℕ) → (orders : List Order)
        → lay (taken reference shares (lay orders)) ≡ lay (taken reference shares orders) }
    ensures without { (reference : ℕ) → (orders : List Order) → lay (without reference (lay orders)) ≡ lay (without reference orders) }
    ensures replaced { (original reference shares price : ℕ) → (orders : List Order) → IsDistinct orders → AllFit orders
        → lay (replaced original reference shares price (lay orders)) ≡ lay (replaced original reference shares price orders) }
{}

/// Lists with equal queues, or with equal orders at every price level, have the same laid list.
#[tactic(auto, using(crate::proofs::LawRules::same_laws))]
pub fn same_lists()
    ensures queues { (xs ys : List Order)
        → ((locate : ℕ) → (side : Side) → queue xs locate side ≡ queue ys locate side) → lay xs ≡ lay ys }
    ensures levels { (xs ys : List Order)
        → ((locate : ℕ) → (side : Side) → (price : ℕ) → level xs locate side price ≡ level ys locate side price) → lay xs ≡ lay ys }
{}

/// Live orders with distinct references, laid, are the list of a book. The list of a book is laid, the first order of each locate and side is
/// the first of its queue, and the orders of a locate are its bids and then its asks.
#[tactic(auto, using(crate::proofs::LawRules::book_laws))]
pub fn books()
    ensures made { (orders : List Order) → IsDistinct orders → AllByRecursion IsLive orders → IsBook (lay orders) }
    ensures laid { (orders : List Order) → IsBook orders → lay orders ≡ orders }
    ensures front { (orders : List Order) → (locate : ℕ) → (side : Side) → IsBook orders
        → find (is_of locate side) orders ≡ first (queue orders locate side) }
    ensures sides { (orders : List Order) → (locate : ℕ) → IsBook orders → sides orders locate ≡ filter (is_in locate) orders }
{}

/// The next price of a side is the price of an order that is worse than the last price; no such order has a better price. If there is no next
/// price, there is no such order.
#[tactic(auto, using(crate::proofs::LawRules::price_laws))]
pub fn next_prices()
    ensures stands { (orders : List Order) → (locate : ℕ) → (side : Side) → (last : Option ℕ)
        → IfSome (next_price orders locate side last)
        (λ price. (x : Order) × Contains orders x × (is_next locate side last x ≡ true) × (x.price ≡ price)) }
    ensures best { (orders : List Order) → (locate : ℕ) → (side : Side) → (last : Option ℕ) → IsBook orders
        → IfSome (next_price orders locate side last)
        (λ price. AllByRecursion (λ x. is_next locate side last x ≡ true → is_better side x.price price ≡ false) orders) }
    ensures none { (orders : List Order) → (locate : ℕ) → (side : Side) → (last : Option ℕ)
        → IfNone (next_price orders locate side last) (AllByRecursion (λ x. is_next locate side last x ≡ false) orders) }
{}

/// The list of every book is its own laid list.
#[tactic(auto, using(crate::proofs::LawRules::book_laws))]
pub fn book_is_laid<B: OrderBook>(book: &B)
    ensures { lay (B.orders book.now) ≡ B.orders book.now }
{}
