//! Changes to a list in snapshot order: orders are inserted, reduced and removed.
ghost use Rattle.std.specs.Prelude.{◌≡◌, ◌-◌, ◌<◌, ◌≤◌, None, Some, IsOk, IsSome, IsSomeAnd, IfSome, OnOk, OnErr, vec_len, vec_capacity};
ghost use Rattle.itch_book.specs.Orders.{IsBook, get, lay, added, taken, without, replaced};
ghost use Rattle.itch_book.specs.TakenShares.{IsLeft};

use crate::order::{Order, Taken};
use crate::priority::{index_of, place_of};
use std::alloc::{AllocError, Allocator};

// Removes the order with a reference, and returns it. The list then has room for another order.
#[tactic(auto, using(crate::proofs::PlaceLemmas::is_cut, crate::proofs::PlaceLemmas::found_there))]
pub(crate) fn take_out<A: Allocator>(orders: &mut Vec<Order, A>, reference: u64) -> Order
    requires book { IsBook orders.old.items }
    requires live { IsSome (get orders.old.items reference) }
    ensures book { IsBook orders.new.items }
    ensures orders { orders.new.items ≡ lay (without reference orders.old.items) }
    ensures order { get orders.old.items reference ≡ Some result }
    ensures room { vec_len orders.new < vec_capacity orders.new }
{
    let place = index_of(orders, reference);
    orders.remove(place)
}

// Takes shares from the order with a reference, and removes it if none are left.
pub(crate) fn take_from<A: Allocator>(
    orders: &mut Vec<Order, A>,
    reference: u64,
    shares: u32,
) -> Taken
    requires book { IsBook orders.old.items }
    requires enough { IsSomeAnd (get orders.old.items reference) (λ x. shares ≤ x.shares) }
    ensures book { IsBook orders.new.items }
    ensures orders { orders.new.items ≡ lay (taken reference shares orders.old.items) }
    ensures left { IfSome (get orders.old.items reference) (λ x. IsLeft (x.shares - shares) result) }
{
    let index = index_of(orders, reference);
    let left = orders[index].shares - shares;
    if left == 0 {
        orders.remove(index);
        return Taken::Gone;
    }
    orders[index].shares = left;
    Taken::Left(left)
}

// Inserts an order, last at its price. If there is room, this cannot fail.
pub(crate) fn put_in<A: Allocator>(
    orders: &mut Vec<Order, A>,
    order: Order,
) -> Result<(), AllocError>
    requires book { IsBook orders.old.items }
    requires some_shares { 0 < order.shares }
    requires new_reference { get orders.old.items order.reference ≡ None }
    ensures book { IsBook orders.new.items }
    ensures ok { OnOk result (orders.new.items ≡ lay (added order orders.old.items)) }
    ensures err { OnErr result (orders.new.items ≡ orders.old.items) }
    ensures room { vec_len orders.old < vec_capacity orders.old → IsOk result }
{
    let place = place_of(orders, &order);
    orders.insert(place, order)?;
    Ok(())
}

// Replaces an order by a new one, last at its price, with the locate, side and attribution of the original.
#[tactic(auto, using(crate::proofs::PlaceLemmas::still_absent))]
pub(crate) fn exchange<A: Allocator>(
    orders: &mut Vec<Order, A>,
    original: u64,
    reference: u64,
    shares: u32,
    price: u32,
)
    requires book { IsBook orders.old.items }
    requires live { IsSome (get orders.old.items original) }
    requires some_shares { 0 < shares }
    requires new_reference { get orders.old.items reference ≡ None }
    ensures book { IsBook orders.new.items }
    ensures orders { orders.new.items ≡ lay (replaced original reference shares price orders.old.items) }
{
    let old = take_out(orders, original);
    let order = Order {
        reference,
        shares,
        price,
        ..old
    };
    // The removed order left room.
    put_in(orders, order).unwrap();
}
