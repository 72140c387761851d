//! Queues of orders: doubly linked nodes, and the ends and totals of each queue.
ghost use Rattle.std.specs.Prelude.{◌≡◌, ℕ, ◌+◌, ◌-◌, ◌<◌, ◌≤◌, ◌^◌, List, [], ◌∷◌, ◌++◌, IsSome, Some, None, Option, option_map, OnOk, eqb, true, IsTrue, ◌↔◌, IsSomeAnd};
ghost use Rattle.std.specs.List.{list_any};
ghost use Rattle.slab.specs.Slab.{get, slab_len, ContainsKey};
ghost use Rattle.itch_book.specs.Links.{at_key, with_after, with_before, unlinked_head, pushed_head, cond_none, first_or};
ghost use Rattle.itch_book.specs.Queued.{keys_at, order_at, without_key, found, totals_of, left_with};
ghost use Rattle.itch_book.specs.declared.queues.Node.{Node};

mod ahead;

use crate::link::Link;
use crate::order::Order;
use slab::Slab;
use std::alloc::{AllocError, Allocator, Global};
use std::marker::Model;
use std::mem::size_of;

// An order in its queue.
#[derive(Clone, Copy, Drop)]
pub(crate) struct Node {
    order: Order,
    // The key of its queue.
    queue: usize,
    // The nodes before and after it in that queue.
    before: Link,
    after: Link,
}

// With the slab's own word, a node is smaller than a cache line of 64 bytes.
const _: () = prove!(size_of::<Node>() == 40);

// The ends of a queue, and its totals.
#[derive(Clone, Copy, Drop)]
pub(crate) struct Head {
    first: Link,
    last: Link,
    shares: u128,
    orders: u64,
}

/// Orders by node key, each in one of many queues.
#[derive(Drop)]
pub(crate) struct Queues<A: Allocator = Global> {
    nodes: Slab<Node, A>,
    heads: Slab<Head, A>,
}

impl<A: Allocator> Model for Queues<A> {
    ghost use Rattle.itch_book.specs.Queued.{Queued, queued};
    ghost use Rattle.itch_book.specs.Links.{IsSound};
    ghost use Rattle.slab.specs.Slab.{get};

    ghost Value = { Queued };

    ghost view = { λ s. queued s.nodes s.heads };

    ghost invariant = { λ s. IsSound (get s.nodes) (get s.heads) };
}

impl<A: Allocator + Copy> Queues<A> {
    /// Creates a collection without queues.
    pub(crate) fn new(alloc: A) -> Self
        ensures queues { result.queues ≡ [] }
        ensures orders { result.orders ≡ [] }
    {
        Queues {
            nodes: Slab::new(alloc),
            heads: Slab::new(alloc),
        }
    }
}

impl<A: Allocator> Queues<A> {
    /// Returns the key of the next order's node.
    pub(crate) fn next_key(&self) -> usize
        ensures { result ≡ self.now.next_key }
    {
        self.nodes.vacant_key()
    }

    /// Returns the key of the next queue.
    pub(crate) fn next_queue(&self) -> usize
        ensures { result ≡ self.now.next_queue }
    {
        self.heads.vacant_key()
    }

    /// Reserves room for one more order, and for one more queue.
    pub(crate) fn reserve(&mut self) -> Result<(), AllocError>
        ensures room { OnOk result ((0 < self.new.node_room) × (0 < self.new.queue_room)) }
        ensures queues { self.new.queues ≡ self.old.queues }
        ensures orders { self.new.orders ≡ self.old.orders }
    {
        self.nodes.reserve(1)?;
        self.heads.reserve(1)
    }

    /// Opens an empty queue.
    pub(crate) fn open(&mut self) -> usize
        requires { 0 < self.old.queue_room }
        ensures key { result ≡ self.old.next_queue }
        ensures vacant { keys_at self.old result ≡ None }
        ensures keys { (q : ℕ) → keys_at self.new q ≡ at_key result (Some []) (keys_at self.old) q }
        ensures orders { self.new.orders ≡ self.old.orders }
        ensures next_key { self.new.next_key ≡ self.old.next_key }
        ensures node_room { self.new.node_room ≡ self.old.node_room }
        ensures queue_room { self.new.queue_room + 1 ≡ self.old.queue_room }
    {
        self.heads.insert_reserved(Head {
            first: Link::none(),
            last: Link::none(),
            shares: 0,
            orders: 0,
        })
    }

    /// Closes an empty queue.
    pub(crate) fn close(&mut self, queue: usize)
        requires { keys_at self.old queue ≡ Some [] }
        ensures keys { (q : ℕ) → keys_at self.new q ≡ at_key queue None (keys_at self.old) q }
        ensures orders { self.new.orders ≡ self.old.orders }
        ensures node_room { self.new.node_room ≡ self.old.node_room }
        ensures queue_room { 0 < self.new.queue_room }
    {
        self.heads.remove(queue);
    }

    /// Puts an order last in a queue.
    pub(crate) fn push_last(&mut self, queue: usize, order: Order) -> usize
        requires there { IsSome (keys_at self.old queue) }
        requires room { 0 < self.old.node_room }
        requires few { self.old.next_key < 4294967295 }
        ensures key { result ≡ self.old.next_key }
        ensures vacant { order_at self.old result ≡ None }
        ensures orders { (k : ℕ) → order_at self.new k ≡ at_key result (Some order) (order_at self.old) k }
        ensures keys { (q : ℕ) → keys_at self.new q ≡ at_key queue (option_map (λ ks. ks ++ result ∷ []) (keys_at self.old queue)) (keys_at self.old) q }
        ensures node_room { self.new.node_room + 1 ≡ self.old.node_room }
        ensures queue_room { self.new.queue_room ≡ self.old.queue_room }
    {
        let shares = order.shares;
        let last = self.heads[queue].last;
        let node = last_node(order, queue, last);
        let key = self.nodes.insert_reserved(node);
        // A queue has no more nodes than the capacity.
        let _most = self.nodes.capacity();
        let link = Link::to(key as u32);
        link_after(&mut self.nodes, last, link);
        let head = head_with(self.heads[queue], link, last, shares);
        set_head(&mut self.heads, queue, head);
        key
    }

    /// Removes an order from its queue.
    pub(crate) fn unlink(&mut self, key: usize) -> Order
        requires { IsSome (order_at self.old key) }
        ensures order { order_at self.old key ≡ Some result }
        ensures orders { (k : ℕ) → order_at self.new k ≡ at_key key None (order_at self.old) k }
        ensures keys { (q : ℕ) → keys_at self.new q ≡ option_map (without_key key) (keys_at self.old q) }
        ensures node_room { 0 < self.new.node_room }
        ensures queue_room { self.new.queue_room ≡ self.old.queue_room }
    {
        let node = self.nodes.remove(key);
        let Node {
            order,
            queue,
            before,
            after,
        } = node;
        link_after(&mut self.nodes, before, after);
        link_before(&mut self.nodes, after, before);
        let head = head_without(self.heads[queue], node);
        set_head(&mut self.heads, queue, head);
        order
    }

    /// Changes the shares of an order, which keeps its place.
    pub(crate) fn set_shares(&mut self, key: usize, shares: u32)
        requires { IsSome (order_at self.old key) }
        ensures orders { (k : ℕ) → order_at self.new k ≡ at_key key (option_map (left_with shares) (order_at self.old key)) (order_at self.old) k }
        ensures keys { (q : ℕ) → keys_at self.new q ≡ keys_at self.old q }
        ensures node_room { self.new.node_room ≡ self.old.node_room }
        ensures queue_room { self.new.queue_room ≡ self.old.queue_room }
    {
        let old = self.nodes[key];
        let queue = old.queue;
        let had = old.order.shares;
        let node = with_shares(old, shares);
        set_node(&mut self.nodes, key, node);
        let head = head_changed(self.heads[queue], had, shares);
        set_head(&mut self.heads, queue, head);
    }

    /// Returns whether the order with a reference is at a node.
    pub(crate) fn has_at(&self, key: usize, reference: u64) -> bool
        ensures { IsTrue result ↔ IsSomeAnd (order_at self.now key) (λ x. x.reference ≡ reference) }
    {
        match self.nodes.get(key) {
            Some(node) => node.order.reference == reference,
            None => false,
        }
    }

    /// Returns the order of a node.
    pub(crate) fn order(&self, key: usize) -> &Order
        requires { IsSome (order_at self.now key) }
        ensures { order_at self.now key ≡ Some result.now }
    {
        &self.nodes[key].order
    }

    /// Returns the queue of a node.
    pub(crate) fn queue_of(&self, key: usize) -> usize
        requires { IsSome (order_at self.now key) }
        ensures member { IsSomeAnd (keys_at self.now result) (λ ks. list_any (eqb key) ks ≡ true) }
        ensures only { (q : ℕ) → (ks : List ℕ) → keys_at self.now q ≡ Some ks → list_any (eqb key) ks ≡ true → result ≡ q }
    {
        self.nodes[key].queue
    }

    /// Returns the node after another one in its queue.
    pub(crate) fn next(&self, key: usize) -> Option<usize>
        requires { IsSome (order_at self.now key) }
        ensures { (q : ℕ) (before after : List ℕ) → keys_at self.now q ≡ Some (before ++ key ∷ after) → result ≡ first_or after None }
    {
        self.nodes[key].after.key()
    }

    /// Returns the first node of a queue.
    pub(crate) fn first(&self, queue: usize) -> Option<usize>
        requires { IsSome (keys_at self.now queue) }
        ensures { (ks : List ℕ) → keys_at self.now queue ≡ Some ks → result ≡ first_or ks None }
    {
        self.heads[queue].first.key()
    }

    /// Returns the total shares of a queue, and the number of orders.
    pub(crate) fn totals(&self, queue: usize) -> (u128, u64)
        requires { IsSome (keys_at self.now queue) }
        ensures { (ks : List ℕ) → keys_at self.now queue ≡ Some ks → result ≡ totals_of (found (order_at self.now) ks) }
    {
        let head = &self.heads[queue];
        (head.shares, head.orders)
    }
}

// Returns a node at the end of a queue, after another one.
fn last_node(order: Order, queue: usize, before: Link) -> Node
    ensures order { result.order ≡ order }
    ensures queue { result.queue ≡ queue }
    ensures before { result.before ≡ before }
    ensures after { result.after ≡ None }
{
    Node {
        order,
        queue,
        before,
        after: Link::none(),
    }
}

// Returns `there` if the link has no node, and `other` if it has one.
fn either(link: Link, there: Link, other: Link) -> Link
    ensures { result ≡ cond_none link there other }
{
    match link.key() {
        None => there,
        Some(_) => other,
    }
}

// Returns the head of a queue with one more node at its end, with these shares, after the node of a link.
fn head_with(head: Head, link: Link, before: Link, shares: u32) -> Head
    requires orders { head.orders + 1 < 2 ^ 64 }
    requires shares { head.shares + shares < 2 ^ 128 }
    ensures { (x : Node) (key : ℕ) → x.before ≡ before → x.order.shares ≡ shares → link ≡ Some key → result ≡ pushed_head key x head }
{
    Head {
        first: either(before, link, head.first),
        last: link,
        shares: head.shares + u128::from(shares),
        orders: head.orders + 1,
    }
}

// Returns the head of a queue without one of its nodes.
fn head_without(head: Head, node: Node) -> Head
    requires orders { 1 ≤ head.orders }
    requires shares { node.order.shares ≤ head.shares }
    ensures { result ≡ unlinked_head node head }
{
    Head {
        first: either(node.before, node.after, head.first),
        last: either(node.after, node.before, head.last),
        shares: head.shares - u128::from(node.order.shares),
        orders: head.orders - 1,
    }
}

// Returns a node with other shares.
fn with_shares(node: Node, shares: u32) -> Node
    ensures { result ≡ record node { order = record node.order { shares = shares } } }
{
    let order = Order {
        shares,
        ..node.order
    };
    Node { order, ..node }
}

// Returns the head of a queue after a change of one node's shares.
fn head_changed(head: Head, had: u32, shares: u32) -> Head
    requires enough { had ≤ head.shares }
    requires fits { head.orders < 2 ^ 64 → head.shares + shares < 2 ^ 128 }
    ensures { result ≡ record head { shares = head.shares - had + shares } }
{
    let rest = head.shares - u128::from(had);
    Head {
        shares: rest + u128::from(shares),
        ..head
    }
}

fn set_node<A: Allocator>(nodes: &mut Slab<Node, A>, key: usize, node: Node)
    requires { ContainsKey nodes.old key }
    ensures nodes { (k : ℕ) → get nodes.new k ≡ at_key key (Some node) (get nodes.old) k }
    ensures len { slab_len nodes.new ≡ slab_len nodes.old }
    ensures capacity { nodes.new.capacity ≡ nodes.old.capacity }
{
    nodes[key] = node;
}

fn set_head<A: Allocator>(heads: &mut Slab<Head, A>, queue: usize, head: Head)
    requires { ContainsKey heads.old queue }
    ensures heads { (q : ℕ) → get heads.new q ≡ at_key queue (Some head) (get heads.old) q }
    ensures len { slab_len heads.new ≡ slab_len heads.old }
    ensures capacity { heads.new.capacity ≡ heads.old.capacity }
{
    heads[queue] = head;
}

fn link_after<A: Allocator>(nodes: &mut Slab<Node, A>, link: Link, after: Link)
    ensures nodes { (k : ℕ) → get nodes.new k ≡ with_after link after (get nodes.old) k }
    ensures len { slab_len nodes.new ≡ slab_len nodes.old }
    ensures capacity { nodes.new.capacity ≡ nodes.old.capacity }
{
    let Some(key) = link.key() else { return };
    let Some(node) = nodes.get_mut(key) else {
        return;
    };
    node.after = after;
}

fn link_before<A: Allocator>(nodes: &mut Slab<Node, A>, link: Link, before: Link)
    ensures nodes { (k : ℕ) → get nodes.new k ≡ with_before link before (get nodes.old) k }
    ensures len { slab_len nodes.new ≡ slab_len nodes.old }
    ensures capacity { nodes.new.capacity ≡ nodes.old.capacity }
{
    let Some(key) = link.key() else { return };
    let Some(node) = nodes.get_mut(key) else {
        return;
    };
    node.before = before;
}
