//! Reads orders before they are needed.

use super::Queues;
use crate::ahead::{AHEAD, MANY};
use crate::level_lines::Level;
use crate::link::Link;
use std::alloc::Allocator;

// The number of queues that a walk reads at once.
const QUEUES: usize = 16;

// The number of orders that it reads of each queue. Few queues are longer.
const ORDERS: usize = 4;

// The data that changes together with an order: its neighbours, and the totals of its queue.
#[derive(Clone, Copy)]
struct Beside {
    before: Link,
    after: Link,
    queue: usize,
}

impl<A: Allocator> Queues<A> {
    /// Reads the orders of these nodes into the processor's cache, with the data that changes together with them. The result depends on all
    /// data read.
    pub(crate) fn read_around(&self, nodes: &[u32; AHEAD]) -> u64 {
        let mut seen = 0;
        for beside in &self.beside(nodes) {
            seen ^= self.read_beside(beside);
        }
        seen
    }

    // Returns the positions of the data that changes together with the orders of these nodes.
    fn beside(&self, nodes: &[u32; AHEAD]) -> [Beside; AHEAD] {
        let nothing = Beside {
            before: Link::none(),
            after: Link::none(),
            queue: 0,
        };
        let mut all = [nothing; AHEAD];
        for (beside, key) in all.iter_mut().zip(nodes) {
            if let Some(node) = self.nodes.get(*key as usize) {
                *beside = Beside {
                    before: node.before,
                    after: node.after,
                    queue: node.queue,
                };
            }
        }
        all
    }

    fn read_beside(&self, beside: &Beside) -> u64 {
        let orders = match self.heads.get(beside.queue) {
            Some(head) => head.orders,
            None => 0,
        };
        self.reference_at(beside.before) ^ self.reference_at(beside.after) ^ orders
    }

    fn reference_at(&self, link: Link) -> u64 {
        match link.key().and_then(|key| self.nodes.get(key)) {
            Some(node) => node.order.reference,
            None => 0,
        }
    }

    /// Reads the first orders of the levels' queues into the processor's cache, if there are more orders than fit there anyway. The result
    /// depends on all data read.
    pub(crate) fn read_ahead(&self, levels: &[Level]) -> u64 {
        if self.nodes.len() < MANY {
            return 0;
        }
        let mut seen = 0;
        for some in levels.chunks(QUEUES) {
            seen ^= self.read_some(some);
        }
        seen
    }

    fn read_some(&self, levels: &[Level]) -> u64 {
        let mut links = self.first_links(levels);
        let mut seen = 0;
        for _order in 0..ORDERS {
            seen ^= self.read_next(&mut links);
        }
        seen
    }

    // Returns the links to the first nodes of the levels' queues.
    fn first_links(&self, levels: &[Level]) -> [Link; QUEUES] {
        let mut links = [Link::none(); QUEUES];
        for (link, level) in links.iter_mut().zip(levels) {
            if let Some(head) = self.heads.get(level.queue) {
                *link = head.first;
            }
        }
        links
    }

    // Reads the nodes at these links, and replaces the links by those to the next nodes.
    fn read_next(&self, links: &mut [Link; QUEUES]) -> u64 {
        let mut seen = 0;
        for link in links.iter_mut() {
            if let Some(node) = link.key().and_then(|key| self.nodes.get(key)) {
                seen ^= node.order.reference;
                *link = node.after;
            }
        }
        seen
    }
}
