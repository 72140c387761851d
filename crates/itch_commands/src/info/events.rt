//! The system events of a day.
ghost use Rattle.std.specs.Prelude.{◌≡◌, ◌≢◌, [], ◌∷◌, ◌++◌, ◌⊎◌, true, false};
ghost use Rattle.itch_commands.specs.Tallies.{event_of};

use itch_codec::Message;
use std::alloc::Allocator;

/// A system event, with the number of its message and its time, in nanoseconds since midnight.
#[derive(Clone, Copy)]
pub struct Event {
    pub number: u64,
    pub time: u64,
    pub code: u8,
}

/// The system events so far.
#[derive(Drop)]
pub struct EventList<A: Allocator> {
    pub events: Vec<Event, A>,
    /// Whether the list is complete: memory never ran out for one.
    pub is_complete: bool,
}

impl<A: Allocator> EventList<A> {
    /// Creates an empty list.
    pub fn new(alloc: A) -> EventList<A>
        ensures events { result.events.items ≡ [] }
        ensures complete { result.is_complete ≡ true }
    {
        EventList {
            events: Vec::new(alloc),
            is_complete: true,
        }
    }

    /// Adds the message with this number, if it is a system event.
    pub fn pass(&mut self, number: u64, message: &Message<'_>)
        ensures complete { self.new.is_complete ≡ true → (self.old.is_complete ≡ true) × (self.new.events.items ≡ self.old.events.items ++ event_of number message.now) }
        ensures lost { self.new.is_complete ≡ false → (self.old.is_complete ≡ false) ⊎ (event_of number message.now ≢ []) }
    {
        if let Message::SystemEvent(event) = message {
            self.push(Event {
                number,
                time: event.header.stamp.value(),
                code: event.code,
            });
        }
    }

    // This is a function of its own so that code for few messages stays out of the loop.
    #[cold]
    #[inline(never)]
    fn push(&mut self, event: Event)
        ensures complete { self.new.is_complete ≡ true → (self.old.is_complete ≡ true) × (self.new.events.items ≡ self.old.events.items ++ event ∷ []) }
    {
        if self.events.push(event).is_err() {
            self.is_complete = false;
        }
    }
}
