//! The objects in handles.
ghost use Rattle.std.specs.Prelude.{◌≡◌};
ghost use Rattle.std.specs.Fn.{FnOnceReturnsAtMut};
ghost use Rattle.std.specs.Option.{option_copied};
ghost use Rattle.itchsnap_c.specs.Objects.{AtJoiner, AtClient, AtServer, market_of};

use itch_adaptive::AdaptiveBook;
use itch_book::{IndexedBook, SettledBook};
use itch_join::Joiner;
use itch_market::Market;
use itch_soup::{ClientSession, ServerSession};
use std::alloc::Global;

/// The type of book in which every market of a handle keeps its orders.
pub(crate) type HandleBook = AdaptiveBook<SettledBook<Global>, IndexedBook<Global>>;

/// The object in a handle.
#[derive(Drop)]
pub(crate) enum Object {
    Market(Market<HandleBook>),
    Joiner(Joiner<HandleBook>),
    Client(ClientSession),
    Server(ServerSession),
}

impl Object {
    /// Returns the market in which look-ups are made: for a joiner the one that it keeps once it has joined.
    pub(crate) fn market(&self) -> Option<&Market<HandleBook>>
        ensures { option_copied result ≡ market_of self.now }
    {
        match self {
            Object::Market(market) => Some(market),
            Object::Joiner(joiner) => joiner.market(),
            Object::Client(_) | Object::Server(_) => None,
        }
    }

    /// Prepares the book of that market for look-ups by price. Nothing changes.
    pub(crate) fn settle(&mut self)
        ensures { self.new ≡ self.old }
    {
        match self {
            Object::Market(market) => market.settle(),
            Object::Joiner(joiner) => joiner.settle_market(),
            Object::Client(_) | Object::Server(_) => {}
        }
    }

    /// Calls a function with a joiner; for any other object the answer is `wrong`.
    pub(crate) fn at_joiner<R: Copy, F: FnOnce(&mut Joiner<HandleBook>) -> R>(
        &mut self,
        wrong: R,
        call: F,
    ) -> R
        requires { F.IsAlwaysCallable call }
        ensures { AtJoiner wrong (FnOnceReturnsAtMut F.FnOnce call) self.old result self.new }
    {
        match self {
            Object::Joiner(joiner) => call(joiner),
            Object::Market(_) | Object::Client(_) | Object::Server(_) => wrong,
        }
    }

    /// Does the same with a client's session.
    pub(crate) fn at_client<R: Copy, F: FnOnce(&mut ClientSession) -> R>(
        &mut self,
        wrong: R,
        call: F,
    ) -> R
        requires { F.IsAlwaysCallable call }
        ensures { AtClient wrong (FnOnceReturnsAtMut F.FnOnce call) self.old result self.new }
    {
        match self {
            Object::Client(session) => call(session),
            Object::Market(_) | Object::Joiner(_) | Object::Server(_) => wrong,
        }
    }

    /// Does the same with a server's session.
    pub(crate) fn at_server<R: Copy, F: FnOnce(&mut ServerSession) -> R>(
        &mut self,
        wrong: R,
        call: F,
    ) -> R
        requires { F.IsAlwaysCallable call }
        ensures { AtServer wrong (FnOnceReturnsAtMut F.FnOnce call) self.old result self.new }
    {
        match self {
            Object::Server(session) => call(session),
            Object::Market(_) | Object::Joiner(_) | Object::Client(_) => wrong,
        }
    }
}
