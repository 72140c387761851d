//! The toolkit for programs in C, C++, Python and Rust: each export calls one function of the libraries.
//!
//! C keeps each object in a [`Handle`](handle::Handle): all zero at first, filled by a call with `new` or `load` in its name, and emptied
//! by [`itchsnap_free`](handle::itchsnap_free). Every export accepts every handle: if the handle does not hold an object of the right kind,
//! the call is refused with a code, and the handle is unchanged.
//!
//! ```c
//! itchsnap_handle market = ITCHSNAP_NONE;
//! itchsnap_market_new(&market);
//! itchsnap_answer answer = itchsnap_market_apply(&market, payload, len);
//! itchsnap_order best = itchsnap_best(&market, 1, true);
//! itchsnap_free(&market);
//! ```
//!
//! `c/demo.c` calls every export in this way.
#![tactic(auto)]

ghost use Rattle.std.specs.Prelude.{◌≡◌};

pub mod answers;
pub mod blocks;
pub mod client;
mod codes;
pub mod fields;
pub mod files;
pub mod handle;
mod join_codes;
pub mod joiner;
mod kept;
pub mod listings;
pub mod lookups;
mod loose;
pub mod market;
pub mod message;
mod object;
pub mod reasons;
pub mod rows;
pub mod server;
pub mod session;
mod slice;
pub mod snapshots;
mod soup_codes;
pub mod times;

const VERSION: u32 = 1;

/// Returns the version of this interface, which is `ITCHSNAP_VERSION` in the header.
#[unsafe(no_mangle)]
pub extern "C" fn itchsnap_version() -> u32
    ensures { result ≡ 1 }
{
    VERSION
}
