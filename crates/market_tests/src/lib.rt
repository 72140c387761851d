//! Tests of `itch_book` and `itch_market` through their public items only.
//!
//! They cover behaviour that no clause states: calls that succeed with ample memory, failures of devices, and each allocation refused in
//! turn. Hostile use has its own modules: in `refused_memory` each allocation of a call is refused in turn, and in `failing_replays` each
//! read fails in turn.
//!
//! The helpers take any book and most have no contract: code that owns a market with a concrete book then has few exits, and the proof of a
//! test does not have to know the effect of each call.
#![tactic(auto)]

#[cfg(test)]
mod book;
#[cfg(test)]
mod equal;
#[cfg(test)]
mod failing_replays;
#[cfg(test)]
mod market;
#[cfg(test)]
mod refused_memory;
