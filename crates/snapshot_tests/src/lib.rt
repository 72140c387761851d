//! Tests of `itch_snapshot`, `itch_join` and `itch_soup` through their public items only, each crate in the module with its name, and the
//! examples of the libraries' pages and of the guide.
//!
//! They cover behaviour that no clause states: snapshots and packets byte by byte, calls that succeed with ample memory, failures of devices,
//! and each allocation refused in turn. `files` and `sessions` contain the shared parts.
//!
//! Hostile use of snapshots and sessions has its own modules: in `refused_memory` each allocation of a call is refused in turn,
//! `broken_input` covers each prefix of a session and each of its bytes at each value, and in `failing_devices` each read and each write
//! fails in turn.
//!
//! The helpers take any book and most have no contract: code that owns a market or a joiner with a concrete book then has few exits, and the
//! proof of a test does not have to know the effect of each call.
#![tactic(auto)]

#[cfg(test)]
mod broken_input;
#[cfg(test)]
mod equal;
#[cfg(test)]
mod examples;
#[cfg(test)]
mod failing_devices;
#[cfg(test)]
mod files;
#[cfg(test)]
mod join;
#[cfg(test)]
mod refused_memory;
#[cfg(test)]
mod sessions;
#[cfg(test)]
mod snapshot;
#[cfg(test)]
mod soup;
