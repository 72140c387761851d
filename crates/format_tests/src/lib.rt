//! Tests of `itch_codec`, `itch_frame`, `itch_day` and `itch_book::table` through their public items only, each crate in the module with its
//! name.
//!
//! They cover behaviour that no clause states: vectors of the formats byte by byte, calls that succeed with ample memory, failures of
//! devices, and each allocation refused in turn.
//!
//! The helpers have no contract, so that a proof of a test does not have to know the effect of each call.
#![tactic(auto)]

#[cfg(test)]
mod codec;
#[cfg(test)]
mod day;
#[cfg(test)]
mod equal;
#[cfg(test)]
mod frame;
#[cfg(test)]
mod table;
