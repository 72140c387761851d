//! Tests of the program's parts: the commands over files, sessions over sockets, and the core of a live server.
//!
//! They cover behaviour that a run of the program does not show: the lines and exit statuses of faults that no run reaches, writes that
//! fail without a buffer before them, sets of all locates, and complete days of calls on a live server's core. Behaviour that can be seen from outside is tested in `tests/program`.
//!
//! The helpers take any book and most have no contract: the proof of a test then does not have to know the effect of each call.
#![tactic(auto)]

#[cfg(test)]
mod commands;
#[cfg(test)]
mod equal;
#[cfg(test)]
mod live;
#[cfg(test)]
mod sessions;
