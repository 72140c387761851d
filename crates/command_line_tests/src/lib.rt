//! Tests of the command line: the job that each request is read as, and the bytes that are counted for the progress line.
//!
//! They cover behaviour that a run of the program does not show. The errors of a command line are tested in `tests/program`.
#![tactic(auto)]

#[cfg(test)]
mod command_line;
#[cfg(test)]
mod equal;
#[cfg(test)]
mod progress;
