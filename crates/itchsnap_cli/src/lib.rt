//! The program's command line, and the input of its commands.
//!
//! [`arguments`] parses the command line into a job. [`input`] is a file or standard input, and shows the progress of reading it.
#![tactic(auto)]

pub mod command_line;
pub mod input;
pub mod laws;
