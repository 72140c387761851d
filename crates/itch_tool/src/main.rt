//! `itchsnap`: market snapshots from day files of TotalView-ITCH 5.0 messages.
//!
//! `itchsnap_cli::command_line` parses the command line. The commands over files are those of `itch_commands`; `run` opens files and standard
//! streams for them. `serve` and `fetch` use `itch_sessions`, over sockets; `live`, `follow` and `feed` use `itchsnap_live` and
//! `itch_clients`, and `status` asks a live server over HTTP.
#![tactic(auto)]

mod answers;
mod at;
mod beginning;
mod books;
mod changes;
mod checkpoints;
mod container;
mod counts;
mod explaining;
mod failure;
mod feed;
mod final_status;
mod hints;
mod history;
mod indexed;
mod indexing;
mod lacked_locate;
mod live;
mod locate_list;
mod names;
mod noted;
mod opened;
mod output;
mod password;
mod points;
mod run;
mod same_file;
mod second_look;
mod selected;
mod serving;
mod sockets;
mod standard_streams;
mod status;

use crate::beginning::Beginning;
use crate::explaining::{explain, finish};
use crate::names::JobNames;
use crate::password::password_of_environment;
use crate::run::run;
use crate::standard_streams::Occupied;
use clap::Error;
use itchsnap_cli::command_line::{read_job, usage_error};
use std::alloc::{AllocError, Global};
use std::env::{self, Args, Env};
use std::io::{self, IsTerminal};
use std::process::ExitCode;

/// The words of the command line, beginning with the program's name, and the password in the environment.
#[derive(Drop)]
struct CommandLine {
    line: Vec<String>,
    password: Option<String>,
}

fn main(rt: HostRuntime) -> ExitCode {
    let _occupied = Occupied::open(&rt);
    ExitCode::from(match read_arguments(&rt) {
        Ok(arguments) => perform(&rt, &arguments),
        Err(error) => explain(&rt, error),
    })
}

// Runs the command line, and returns the exit status.
fn perform(rt: &HostRuntime, arguments: &CommandLine) -> u8 {
    let password = match &arguments.password {
        Some(password) => Some(password.as_str()),
        None => None,
    };
    let terminal = rt.stdout().is_terminal();
    match read_job(rt.alloc(), arguments.line.as_slice(), terminal, password) {
        Ok(job) => {
            let beginning = Beginning::new();
            let outcome = run(rt, &job, &beginning);
            finish(rt, &JobNames::of(&job), &beginning, outcome)
        }
        Err(error) => explain(rt, error),
    }
}

fn read_arguments<R: Env + AllocGlobal>(rt: &R) -> Result<CommandLine, Error> {
    Ok(CommandLine {
        line: read_line(rt.alloc(), env::args(rt))?,
        password: password_of_environment(rt)?,
    })
}

fn read_line(alloc: Global, args: io::Result<Args>) -> Result<Vec<String>, Error> {
    match args {
        Ok(arguments) => Ok(arguments.collect(alloc)?),
        Err(error) if matches!(error.kind(), io::ErrorKind::OutOfMemory) => {
            Err(Error::from(AllocError))
        }
        Err(_) => Err(usage_error(alloc, "an argument is not UTF-8")?),
    }
}
