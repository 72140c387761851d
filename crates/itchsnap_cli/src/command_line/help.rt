//! The help of the program, which lists its commands by topic.

use crate::command_line::commands::{COMMANDS, Topic, command};
use clap::Error;
use clap::error::ErrorKind;
use std::alloc::{AllocError, Global};
use std::fmt::{self, Display, Formatter};

/// The topics of the commands, with their headings.
const TOPICS: [(Topic, &str); 4] = [
    (Topic::Files, "Look into a file"),
    (Topic::Snapshots, "Make and use snapshots"),
    (Topic::Sessions, "Serve and follow over SoupBinTCP"),
    (Topic::Other, "Other commands"),
];

const HEAD: &str = "Market snapshots for TotalView-ITCH 5.0

Usage: itchsnap <COMMAND>
";

const OPTIONS: &str = "  help         Print this message or the help of the given subcommand(s)

Options:
  -h, --help     Print help
  -V, --version  Print version
";

const SHORT_END: &str = "
`itchsnap --help` adds the exit codes and examples; `itchsnap COMMAND --help` explains a command.
";

const LONG_END: &str = "
Exit codes:
  0    done, or the same
  1    refused, different, not canonical, or not ready
  2    usage error
  3    a read, write, file or socket failed
  4    out of memory
  141  the output pipe was closed

Examples:
  itchsnap book --stock AAPL day.itch --until 10:30
  zcat day.itch.gz | itchsnap check

Manual: man itchsnap
";

/// The help of the program, without or with the exit codes and examples.
#[derive(Clone, Copy, PartialEq, Eq)]
enum ProgramHelp {
    Short,
    Long,
}

impl Display for ProgramHelp {
    fn fmt<W: fmt::Write>(&self, f: &mut Formatter<W>) -> fmt::Result {
        f.write_str(HEAD)?;
        for (topic, heading) in TOPICS {
            write!(f, "\n{heading}:\n")?;
            write_topic(topic, f)?;
        }
        f.write_str(OPTIONS)?;
        f.write_str(match self {
            ProgramHelp::Short => SHORT_END,
            ProgramHelp::Long => LONG_END,
        })
    }
}

fn write_topic<W: fmt::Write>(topic: Topic, f: &mut Formatter<W>) -> fmt::Result {
    for entry in &COMMANDS {
        if entry.topic == topic {
            let (name, about) = (entry.name, entry.about);
            writeln!(f, "  {name:11}  {about}")?;
        }
    }
    Ok(())
}

/// Replaces clap's help of the program, which cannot list the commands by topic. Other errors, and the help of a command, stay as they are.
pub fn with_program_help(
    alloc: Global,
    arguments: &[String],
    error: Error,
) -> Result<Error, AllocError> {
    let help = match error.kind() {
        ErrorKind::DisplayHelp if !is_short(arguments) => ProgramHelp::Long,
        ErrorKind::DisplayHelp | ErrorKind::DisplayHelpOnMissingArgumentOrSubcommand => {
            ProgramHelp::Short
        }
        _ => return Ok(error),
    };
    let text = format!(in alloc; "{help}")?;
    let mut program = command(alloc)?.override_help(text.as_str());
    match program.try_get_matches_from_mut(arguments) {
        Err(error) => Ok(error),
        Ok(_) => Ok(error),
    }
}

// Returns whether the first word requests the short help.
fn is_short(arguments: &[String]) -> bool {
    arguments.get(1).is_some_and(|word| word.as_str() == "-h")
}
