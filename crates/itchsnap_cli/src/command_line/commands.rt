//! The commands of the command line, with their arguments, the rules of these, and an example of each. Help, completions and usage errors are
//! made from this table.

mod files;
mod sessions;
mod snapshots;

use crate::command_line::argument::Argument;
use clap::error::ErrorKind;
use clap::{Arg, ArgAction, Command, Error};
use itch_sessions::VERSION;
use std::alloc::{AllocError, Global};

/// A command: its name, its topic, its description, the further paragraphs of `--help`, its arguments, the rules of these, and an example.
pub struct Entry {
    pub name: &'static str,
    pub topic: Topic,
    pub about: &'static str,
    pub details: &'static str,
    /// The usage, if clap's own would not show that one of several arguments is required.
    pub usage: Option<&'static str>,
    /// The positional arguments.
    pub arguments: &'static [Argument],
    /// The options, in the order of the help.
    pub groups: &'static [Group],
    pub rules: &'static [Rule],
    pub example: &'static str,
}

/// The topic under which the program's help lists a command.
#[derive(Clone, Copy, PartialEq, Eq)]
pub enum Topic {
    Files,
    Snapshots,
    Sessions,
    Other,
}

/// Options under one heading of a command's help.
pub struct Group {
    pub heading: &'static str,
    pub takes: &'static [Argument],
}

/// A rule of a command's arguments, with their names.
#[derive(Clone, Copy)]
pub enum Rule {
    /// The two cannot be combined.
    Excludes(&'static str, &'static str),
    /// The first one needs the second.
    Needs(&'static str, &'static str),
    /// The first one is also accepted under the second name, which is not shown.
    Alias(&'static str, &'static str),
}

const COMPLETIONS: Entry = Entry {
    name: "completions",
    topic: Topic::Other,
    about: "Print the completions for a shell",
    details: "Print the completions for a shell

The script completes commands, options, their fixed values, and the paths of files and folders.",
    usage: None,
    arguments: &[Argument::ChosenWord {
        id: "SHELL",
        choices: &["bash", "zsh", "fish"],
        help: "The shell",
    }],
    groups: &[],
    rules: &[],
    example: "Example: itchsnap completions bash > completions.bash",
};

/// The commands, in the order of the help.
pub const COMMANDS: [Entry; 18] = [
    files::CHECK,
    files::INFO,
    files::SHOW,
    files::BOOK,
    files::COMPARE,
    files::CUT,
    files::INDEX_COMMAND,
    snapshots::SNAP,
    snapshots::JOIN,
    snapshots::AT,
    snapshots::CANON,
    sessions::SERVE,
    sessions::FETCH,
    sessions::LIVE,
    sessions::FOLLOW,
    sessions::FEED_COMMAND,
    sessions::STATUS,
    COMPLETIONS,
];

/// Returns the program's commands and their arguments.
pub fn command<'a>(alloc: Global) -> Result<Command<'a>, AllocError> {
    let mut program = Command::new(alloc, "itchsnap")
        .about("Market snapshots for TotalView-ITCH 5.0")
        .version(VERSION)
        .subcommand_required(true)
        .arg_required_else_help(true)
        .bin_name("itchsnap")?;
    for entry in &COMMANDS {
        program = program.subcommand(entry.command(alloc)?)?;
    }
    Ok(program)
}

/// Returns the command with this name, or else the program.
pub fn entry_command<'a>(alloc: Global, name: &str) -> Result<Command<'a>, AllocError> {
    for entry in &COMMANDS {
        if entry.name == name {
            let full_name = format!(in alloc; "itchsnap {name}")?;
            return entry.command(alloc)?.bin_name(full_name.as_str());
        }
    }
    command(alloc)
}

/// Returns the usage error of the program with this message.
pub fn usage_error(alloc: Global, message: &str) -> Result<Error, AllocError> {
    command(alloc)?.error(ErrorKind::ValueValidation, message)
}

impl Entry {
    fn command<'a>(&self, alloc: Global) -> Result<Command<'a>, AllocError> {
        let mut command = Command::new(alloc, self.name)
            .about(self.about)
            .long_about(self.details)
            .after_help(self.example)
            .disable_help_flag(true);
        if let Some(usage) = self.usage {
            command = command.override_usage(usage);
        }
        for word in self.arguments {
            command = command.arg(self.with_rules(word.arg(alloc)?, word.id())?)?;
        }
        for group in self.groups {
            command = self.with_group(alloc, command, group)?;
        }
        command.arg(help_flag(alloc))
    }

    fn with_group<'a>(
        &self,
        alloc: Global,
        command: Command<'a>,
        group: &Group,
    ) -> Result<Command<'a>, AllocError> {
        let mut command = command;
        for argument in group.takes {
            let arg = self.with_rules(argument.arg(alloc)?, argument.id())?;
            command = command.arg(arg.help_heading(group.heading))?;
        }
        Ok(command)
    }

    // Adds the rules of the argument with this name.
    fn with_rules<'a>(&self, arg: Arg<'a>, id: &str) -> Result<Arg<'a>, AllocError> {
        let mut arg = arg;
        for rule in self.rules {
            arg = match *rule {
                Rule::Excludes(first, second) if first == id => arg.conflicts_with(second)?,
                Rule::Needs(first, second) if first == id => arg.requires_arg(second)?,
                Rule::Alias(first, second) if first == id => arg.alias(second)?,
                _ => arg,
            };
        }
        Ok(arg)
    }
}

// Returns the flag for help, which the help lists last.
fn help_flag<'a>(alloc: Global) -> Arg<'a> {
    Arg::new(alloc, "help")
        .short('h')
        .long("help")
        .action(ArgAction::Help)
        .help("Print help (see more with '--help')")
        .long_help("Print help (see a summary with '-h')")
        .help_heading("Help")
}
