//! Completions of the command line, as a script that a shell reads.

use crate::command_line::argument::{Argument, Value};
use crate::command_line::commands::{COMMANDS, Entry};
use std::fmt::{self, Display, Formatter};

const BASH_HEAD: &str = r#"_itchsnap() {
    local words= typed=${COMP_WORDS[COMP_CWORD]}
    case $COMP_CWORD:${COMP_WORDS[1]} in
        1:*) words=""#;

const BASH_TAIL: &str = r#"    esac
    COMPREPLY=()
    if [[ $COMP_CWORD -eq 1 || $typed == -* || ${COMP_WORDS[1]} == completions ]]; then
        COMPREPLY=($(compgen -W "$words" -- "$typed"))
    fi
}
complete -o default -F _itchsnap itchsnap
"#;

const ZSH_HEAD: &str = r#"#compdef itchsnap
_itchsnap() {
    local -a commands
    commands=(
"#;

const ZSH_MIDDLE: &str = r#"    )
    if (( CURRENT == 2 )); then
        _describe command commands
        return
    fi
    local command=$words[2]
    shift words
    (( CURRENT-- ))
    case $command in
"#;

const ZSH_TAIL: &str = r#"    esac
}
if [ "$funcstack[1]" = _itchsnap ]; then
    _itchsnap "$@"
else
    compdef _itchsnap itchsnap
fi
"#;

/// A shell for which there are completions.
#[derive(Clone, Copy, Debug, PartialEq, Eq)]
pub enum Shell {
    Bash,
    Zsh,
    Fish,
}

/// The completions of every command and option for a shell: `Display` writes the script.
#[derive(Clone, Copy, Debug, PartialEq, Eq)]
pub struct Completions(Shell);

impl Completions {
    pub fn new(shell: Shell) -> Completions {
        Completions(shell)
    }
}

impl Display for Completions {
    fn fmt<W: fmt::Write>(&self, f: &mut Formatter<W>) -> fmt::Result {
        match self.0 {
            Shell::Bash => write_bash(f),
            Shell::Zsh => write_zsh(f),
            Shell::Fish => write_fish(f),
        }
    }
}

fn write_bash<W: fmt::Write>(f: &mut Formatter<W>) -> fmt::Result {
    f.write_str(BASH_HEAD)?;
    for command in &COMMANDS {
        write!(f, "{} ", command.name)?;
    }
    f.write_str("help --help --version\" ;;\n")?;
    for command in &COMMANDS {
        write_bash_command(command, f)?;
    }
    f.write_str(BASH_TAIL)
}

fn write_bash_command<W: fmt::Write>(command: &Entry, f: &mut Formatter<W>) -> fmt::Result {
    write!(f, "        *:{}) words=\"", command.name)?;
    for word in command.arguments {
        write_choices(word.choices(), f)?;
    }
    for group in command.groups {
        for argument in group.takes {
            if let Some(long) = argument.long() {
                write!(f, "--{long} ")?;
            }
        }
    }
    f.write_str("--help\" ;;\n")
}

// Writes the words from which an argument is chosen, each with a space after it.
fn write_choices<W: fmt::Write>(
    choices: Option<&'static [&'static str]>,
    f: &mut Formatter<W>,
) -> fmt::Result {
    for choice in choices.unwrap_or(&[]) {
        write!(f, "{choice} ")?;
    }
    Ok(())
}

fn write_zsh<W: fmt::Write>(f: &mut Formatter<W>) -> fmt::Result {
    f.write_str(ZSH_HEAD)?;
    for command in &COMMANDS {
        let about = Quoted(Shell::Zsh, command.about);
        writeln!(f, "        '{}:{about}'", command.name)?;
    }
    f.write_str(ZSH_MIDDLE)?;
    for command in &COMMANDS {
        write_zsh_command(command, f)?;
    }
    f.write_str(ZSH_TAIL)
}

fn write_zsh_command<W: fmt::Write>(command: &Entry, f: &mut Formatter<W>) -> fmt::Result {
    let name = command.name;
    write!(f, "        {name}) _arguments '--help[Print help]'")?;
    for group in command.groups {
        for argument in group.takes {
            write_zsh_option(argument, f)?;
        }
    }
    f.write_str(" \\\n            ")?;
    match command.arguments.first().and_then(|word| word.choices()) {
        Some(choices) => {
            f.write_str("'1:word:(")?;
            write_choices(Some(choices), f)?;
            f.write_str(")' ;;\n")
        }
        None => f.write_str("'*:file:_files' ;;\n"),
    }
}

fn write_zsh_option<W: fmt::Write>(argument: &Argument, f: &mut Formatter<W>) -> fmt::Result {
    let Some(long) = argument.long() else {
        return Ok(());
    };
    let help = Quoted(Shell::Zsh, argument.help());
    write!(f, " \\\n            '--{long}[{help}]")?;
    match argument.value() {
        None => {}
        Some(Value::Path(_)) => f.write_str(":file:_files")?,
        Some(Value::Choice(_, choices)) => {
            f.write_str(":value:(")?;
            write_choices(Some(choices), f)?;
            f.write_str(")")?;
        }
        Some(_) => f.write_str(":value:")?,
    }
    f.write_str("'")
}

fn write_fish<W: fmt::Write>(f: &mut Formatter<W>) -> fmt::Result {
    for command in &COMMANDS {
        write_fish_command(command, f)?;
    }
    Ok(())
}

fn write_fish_command<W: fmt::Write>(command: &Entry, f: &mut Formatter<W>) -> fmt::Result {
    let name = command.name;
    let about = Quoted(Shell::Fish, command.about);
    writeln!(
        f,
        "complete -c itchsnap -n __fish_use_subcommand -f -a {name} -d '{about}'"
    )?;
    for group in command.groups {
        for argument in group.takes {
            write_fish_option(name, argument, f)?;
        }
    }
    match command.arguments.first().and_then(|word| word.choices()) {
        Some(choices) => {
            write!(
                f,
                "complete -c itchsnap -n '__fish_seen_subcommand_from {name}' -f -a '"
            )?;
            write_choices(Some(choices), f)?;
            f.write_str("'\n")
        }
        None => Ok(()),
    }
}

fn write_fish_option<W: fmt::Write>(
    name: &str,
    argument: &Argument,
    f: &mut Formatter<W>,
) -> fmt::Result {
    let Some(long) = argument.long() else {
        return Ok(());
    };
    write!(
        f,
        "complete -c itchsnap -n '__fish_seen_subcommand_from {name}' -l {long}"
    )?;
    match argument.value() {
        None => {}
        Some(Value::Path(_)) => f.write_str(" -r")?,
        Some(Value::Choice(_, choices)) => {
            f.write_str(" -x -a '")?;
            write_choices(Some(choices), f)?;
            f.write_str("'")?;
        }
        Some(_) => f.write_str(" -x")?,
    }
    let help = Quoted(Shell::Fish, argument.help());
    writeln!(f, " -d '{help}'")
}

// A text between the single quotes of a shell's script.
#[derive(Clone, Copy)]
struct Quoted(Shell, &'static str);

impl Display for Quoted {
    fn fmt<W: fmt::Write>(&self, f: &mut Formatter<W>) -> fmt::Result {
        for letter in self.1.chars() {
            match (self.0, letter) {
                (Shell::Zsh, '\'') => f.write_str("'\\''")?,
                // A bracket would end a help text, and a colon a name.
                (Shell::Zsh, '[' | ']' | ':' | '\\') | (Shell::Fish, '\'' | '\\') => {
                    write!(f, "\\{letter}")?;
                }
                _ => write!(f, "{letter}")?,
            }
        }
        Ok(())
    }
}
