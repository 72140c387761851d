//! An argument of a command, as data: a positional one, a flag, or an option with a value.

use clap::{Arg, ArgAction};
use std::alloc::{AllocError, Global};

/// An argument of a command. `RequiredUnless` and `WordUnless` are required unless another option is given, `Repeated` is a required option
/// that can be given more than once, and `Hidden` is an option that is accepted, but neither shown nor completed.
#[derive(Clone, Copy)]
pub enum Argument {
    Word {
        id: &'static str,
        help: &'static str,
    },
    RequiredWord {
        id: &'static str,
        help: &'static str,
    },
    WordUnless {
        id: &'static str,
        other: &'static str,
        help: &'static str,
    },
    ChosenWord {
        id: &'static str,
        choices: &'static [&'static str],
        help: &'static str,
    },
    Flag {
        long: &'static str,
        help: &'static str,
    },
    Optional {
        long: &'static str,
        value: Value,
        help: &'static str,
    },
    Required {
        long: &'static str,
        value: Value,
        help: &'static str,
    },
    RequiredUnless {
        long: &'static str,
        other: &'static str,
        value: Value,
        help: &'static str,
    },
    Repeated {
        long: &'static str,
        value: Value,
        help: &'static str,
    },
    Hidden {
        long: &'static str,
        value: Value,
    },
}

/// The value of an option, with its name in the help. A `Range` has its least and its greatest number, and a `Choice` its words.
#[derive(Clone, Copy)]
pub enum Value {
    Text(&'static str),
    Path(&'static str),
    Number(&'static str),
    Range(&'static str, i64, i64),
    Choice(&'static str, &'static [&'static str]),
}

impl Argument {
    /// Returns the argument in the form that clap takes.
    pub fn arg<'a>(self, alloc: Global) -> Result<Arg<'a>, AllocError> {
        let arg = match self {
            Argument::Word { id, .. } => Arg::new(alloc, id),
            Argument::RequiredWord { id, .. } => Arg::new(alloc, id).required(true),
            Argument::WordUnless { id, other, .. } => {
                Arg::new(alloc, id).required_unless_present(other)?
            }
            Argument::ChosenWord { id, choices, .. } => Arg::new(alloc, id)
                .required(true)
                .value_parser(choices),
            Argument::Flag { long, .. } => Arg::new(alloc, long)
                .long(long)
                .action(ArgAction::SetTrue),
            Argument::Optional { long, value, .. } => value.arg(alloc, long),
            Argument::Required { long, value, .. } => value.arg(alloc, long).required(true),
            Argument::RequiredUnless {
                long,
                other,
                value,
                ..
            } => value.arg(alloc, long).required_unless_present(other)?,
            Argument::Repeated { long, value, .. } => value
                .arg(alloc, long)
                .required(true)
                .action(ArgAction::Append),
            Argument::Hidden { long, value } => value.arg(alloc, long).hide(true),
        };
        Ok(arg.help(self.help()))
    }

    /// Returns the name of a flag or an option, without its hyphens, if the help shows it.
    pub fn long(self) -> Option<&'static str> {
        match self {
            Argument::Flag { long, .. }
            | Argument::Optional { long, .. }
            | Argument::Required { long, .. }
            | Argument::RequiredUnless { long, .. }
            | Argument::Repeated { long, .. } => Some(long),
            _ => None,
        }
    }

    /// Returns the name by which clap knows the argument.
    pub fn id(self) -> &'static str {
        match self {
            Argument::Word { id, .. }
            | Argument::RequiredWord { id, .. }
            | Argument::WordUnless { id, .. }
            | Argument::ChosenWord { id, .. } => id,
            Argument::Flag { long, .. }
            | Argument::Optional { long, .. }
            | Argument::Required { long, .. }
            | Argument::RequiredUnless { long, .. }
            | Argument::Repeated { long, .. }
            | Argument::Hidden { long, .. } => long,
        }
    }

    /// Returns the value of an option.
    pub fn value(self) -> Option<Value> {
        match self {
            Argument::Optional { value, .. }
            | Argument::Required { value, .. }
            | Argument::RequiredUnless { value, .. }
            | Argument::Repeated { value, .. }
            | Argument::Hidden { value, .. } => Some(value),
            _ => None,
        }
    }

    /// Returns the words from which a positional argument is chosen.
    pub fn choices(self) -> Option<&'static [&'static str]> {
        match self {
            Argument::ChosenWord { choices, .. } => Some(choices),
            _ => None,
        }
    }

    /// Returns its help text.
    pub fn help(self) -> &'static str {
        match self {
            Argument::Word { help, .. }
            | Argument::RequiredWord { help, .. }
            | Argument::WordUnless { help, .. }
            | Argument::ChosenWord { help, .. }
            | Argument::Flag { help, .. }
            | Argument::Optional { help, .. }
            | Argument::Required { help, .. }
            | Argument::RequiredUnless { help, .. }
            | Argument::Repeated { help, .. } => help,
            Argument::Hidden { .. } => "",
        }
    }
}

impl Value {
    // Creates the option with this value.
    fn arg<'a>(self, alloc: Global, long: &'a str) -> Arg<'a> {
        let arg = Arg::new(alloc, long).long(long);
        match self {
            Value::Text(name) | Value::Path(name) => arg.value_name(name),
            Value::Number(name) => arg.value_name(name).value_parser(clap::value_parser!(u64)),
            Value::Range(name, least, most) => arg
                .value_name(name)
                .value_parser(clap::value_parser!(u64).range(least..=most)),
            Value::Choice(name, choices) => arg.value_name(name).value_parser(choices),
        }
    }
}
