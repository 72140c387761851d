//! Reads the logins of the command line, whose passwords are arguments, lines of a file, or an environment variable.

use crate::failure::Failure;
use itch_sessions::sessions::first_line;
use itch_sessions::{LoginSource, Logins, LoginsFault};
use itchsnap_cli::command_line::{LoginArguments, Password, UserArguments};
use std::alloc::AllocError;
use std::env::{self, Env, VarError};
use std::fs::{self, File};
use std::io::{self, Read};
use std::rt::Files;

/// At most this much of a file is read: a longer password is refused anyway.
const MOST_BYTES: u64 = 4096;

/// Returns the variable `ITCHSNAP_PASS`, if it is set and UTF-8.
pub fn password_of_environment<R: Env + AllocGlobal>(rt: &R) -> Result<Option<String>, AllocError> {
    match env::var(rt, "ITCHSNAP_PASS") {
        Ok(password) => Ok(Some(password)),
        Err(VarError::OutOfMemory) => Err(AllocError),
        Err(VarError::NotPresent | VarError::NotUnicode) => Ok(None),
    }
}

/// Reads the users of a server.
pub fn read_users<'a, R: Files<File = File> + AllocGlobal>(
    rt: &R,
    users: UserArguments<'a>,
) -> Result<Logins<'a>, Failure> {
    match users {
        UserArguments::One(login) => read_account(rt, login),
        UserArguments::Listed(path) => read_logins(rt, LoginSource::UserFile { path }),
    }
}

/// Reads one login.
pub fn read_account<'a, R: Files<File = File> + AllocGlobal>(
    rt: &R,
    login: LoginArguments<'a>,
) -> Result<Logins<'a>, Failure> {
    let user = login.user;
    let source = match login.password {
        Password::Word(password) => LoginSource::Arguments { user, password },
        Password::File(path) => LoginSource::PasswordFile { user, path },
    };
    read_logins(rt, source)
}

fn read_logins<'a, R: Files<File = File> + AllocGlobal>(
    rt: &R,
    source: LoginSource<'a>,
) -> Result<Logins<'a>, Failure> {
    let path = source.path().unwrap_or("");
    match Logins::read(rt, source) {
        Ok(logins) => Ok(logins),
        Err(LoginsFault::Open(error)) => Err(Failure::open(rt.alloc(), path, error)),
        Err(LoginsFault::Login(fault)) => Err(Failure::Session(fault)),
        Err(fault) => Err(Failure::Users {
            path: String::from_str(rt.alloc(), path)?,
            fault,
        }),
    }
}

/// Returns the password from an argument, or the first line of a file.
pub fn read_password<R: Files + AllocGlobal>(
    rt: &R,
    password: Password<'_>,
) -> Result<String, Failure> {
    match password {
        Password::Word(word) => Ok(String::from_str(rt.alloc(), word)?),
        Password::File(path) => match read_beginning(rt, path) {
            Ok(text) => Ok(String::from_str(rt.alloc(), first_line(text.as_str()))?),
            Err(error) => Err(Failure::open(rt.alloc(), path, error)),
        },
    }
}

fn read_beginning<R: Files + AllocGlobal>(rt: &R, path: &str) -> io::Result<String> {
    io::read_to_string(rt.alloc(), fs::open(rt, path)?.take(MOST_BYTES))
}
