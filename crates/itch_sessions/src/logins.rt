//! The logins that a server accepts, or that a client uses: from the command line, or from a file that is read again when it has changed.

use crate::log::Log;
use crate::log::entry::{LogEvent, LogLevel, write_shown, write_text};
use crate::log::form::LogForm;
use crate::login_file::{Look, Sight, Version, look_of};
use crate::session_fault::SessionFault;
use crate::sessions::{Login, first_line, without_return};
use crate::users::{LineFault, read_user};
use std::alloc::{AllocError, Global};
use std::fmt::{self, Display, Formatter};
use std::fs::{self, File};
use std::io::{self, ErrorKind, Read};
use std::rt::Files;

/// The interval in milliseconds at which files are checked.
const LOOK_MS: u64 = 1_000;

/// At most this many bytes of a password file are read. A longer password is refused anyway.
const PASSWORD_BYTES: u64 = 4_096;

/// A longer file of users is refused.
const USERS_BYTES: u64 = 65_536;

/// The source of logins.
#[derive(Clone, Copy)]
pub enum LoginSource<'a> {
    /// A fixed user name and password.
    Arguments { user: &'a str, password: &'a str },
    /// A user name, and the file whose first line is the password.
    PasswordFile { user: &'a str, path: &'a str },
    /// A file whose nonempty lines consist of a user name, a colon and a password.
    UserFile { path: &'a str },
}

impl<'a> LoginSource<'a> {
    /// Returns the path of the file, if there is one.
    pub fn path(&self) -> Option<&'a str> {
        match self {
            LoginSource::Arguments { .. } => None,
            LoginSource::PasswordFile { path, .. } | LoginSource::UserFile { path } => Some(*path),
        }
    }
}

/// The reason why logins cannot be read.
#[derive(Debug, Drop)]
pub enum LoginsFault {
    /// The file cannot be read.
    Open(io::Error),
    /// The single user name or its password is invalid, or memory was refused.
    Login(SessionFault),
    /// The line with this number is invalid. The first line has the number 1.
    Line { number: u64, fault: LineFault },
    /// The file contains no user.
    NoUser,
    /// The file has more than 65,536 bytes.
    TooLong,
}

impl Display for LoginsFault {
    fn fmt<W: fmt::Write>(&self, f: &mut Formatter<W>) -> fmt::Result {
        match self {
            LoginsFault::Open(error) => write!(f, "{error}"),
            LoginsFault::Login(SessionFault::BadUser) => f.write_str("bad user"),
            LoginsFault::Login(SessionFault::BadPassword) => f.write_str("bad password"),
            LoginsFault::Login(_) => f.write_str("out of memory"),
            LoginsFault::Line { number, fault } => write!(f, "line {number}: {fault}"),
            LoginsFault::NoUser => f.write_str("no user"),
            LoginsFault::TooLong => f.write_str("more than 65536 bytes"),
        }
    }
}

impl From<AllocError> for LoginsFault {
    fn from(_error: AllocError) -> LoginsFault {
        LoginsFault::Login(SessionFault::OutOfMemory)
    }
}

impl From<SessionFault> for LoginsFault {
    fn from(fault: SessionFault) -> LoginsFault {
        LoginsFault::Login(fault)
    }
}

/// The logins of a source. There is always at least one.
#[derive(Drop)]
pub struct Logins<'a> {
    // `None` if the logins are fixed.
    file: Option<LoginSource<'a>>,
    first: Login,
    list: Vec<Login>,
    // The last known state of the file, and the time at which it was checked.
    sight: Sight,
    looked_ms: u64,
}

impl<'a> Logins<'a> {
    /// Reads the logins of a source.
    ///
    /// # Errors
    ///
    /// A [`LoginsFault`] if the source cannot be read or is invalid.
    pub fn read<R: Files<File = File> + AllocGlobal>(
        rt: &R,
        source: LoginSource<'a>,
    ) -> Result<Logins<'a>, LoginsFault> {
        let sight = match source.path() {
            Some(path) => sight_of(rt, path),
            None => Sight::Lost,
        };
        let (first, list) = read_list(rt, source)?;
        Ok(Logins {
            file: Some(source),
            first,
            list,
            sight,
            looked_ms: 0,
        })
    }

    /// Creates logins with a single one, which is fixed.
    ///
    /// # Errors
    ///
    /// [`AllocError`] if memory is refused.
    pub fn of(alloc: Global, login: &Login) -> Result<Logins<'static>, AllocError> {
        let list = one(alloc, *login)?;
        Ok(Logins {
            file: None,
            first: *login,
            list,
            sight: Sight::Lost,
            looked_ms: 0,
        })
    }

    /// Returns the users who may log in.
    pub fn list(&self) -> &[Login] {
        self.list.as_slice()
    }

    /// Returns the login that a client uses.
    pub fn first(&self) -> Login {
        self.first
    }

    fn path(&self) -> Option<&'a str> {
        self.file?.path()
    }

    /// Returns whether the file is due to be checked.
    pub fn is_due(&self, now_ms: u64) -> bool {
        self.path().is_some() && now_ms.saturating_sub(self.looked_ms) >= LOOK_MS
    }

    /// Checks the file, and reads it if it has changed. A file that cannot be read or is invalid changes nothing, and is reported once.
    /// `whose` names these logins in the log.
    pub fn look<R: Files<File = File> + Eprint + AllocGlobal>(
        &mut self,
        log: &mut Log<'_, R>,
        whose: &str,
        now_ms: u64,
    ) {
        self.looked_ms = now_ms;
        let Some(path) = self.path() else {
            return;
        };
        let version = fs::metadata(log.runtime(), path);
        match look_of(self.sight, seen(&version)) {
            Look::Same => {}
            Look::Loses => {
                self.sight = Sight::Lost;
                if let Err(error) = version {
                    let fault = LoginsFault::Open(error);
                    log.say(&LoginLine {
                        whose,
                        path,
                        fault: Some(&fault),
                    });
                }
            }
            Look::Read(version) => self.read_again(log, whose, path, version),
        }
    }

    fn read_again<R: Files<File = File> + Eprint + AllocGlobal>(
        &mut self,
        log: &mut Log<'_, R>,
        whose: &str,
        path: &str,
        version: Version,
    ) {
        let Some(source) = self.file else {
            return;
        };
        match read_list(log.runtime(), source) {
            Ok((first, list)) => {
                self.first = first;
                self.list = list;
                self.sight = Sight::Read(version);
                log.say(&LoginLine {
                    whose,
                    path,
                    fault: None,
                });
            }
            Err(fault) => {
                // A file that is not text does not become readable by another attempt.
                let is_lost = match &fault {
                    LoginsFault::Open(error) => !matches!(error.kind(), ErrorKind::InvalidData),
                    _ => false,
                };
                if !is_lost || !matches!(self.sight, Sight::Lost) {
                    log.say(&LoginLine {
                        whose,
                        path,
                        fault: Some(&fault),
                    });
                }
                self.sight = if is_lost {
                    Sight::Lost
                } else {
                    Sight::Read(version)
                };
            }
        }
    }
}

// The outcome of reading a file of logins again.
#[derive(Clone, Copy)]
struct LoginLine<'a, 'b, 'c> {
    whose: &'a str,
    path: &'b str,
    fault: Option<&'c LoginsFault>,
}

impl Display for LoginLine<'_, '_, '_> {
    fn fmt<W: fmt::Write>(&self, f: &mut Formatter<W>) -> fmt::Result {
        let (whose, path) = (self.whose, self.path);
        match self.fault {
            None => write!(f, "{whose}: reloaded {path}"),
            Some(fault) => write!(f, "{whose}: cannot reload {path}: {fault}"),
        }
    }
}

impl LogEvent for LoginLine<'_, '_, '_> {
    fn level(&self) -> LogLevel {
        match self.fault {
            None => LogLevel::Info,
            Some(_) => LogLevel::Warn,
        }
    }

    fn name(&self) -> &'static str {
        match self.fault {
            None => "logins_reloaded",
            Some(_) => "logins_kept",
        }
    }

    fn write_fields<W: fmt::Write>(&self, f: &mut Formatter<W>, form: LogForm) -> fmt::Result {
        write_text(f, form, "whose", self.whose)?;
        write_text(f, form, "file", self.path)?;
        match self.fault {
            None => Ok(()),
            Some(fault) => write_shown(f, form, "reason", fault),
        }
    }
}

fn sight_of<R: Files<File = File>>(rt: &R, path: &str) -> Sight {
    match seen(&fs::metadata(rt, path)) {
        Some(version) => Sight::Read(version),
        None => Sight::Lost,
    }
}

fn seen(metadata: &io::Result<fs::Metadata>) -> Option<Version> {
    match metadata {
        Ok(metadata) => Some(Version::of(metadata)),
        Err(_) => None,
    }
}

// Returns the logins of a source, and the first of them.
fn read_list<R: Files<File = File> + AllocGlobal>(
    rt: &R,
    source: LoginSource<'_>,
) -> Result<(Login, Vec<Login>), LoginsFault> {
    let login = match source {
        LoginSource::Arguments { user, password } => Login::new(user, password)?,
        LoginSource::PasswordFile { user, path } => {
            let text = read_text(rt, path, PASSWORD_BYTES)?;
            Login::new(user, first_line(text.as_str()))?
        }
        LoginSource::UserFile { path } => return read_listed(rt, path),
    };
    Ok((login, one(rt.alloc(), login)?))
}

// Returns the users in a file, and the first of them.
fn read_listed<R: Files<File = File> + AllocGlobal>(
    rt: &R,
    path: &str,
) -> Result<(Login, Vec<Login>), LoginsFault> {
    let text = read_text(rt, path, USERS_BYTES + 1)?;
    if text.len() as u64 > USERS_BYTES {
        return Err(LoginsFault::TooLong);
    }
    let list = read_users(rt.alloc(), text.as_str())?;
    let Some(first) = list.first().copied() else {
        return Err(LoginsFault::NoUser);
    };
    Ok((first, list))
}

fn one(alloc: Global, login: Login) -> Result<Vec<Login>, AllocError> {
    let mut list = Vec::with_capacity(alloc, 1)?;
    list.push(login)?;
    Ok(list)
}

// Returns the users in the nonempty lines of a text.
fn read_users(alloc: Global, text: &str) -> Result<Vec<Login>, LoginsFault> {
    let mut users = Vec::new(alloc);
    let mut number = 0u64;
    for line in text.split('\n') {
        number = number.saturating_add(1);
        let line = without_return(line);
        if line.is_empty() {
            continue;
        }
        let user = match read_user(line) {
            Ok(user) => user,
            Err(fault) => return Err(LoginsFault::Line { number, fault }),
        };
        if users.push(user).is_err() {
            return Err(LoginsFault::from(AllocError));
        }
    }
    Ok(users)
}

fn read_text<R: Files<File = File> + AllocGlobal>(
    rt: &R,
    path: &str,
    most: u64,
) -> Result<String, LoginsFault> {
    match read_beginning(rt, path, most) {
        Ok(text) => Ok(text),
        Err(error) => match error.kind() {
            ErrorKind::OutOfMemory => Err(LoginsFault::Login(SessionFault::OutOfMemory)),
            _ => Err(LoginsFault::Open(error)),
        },
    }
}

fn read_beginning<R: Files<File = File> + AllocGlobal>(
    rt: &R,
    path: &str,
    most: u64,
) -> io::Result<String> {
    io::read_to_string(rt.alloc(), fs::open(rt, path)?.take(most))
}
