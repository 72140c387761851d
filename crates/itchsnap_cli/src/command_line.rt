//! Parses the command line of `itchsnap`.
//!
//! [`read_job`] parses it into a [`Job`]: a request over files, [`PointArguments`], [`BookArguments`], [`ChangeArguments`], [`HistoryArguments`], a session with
//! its [`LoginArguments`], a live server, a feed to follow or to play, or the [`Completions`] of a shell. Otherwise it returns a usage fault, or a
//! request for help or the version.
//!
//! ```
//! // of `itchsnap check day.itch`
//! let job = read_job(alloc, words.as_slice(), false, None)?;
//! let Job::Files { request, .. } = job else { return Err(..) };
//! let (expected, form) = (Expectations::nothing(), Form::Text);
//! let command = Command::Check { limit: Limit::whole(), expected, form };
//! assert_eq!(request, Request::One { file: Some("day.itch"), command });
//! ```

mod argument;
mod arguments;
mod books;
mod changes;
mod commands;
mod completions;
mod duration;
mod fault;
mod help;
mod history;
mod indexed;
mod job;
mod live;
mod places;
mod points;
mod request;
mod session;
mod size;
mod status;
mod time;

pub use books::{BookArguments, Times};
pub use changes::ChangeArguments;
pub use commands::usage_error;
pub use completions::{Completions, Shell};
pub use history::{HistoryArguments, HistoryForm};
pub use indexed::{IndexArguments, IndexedArguments, IndexedWork};
pub use job::{Job, read_job};
pub use live::{FeedArguments, FollowArguments, LiveArguments};
pub use points::PointArguments;
pub use session::{FetchServer, LoginArguments, Password, UserArguments, session_of_file};
pub use status::StatusArguments;
