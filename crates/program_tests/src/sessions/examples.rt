//! Runs the examples of the crates' pages.

use itch_codec::Alpha;
use itch_sessions::sessions::{Login, default_session};

#[test]
fn a_login_is_for_both_ends(rt: HostRuntime) {
    let (Ok(login), Ok(any)) = (Login::new("desk", "secret"), Alpha::from_text("")) else {
        panic!(rt; "a login");
    };
    assert_eq!(rt; login.config(default_session()).session.text(), "ITCHSNAP");
    assert_eq!(rt; login.credentials(any).username.text(), "desk");
}
