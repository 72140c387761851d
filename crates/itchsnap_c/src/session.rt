//! Calls for both ends of a session.
ghost use Rattle.std.specs.Prelude.{◌≡◌, IfOk, IfErr};
ghost use Rattle.itchsnap_c.specs.Codes.{wrong};
ghost use Rattle.itchsnap_c.specs.Objects.{OnHandle};
ghost use Rattle.itchsnap_c.specs.Sessions.{AreTexts, credentials_of, Ticks, Notes};

use crate::answers::{Answer, SessionLogin};
use crate::codes::{DONE, WRONG};
use crate::handle::Handle;
use crate::object::Object;
use crate::soup_codes::tick_answer;
use itch_codec::{Alpha, AlphaFault};
use itch_soup::Credentials;
use std::alloc::Global;

/// Returns the action due in a session at `now_ms`, in milliseconds, without a packet. A heartbeat counts as sent.
#[unsafe(no_mangle)]
pub extern "C" fn itchsnap_session_tick(alloc: Global, handle: &mut Handle, now_ms: u64) -> Answer
    ensures { OnHandle wrong (Ticks now_ms) handle.old.kept.object result handle.new.kept.object }
{
    handle.with(alloc, WRONG, |object| tick(object, now_ms))
}

/// Records that a session sent a packet at `now_ms`, in milliseconds.
#[unsafe(no_mangle)]
pub extern "C" fn itchsnap_session_sent(alloc: Global, handle: &mut Handle, now_ms: u64) -> Answer
    ensures { OnHandle wrong (Notes now_ms) handle.old.kept.object result handle.new.kept.object }
{
    handle.with(alloc, WRONG, |object| note(object, now_ms))
}

fn tick(object: &mut Object, now_ms: u64) -> Answer
    ensures { Ticks now_ms object.old result object.new }
{
    match object {
        Object::Client(session) => tick_answer(session.tick(now_ms)),
        Object::Server(session) => tick_answer(session.tick(now_ms)),
        Object::Market(_) | Object::Joiner(_) => WRONG,
    }
}

fn note(object: &mut Object, now_ms: u64) -> Answer
    ensures { Notes now_ms object.old result object.new }
{
    match object {
        Object::Client(session) => {
            session.sent(now_ms);
            DONE
        }
        Object::Server(session) => {
            session.sent(now_ms);
            DONE
        }
        Object::Market(_) | Object::Joiner(_) => WRONG,
    }
}

/// Returns the texts of a login.
pub(crate) fn credentials(login: &SessionLogin) -> Result<Credentials, AlphaFault>
    ensures taken { IfOk result (λ made. AreTexts login.now × (made ≡ credentials_of login.now)) }
    ensures refused { IfErr result (λ fault. ¬ AreTexts login.now) }
{
    Ok(Credentials {
        username: Alpha::from_bytes(&login.username)?,
        password: Alpha::from_bytes(&login.password)?,
        session: Alpha::from_bytes(&login.session)?,
    })
}
