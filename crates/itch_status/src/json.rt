//! The figures as JSON.
ghost use Rattle.std.specs.Prelude.{◌≡◌, ◌+◌, ◌≤◌, ◌++◌, length, codes, decimal, IfOk, OnOk};
ghost use Rattle.std.specs.List.{flat_map};
ghost use Rattle.arrayvec.specs.ArrayVec.{array_vec_len};
ghost use Rattle.itch_status.specs.JsonTexts.{json_member, json_second, json_text, json_value};

use crate::figure::Figure;
use crate::figures::Figures;
use crate::line::{push, push_escaped, push_nanoseconds, push_number, push_thousandths};
use crate::shown::{Shown, session_name};
use arrayvec::ArrayVec;
use std::alloc::{AllocError, Global};

/// Returns the figures as an object: each figure, the version, and the messages of each second of the last minute. The last second is not
/// over yet.
#[tactic(auto, using(crate::proofs::Joining::joining))]
pub(crate) fn json(alloc: Global, figures: &Figures, version: &str) -> Result<Vec<u8>, AllocError>
    ensures { IfOk result (λ text. text.items ≡ json_text figures.now version.now) }
{
    let mut text = Vec::new(alloc);
    text.extend_from_slice(b"{")?;
    extend_members(&mut text, &Figure::ALL, figures)?;
    text.extend_from_slice(b"\"version\":\"")?;
    text.extend_from_slice(version.as_bytes())?;
    text.extend_from_slice(b"\",\"messages_by_second\":[")?;
    extend_seconds(&mut text, &figures.minute.before)?;
    text.extend_from_slice(last_second(figures.minute.present).as_slice())?;
    Ok(text)
}

fn extend_members(text: &mut Vec<u8>, shown: &[Figure], figures: &Figures) -> Result<(), AllocError>
    ensures { OnOk result (text.new.items ≡ text.old.items ++ flat_map (json_member figures.now) shown.now) }
{
    for &figure in shown {
        text.extend_from_slice(member(figure, figures).as_slice())?;
    }
    Ok(())
}

fn extend_seconds(text: &mut Vec<u8>, seconds: &[u64]) -> Result<(), AllocError>
    ensures { OnOk result (text.new.items ≡ text.old.items ++ flat_map json_second seconds.now) }
{
    for &messages in seconds {
        text.extend_from_slice(second(messages).as_slice())?;
    }
    Ok(())
}

fn second(messages: u64) -> ArrayVec<u8, 21>
    ensures { result.items ≡ json_second messages }
{
    let mut line = ArrayVec::new();
    push_number(&mut line, messages);
    push(&mut line, b",");
    line
}

fn last_second(messages: u64) -> ArrayVec<u8, 23>
    ensures { result.items ≡ decimal messages ++ codes "]}\n" }
{
    let mut line = ArrayVec::new();
    push_number(&mut line, messages);
    push(&mut line, b"]}\n");
    line
}

#[tactic(auto, using(crate::proofs::Joining::joining), unfolding(crate::specs::JsonTexts::json_member))]
fn member(figure: Figure, figures: &Figures) -> ArrayVec<u8, 80>
    ensures { result.items ≡ json_member figures.now figure }
{
    let mut line = ArrayVec::new();
    push(&mut line, b"\"");
    push(&mut line, figure.key().as_bytes());
    push(&mut line, b"\":");
    push_value(&mut line, figure.value(figures));
    push(&mut line, b",");
    line
}

#[tactic(auto, using(crate::proofs::Joining::joining))]
fn push_value(line: &mut ArrayVec<u8, 80>, shown: Shown)
    requires { array_vec_len line.old + 32 ≤ 80 }
    ensures items { line.new.items ≡ line.old.items ++ json_value shown }
    ensures short { array_vec_len line.new ≤ array_vec_len line.old + 32 }
{
    match shown {
        Shown::Nothing => push(line, b"null"),
        Shown::Count(number) => push_number(line, number),
        Shown::Thousandths(number) => push_thousandths(line, number),
        Shown::Clock(number) => push_nanoseconds(line, number),
        Shown::Yes(true) => push(line, b"true"),
        Shown::Yes(false) => push(line, b"false"),
        Shown::State(state) => push_text(line, state.words().as_bytes()),
        Shown::Cause(cause) => push_text(line, cause.words().as_bytes()),
        Shown::Session(session) => {
            push(line, b"\"");
            push_escaped(line, session_name(&session));
            push(line, b"\"");
        }
    }
}

#[tactic(auto, using(crate::proofs::Joining::joining))]
fn push_text(line: &mut ArrayVec<u8, 80>, words: &[u8])
    requires { array_vec_len line.old + length words.now + 2 ≤ 80 }
    ensures items { line.new.items ≡ line.old.items ++ codes "\"" ++ words.now ++ codes "\"" }
    ensures len { array_vec_len line.new ≡ array_vec_len line.old + length words.now + 2 }
{
    push(line, b"\"");
    push(line, words);
    push(line, b"\"");
}
