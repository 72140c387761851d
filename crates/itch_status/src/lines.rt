//! The figures as lines, for people and scripts.
ghost use Rattle.std.specs.Prelude.{◌≡◌, ◌++◌, IfOk, OnOk};
ghost use Rattle.std.specs.List.{flat_map};
ghost use Rattle.itch_status.specs.PlainTexts.{plain_line, plain_text};

use crate::figure::Figure;
use crate::figures::Figures;
use crate::line::push;
use crate::plain::push_plain;
use arrayvec::ArrayVec;
use std::alloc::{AllocError, Global};

/// Returns one line per figure, with its key and its value, and a line with the version.
#[tactic(auto, using(crate::proofs::Joining::joining))]
pub(crate) fn lines(alloc: Global, figures: &Figures, version: &str) -> Result<Vec<u8>, AllocError>
    ensures { IfOk result (λ text. text.items ≡ plain_text figures.now version.now) }
{
    let mut text = Vec::new(alloc);
    extend_lines(&mut text, &Figure::ALL, figures)?;
    text.extend_from_slice(b"version ")?;
    text.extend_from_slice(version.as_bytes())?;
    text.extend_from_slice(b"\n")?;
    Ok(text)
}

fn extend_lines(text: &mut Vec<u8>, shown: &[Figure], figures: &Figures) -> Result<(), AllocError>
    ensures { OnOk result (text.new.items ≡ text.old.items ++ flat_map (plain_line figures.now) shown.now) }
{
    for &figure in shown {
        text.extend_from_slice(line(figure, figures).as_slice())?;
    }
    Ok(())
}

#[tactic(auto, using(crate::proofs::Joining::joining), unfolding(crate::specs::PlainTexts::plain_line))]
fn line(figure: Figure, figures: &Figures) -> ArrayVec<u8, 64>
    ensures { result.items ≡ plain_line figures.now figure }
{
    let mut line = ArrayVec::new();
    push(&mut line, figure.key().as_bytes());
    push(&mut line, b" ");
    push_plain(&mut line, figure.value(figures));
    push(&mut line, b"\n");
    line
}
