//! The page for people.
ghost use Rattle.std.specs.Prelude.{◌≡◌, ◌+◌, ◌≤◌, ◌++◌, IfOk, OnOk};
ghost use Rattle.std.specs.List.{flat_map};
ghost use Rattle.arrayvec.specs.ArrayVec.{array_vec_len};
ghost use Rattle.itch_status.specs.HtmlTexts.{caption, html_beginning, html_row, html_text, html_value};

use crate::chart::{extend_chart, greatest};
use crate::figure::Figure;
use crate::figures::Figures;
use crate::line::{push, push_html, push_number};
use crate::plain::push_plain;
use crate::shown::{Shown, session_name};
use arrayvec::ArrayVec;
use std::alloc::{AllocError, Global};

/// The page before the chart: the document's head, with all styles.
const HEAD: &[u8] = b"<!DOCTYPE html>
<html lang=\"en\">
<head>
<meta charset=\"utf-8\">
<meta name=\"viewport\" content=\"width=device-width, initial-scale=1\">
<meta http-equiv=\"refresh\" content=\"5\">
<title>itchsnap live</title>
<style>
body { font: 16px/1.5 system-ui, sans-serif; max-width: 42rem; margin: 2rem auto; padding: 0 1rem; color: #1b1f24; background: #fff; }
h1 { font-size: 1.4rem; }
svg { width: 100%; height: 8rem; background: #f3f5f7; fill: #2f6fb0; }
table { border-collapse: collapse; width: 100%; }
th, td { text-align: left; padding: 0.25rem 0.5rem; border-top: 1px solid #dde2e7; font-weight: normal; }
td { text-align: right; font-variant-numeric: tabular-nums; }
p { color: #57606a; }
</style>
</head>
<body>
<h1>itchsnap live</h1>
";

/// Returns the page: the chart of the last minute, and one row per figure.
#[tactic(auto, using(crate::proofs::Joining::joining))]
pub(crate) fn html(alloc: Global, figures: &Figures, version: &str) -> Result<Vec<u8>, AllocError>
    ensures { IfOk result (λ text. text.items ≡ html_text figures.now version.now) }
{
    let mut text = Vec::new(alloc);
    text.extend_from_slice(beginning())?;
    extend_chart(&mut text, &figures.minute.before)?;
    text.extend_from_slice(caption(greatest(&figures.minute.before)).as_slice())?;
    extend_rows(&mut text, &Figure::ALL, figures)?;
    text.extend_from_slice(b"</table>\n<p>itchsnap ")?;
    text.extend_from_slice(version.as_bytes())?;
    text.extend_from_slice(b"</p>\n</body>\n</html>\n")?;
    Ok(text)
}

// Returns the page before the chart.
fn beginning() -> &'static [u8]
    ensures { result.now ≡ html_beginning }
{
    HEAD
}

// Returns the caption of the chart, and the beginning of the table.
#[tactic(auto, using(crate::proofs::Joining::joining), unfolding(crate::specs::HtmlTexts::caption))]
fn caption(most: u64) -> ArrayVec<u8, 160>
    ensures { result.items ≡ caption most }
{
    let mut line = ArrayVec::new();
    push(
        &mut line,
        b"<p>Messages per second over the last minute, at most ",
    );
    push_number(&mut line, most);
    push(&mut line, b".</p>\n<table>\n");
    line
}

fn extend_rows(text: &mut Vec<u8>, shown: &[Figure], figures: &Figures) -> Result<(), AllocError>
    ensures { OnOk result (text.new.items ≡ text.old.items ++ flat_map (html_row figures.now) shown.now) }
{
    for &figure in shown {
        text.extend_from_slice(row(figure, figures).as_slice())?;
    }
    Ok(())
}

#[tactic(auto, using(crate::proofs::Joining::joining), unfolding(crate::specs::HtmlTexts::html_row))]
fn row(figure: Figure, figures: &Figures) -> ArrayVec<u8, 160>
    ensures { result.items ≡ html_row figures.now figure }
{
    let mut line = ArrayVec::new();
    push(&mut line, b"<tr><th>");
    push(&mut line, figure.label().as_bytes());
    push(&mut line, b"</th><td>");
    push_value(&mut line, figure.value(figures));
    push(&mut line, b"</td></tr>\n");
    line
}

fn push_value(line: &mut ArrayVec<u8, 160>, shown: Shown)
    requires { array_vec_len line.old + 50 ≤ 160 }
    ensures items { line.new.items ≡ line.old.items ++ html_value shown }
    ensures short { array_vec_len line.new ≤ array_vec_len line.old + 50 }
{
    match shown {
        Shown::Session(session) => push_html(line, session_name(&session)),
        other => push_plain(line, other),
    }
}
