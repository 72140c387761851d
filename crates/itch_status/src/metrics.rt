//! The figures as metrics, in the text format of Prometheus, version 0.0.4.
ghost use Rattle.std.specs.Prelude.{◌≡◌, ◌+◌, ◌*◌, ◌≤◌, ◌++◌, length, codes, IfOk, OnOk};
ghost use Rattle.std.specs.List.{flat_map};
ghost use Rattle.arrayvec.specs.ArrayVec.{array_vec_len};
ghost use Rattle.itch_status.specs.FigureTables.{figure_key};
ghost use Rattle.itch_status.specs.MetricTexts.{metric, metric_heading, metric_number, metrics_text, sample, labelled, state_sample, states};

use crate::figure::Figure;
use crate::figures::Figures;
use crate::line::{push, push_escaped, push_nanoseconds, push_number, push_thousandths};
use crate::shown::{Shown, session_name};
use crate::state::FeedState;
use arrayvec::ArrayVec;
use std::alloc::{AllocError, Global};

/// The length of the longest metric.
const LONGEST: usize = 640;

/// Returns the figures as metrics, and the version.
#[tactic(auto, using(crate::proofs::Joining::joining))]
pub(crate) fn metrics(
    alloc: Global,
    figures: &Figures,
    version: &str,
) -> Result<Vec<u8>, AllocError>
    ensures { IfOk result (λ text. text.items ≡ metrics_text figures.now version.now) }
{
    let mut text = Vec::new(alloc);
    extend_metrics(&mut text, &Figure::ALL, figures)?;
    text.extend_from_slice(
        b"# HELP itchsnap_build_info The version of the program.\n# TYPE itchsnap_build_info gauge\nitchsnap_build_info{version=\"",
    )?;
    text.extend_from_slice(version.as_bytes())?;
    text.extend_from_slice(b"\"} 1\n")?;
    Ok(text)
}

fn extend_metrics(text: &mut Vec<u8>, shown: &[Figure], figures: &Figures) -> Result<(), AllocError>
    ensures { OnOk result (text.new.items ≡ text.old.items ++ flat_map (metric figures.now) shown.now) }
{
    for &figure in shown {
        text.extend_from_slice(metric(figure, figures).as_slice())?;
    }
    Ok(())
}

// Returns a metric: its description, its type, and its samples, if it has any now.
#[tactic(auto, using(crate::proofs::Joining::joining), unfolding(crate::specs::MetricTexts::metric))]
fn metric(figure: Figure, figures: &Figures) -> ArrayVec<u8, LONGEST>
    ensures { result.items ≡ metric figures.now figure }
{
    let mut lines = ArrayVec::new();
    push_heading(&mut lines, figure);
    push_sample(&mut lines, figure, figure.value(figures));
    lines
}

#[tactic(auto, using(crate::proofs::Joining::joining), unfolding(crate::specs::MetricTexts::metric_heading))]
fn push_heading(lines: &mut ArrayVec<u8, LONGEST>, figure: Figure)
    requires { array_vec_len lines.old ≡ 0 }
    ensures items { lines.new.items ≡ lines.old.items ++ metric_heading figure }
    ensures short { array_vec_len lines.new ≤ 226 }
{
    push(lines, b"# HELP ");
    push_name(lines, figure);
    push(lines, b" ");
    push(lines, figure.help().as_bytes());
    push(lines, b"\n# TYPE ");
    push_name(lines, figure);
    push(lines, b" ");
    push(lines, figure.kind().as_bytes());
    push(lines, b"\n");
}

#[tactic(auto, using(crate::proofs::Joining::joining))]
fn push_name(lines: &mut ArrayVec<u8, LONGEST>, figure: Figure)
    requires { array_vec_len lines.old + 41 ≤ 640 }
    ensures items { lines.new.items ≡ lines.old.items ++ codes "itchsnap_" ++ figure_key figure }
    ensures short { array_vec_len lines.new ≤ array_vec_len lines.old + 41 }
{
    push(lines, b"itchsnap_");
    push(lines, figure.key().as_bytes());
}

#[tactic(auto, using(crate::proofs::Joining::joining))]
fn push_sample(lines: &mut ArrayVec<u8, LONGEST>, figure: Figure, shown: Shown)
    requires { array_vec_len lines.old ≤ 226 }
    ensures { lines.new.items ≡ lines.old.items ++ sample figure shown }
{
    match shown {
        Shown::Nothing => {}
        Shown::State(state) => push_states(lines, figure, state),
        Shown::Cause(cause) => push_labelled(lines, figure, b"{cause=\"", cause.words().as_bytes()),
        Shown::Session(session) => push_labelled(
            lines,
            figure,
            b"{session=\"",
            session_name(&session),
        ),
        Shown::Count(_) | Shown::Thousandths(_) | Shown::Clock(_) | Shown::Yes(_) => {
            push_name(lines, figure);
            push(lines, b" ");
            push_number_of(lines, shown);
            push(lines, b"\n");
        }
    }
}

// Appends a value that is a number.
fn push_number_of(lines: &mut ArrayVec<u8, LONGEST>, shown: Shown)
    requires { array_vec_len lines.old + 30 ≤ 640 }
    ensures items { lines.new.items ≡ lines.old.items ++ metric_number shown }
    ensures short { array_vec_len lines.new ≤ array_vec_len lines.old + 30 }
{
    match shown {
        Shown::Count(number) => push_number(lines, number),
        Shown::Thousandths(number) => push_thousandths(lines, number),
        Shown::Clock(number) => push_nanoseconds(lines, number),
        Shown::Yes(true) => push(lines, b"1"),
        Shown::Yes(false) => push(lines, b"0"),
        _ => {}
    }
}

// Appends a sample of 1 whose label is a text, after an opening brace and the label's name.
#[tactic(auto, using(crate::proofs::Joining::joining), unfolding(crate::specs::MetricTexts::labelled))]
fn push_labelled(lines: &mut ArrayVec<u8, LONGEST>, figure: Figure, opening: &[u8], text: &[u8])
    requires { array_vec_len lines.old + length opening.now + 2 * length text.now + 46 ≤ 640 }
    ensures { lines.new.items ≡ lines.old.items ++ labelled figure opening.now text.now }
{
    push_name(lines, figure);
    push(lines, opening);
    push_escaped(lines, text);
    push(lines, b"\"} 1\n");
}

// Appends one sample per state: 1 for the current state, and 0 for the others.
#[tactic(auto, using(crate::proofs::Joining::joining))]
fn push_states(lines: &mut ArrayVec<u8, LONGEST>, figure: Figure, present: FeedState)
    requires { array_vec_len lines.old ≤ 226 }
    ensures { lines.new.items ≡ lines.old.items ++ flat_map (state_sample figure present) states }
{
    push_state(lines, figure, FeedState::Connecting, present);
    push_state(lines, figure, FeedState::Following, present);
    push_state(lines, figure, FeedState::Lost, present);
    push_state(lines, figure, FeedState::Ended, present);
}

#[tactic(auto, using(crate::proofs::Joining::joining), unfolding(crate::specs::MetricTexts::state_sample))]
fn push_state(
    lines: &mut ArrayVec<u8, LONGEST>,
    figure: Figure,
    state: FeedState,
    present: FeedState,
)
    requires { array_vec_len lines.old + 64 ≤ 640 }
    ensures items { lines.new.items ≡ lines.old.items ++ state_sample figure present state }
    ensures short { array_vec_len lines.new ≤ array_vec_len lines.old + 64 }
{
    push_name(lines, figure);
    push(lines, b"{state=\"");
    push(lines, state.words().as_bytes());
    push(
        lines,
        if state == present {
            b"\"} 1\n"
        } else {
            b"\"} 0\n"
        },
    );
}
